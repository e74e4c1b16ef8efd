//! What the number of a judged line means.

ghost use Rattle.std.specs.Prelude.{◌≡◌, ℕ, List, Some};
ghost use Rattle.iom_check.specs.Wanted.{wanted};
ghost use Rattle.iom_core.specs.declared.step.Step.{Step};
ghost use Rattle.iom_names.specs.Reading.{line_with};
ghost use Rattle.iom_traces.specs.Trials.{Tried};
ghost use Rattle.iom_c.specs.Faults.{ok};
ghost use Rattle.iom_c.specs.Trials.{IsAllowedLine, IsLineJudged, IsStep};

/// The law of a judge: to a line that is one step, of which something was seen, and whose number is 0, some IOMMU could answer so. The function does
/// nothing.
pub fn passed_lines_are_allowed()
    ensures { (before after : Tried) (line said wish : List ℕ) (taken : Step) → IsLineJudged before line said after ok →
        IsStep (line_with before.names line) taken → wanted line ≡ Some wish → IsAllowedLine before line taken after }
{}
