ghost use Rattle.std.specs.Prelude.{◌≡◌, ◌↔◌, [], true, List};
ghost use Rattle.iom_choices.specs.Traces.{is_any};
ghost use Rattle.iom_core.specs.State.{State};
ghost use Rattle.iom_core.specs.declared.step.Step.{Step};
ghost use Rattle.iom_every.specs.Judged.{IsOneTraceAllowed};
ghost use Rattle.iom_judge.specs.Candidates.{AreCandidates, CandidateView};
ghost use Rattle.iom_judge.specs.Seen.{fits_seen};
ghost use Rattle.iom_judge.specs.declared.seen.Seen.{Seen};

/// A judge has a candidate exactly if some IOMMU answers one of the traces: one that reads nothing ahead, and whose commands take effect at the next
/// fence at the latest.
pub fn traces_are_judged_right()
    ensures { (start : State) (traces : List (List (Step × Seen))) (candidates : List CandidateView) → AreCandidates start traces candidates →
        is_any candidates ≡ true ↔ IsOneTraceAllowed [] fits_seen start traces }
{}
