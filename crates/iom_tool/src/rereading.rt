//! A law of texts of steps.

ghost use Rattle.iom_tool.specs.Rereading.{ReadsSteps, ReadsStepsOfRun};

/// A law of `line_of` and of the text that `put_traced_step` puts, which cite these definitions. The text of a step, of at most 64 bytes of
/// data, is a line that `debug` reads as that step; and so does `run`, if it isn't `translate`, which `run` lacks.
pub fn steps_are_read_again()
    ensures debug { ReadsSteps }
    ensures run { ReadsStepsOfRun }
{}
