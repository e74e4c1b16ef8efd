//! A law of reasons.

ghost use Rattle.iom_slips.specs.Telling.{AreRows, AreStopped, AreTaken, AreTold};

/// A law of `slip` and `statement_slip`, which cite the same definitions. The lines among which `slip` looks are the rows of the table of forms,
/// part by part. It has a reason for a line exactly where the line is bad. A line whose words are all pieces of a row, each number in its range,
/// isn't bad. Where the reason of an item's statement names an operand, the statement is refused; where it names none, it is refused only for the
/// address of a fence that isn't a multiple of 4, or for fields that no context has together.
pub fn slips_are_told()
    ensures rows { AreRows }
    ensures told { AreTold }
    ensures taken { AreTaken }
    ensures stopped { AreStopped }
{}
