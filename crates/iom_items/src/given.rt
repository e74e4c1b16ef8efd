//! What operands are.

ghost use Rattle.iom_items.specs.Given.{ReadsFlags, ReadsLimits, ReadsOperands, ReadsValues};

/// A law of `words_for`, which cites the same definitions. Words pass as operands exactly if each is `key=value` with one of the
/// keys, and no two have the same key. The number for a key is then the one that its word writes, or 0 if no word has the key.
/// A number is read below a limit exactly if it is below it. A flag is read as set exactly if its number is 1, and as not set
/// exactly if it is 0.
pub fn operands_are_what_is_given()
    ensures operands { ReadsOperands }
    ensures values { ReadsValues }
    ensures limits { ReadsLimits }
    ensures flags { ReadsFlags }
{}
