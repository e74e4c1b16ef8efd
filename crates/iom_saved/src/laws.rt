//! Different things have different words.

ghost use Rattle.iom_saved.specs.Laws.{OneBoard, OneCheck, OneHistory, OneMemory};

/// A law, which does nothing: words that begin with those of a memory begin with those of no other, and so of a history and of a board. The
/// bytes of a memory and of each disk are whole words. Words with another one in one place have another check word.
pub fn words_tell_apart()
    ensures memory { OneMemory }
    ensures history { OneHistory }
    ensures board { OneBoard }
    ensures check { OneCheck }
{}
