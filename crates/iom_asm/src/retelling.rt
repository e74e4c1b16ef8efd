//! A law: the lines of an image's items state these items again.

ghost use Rattle.iom_items.specs.Telling.{ReadsDirs, ReadsMsis, ReadsPtes, StatesWords, TellsOperands, TellsStatements};
ghost use Rattle.iom_asm.specs.Retelling.{FollowItems, ListsItems, ReadsAgain, TellsItems};

/// A law of `assemble`, `load`, `item_line_on` and `list`, which cite the same definitions: the image that a text describes is
/// accepted, and read as that image; where an item is stated, its line in the memory that the image starts, on its machine, is that of
/// the stated words, also for each of several numbers on a line, and has the statement's own operands; that line is itself a statement
/// of the same words on that machine, with the same number for each key, and the line of any words is a statement of them; an entry of
/// a device directory ("Non-leaf DDT entry"), of a page table ("Sv39") or of an MSI page table ("MSI page tables") and its words
/// stand for each other; items of one kind at
/// places that follow each other are listed in order, wherever the text states them; and such places are those of lines that state
/// nothing else, be there blank lines between or not.
pub fn texts_are_told_again()
    ensures reads { ReadsAgain }
    ensures tells { TellsItems }
    ensures operands { TellsOperands }
    ensures statements { TellsStatements }
    ensures words { StatesWords }
    ensures dirs { ReadsDirs }
    ensures ptes { ReadsPtes }
    ensures msis { ReadsMsis }
    ensures lists { ListsItems }
    ensures follow { FollowItems }
{}
