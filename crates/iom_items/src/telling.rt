//! Laws of statements and lines.

ghost use Rattle.iom_items.specs.Reading.{ReadsCommands, ReadsContexts, ReadsEntries, ReadsExtended, ReadsMsiEntries, ReadsRecords};
ghost use Rattle.iom_items.specs.Telling.{ReadsDirs, ReadsMsis, ReadsPtes, StatesWords, TellsOperands, TellsStatements};

/// A law of `words_for`, `item_line` and `context_line`, which cite the same definitions. The line of a statement's words has the
/// statement's own operands. It is itself a statement of the same words, with the same number for each key. The line of any words of an
/// item's number is a statement of them, by the item's name or by `u64`. An entry of a device directory ("Non-leaf DDT entry"), of a page
/// table ("Sv39") or of an MSI page table ("MSI page tables") and its words stand for each other.
pub fn items_are_told_again()
    ensures operands { TellsOperands }
    ensures statements { TellsStatements }
    ensures words { StatesWords }
    ensures dirs { ReadsDirs }
    ensures ptes { ReadsPtes }
    ensures msis { ReadsMsis }
{}

/// A law of the tables of fields: what an IOMMU reads in words, as a command, a fault record, a context of either format or an entry of a
/// directory, of a page table or of an MSI page table, is what their line tells, key by key; and words in which it reads none have no such line.
pub fn lines_tell_what_is_read()
    ensures commands { ReadsCommands }
    ensures records { ReadsRecords }
    ensures contexts { ReadsContexts }
    ensures extended { ReadsExtended }
    ensures entries { ReadsEntries }
    ensures msis { ReadsMsiEntries }
{}
