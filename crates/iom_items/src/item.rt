ghost use Rattle.std.specs.Prelude.{◌≡◌, ◌*◌};
ghost use Rattle.iom_items.specs.Items.{item_named, words_in};

use iom_ddt::ContextFormat;

/// The kinds of items that words of memory are read as.
#[derive(Clone, Copy, PartialEq)]
pub enum Item {
    /// A command of the command queue, 16 bytes.
    Cmd,
    /// A fault record, 32 bytes.
    Fault,
    /// A device context, the leaf of a device directory (DDT), 32 bytes, or 64 in extended format.
    Context,
    /// A non-leaf entry of a device directory (DDT), which points to a further table, 8 bytes.
    Dir,
    /// An entry of a page table (PTE), 8 bytes.
    Pte,
    /// A basic entry of an MSI page table, 16 bytes.
    Msi,
    /// A word, 8 bytes.
    Word,
}

impl Item {
    /// The item of this name: `cmd`, `fault`, `context`, `dir`, `pte`, `msi` or `u64`; None of any other.
    #[tactic(auto, unfolding(crate::specs::Items::item_named))]
    pub fn named(name: &[u8]) -> Option<Item>
        ensures { result ≡ item_named name.now }
    {
        if name == b"cmd".as_slice() {
            Some(Item::Cmd)
        } else if name == b"fault".as_slice() {
            Some(Item::Fault)
        } else if name == b"context".as_slice() {
            Some(Item::Context)
        } else if name == b"dir".as_slice() {
            Some(Item::Dir)
        } else if name == b"pte".as_slice() {
            Some(Item::Pte)
        } else if name == b"msi".as_slice() {
            Some(Item::Msi)
        } else if name == b"u64".as_slice() {
            Some(Item::Word)
        } else {
            None
        }
    }

    /// How many bytes it has, where contexts have this format: 8, 16, 32 or 64.
    pub fn size(self, format: ContextFormat) -> u64
        ensures { result ≡ 8 * words_in format self }
    {
        match (self, format) {
            (Item::Context, ContextFormat::Extended) => 64,
            (Item::Fault | Item::Context, _) => 32,
            (Item::Cmd | Item::Msi, _) => 16,
            (Item::Dir | Item::Pte | Item::Word, _) => 8,
        }
    }
}
