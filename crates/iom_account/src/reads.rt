//! What an access read from the tables, and so fills.

ghost use Rattle.std.specs.Prelude.{◌≡◌, Some};
ghost use Rattle.iom_core.specs.Looking.{is_read};
ghost use Rattle.iom_account.specs.Reads.{nothing_read, reads_of};

use iom_core::{Event, Lookup, Source, Witness};

/// Whether an access read its context from the directory, and its page from the page tables.
#[derive(Clone, Copy)]
pub struct Reads {
    /// Whether it read its context.
    pub context: bool,
    /// Whether it read its page.
    pub page: bool,
}

impl Reads {
    /// Nothing yet.
    pub fn nothing() -> Reads
        ensures { result ≡ nothing_read }
    {
        Reads {
            context: false,
            page: false,
        }
    }

    /// What an access read that was seen.
    pub fn of(seen: &Lookup) -> Reads
        ensures { result ≡ reads_of seen.now }
    {
        Reads {
            context: seen.is_context_read(),
            page: seen.is_page_read(),
        }
    }
}

impl Witness for Reads {
    ghost use Rattle.iom_account.specs.Reads.{read_noticed};

    ghost next = { read_noticed };

    #[inline(always)]
    fn notice(&mut self, event: Event) {
        match event {
            Event::Context(from, _, _) => self.context = is_read(from),
            Event::Page(from, _, _) => self.page = is_read(from),
            Event::Way(_) => {}
        }
    }
}

// Whether it comes from the tables.
fn is_read(from: Source) -> bool
    ensures { result ≡ is_read (Some from) }
{
    matches!(from, Source::Read)
}
