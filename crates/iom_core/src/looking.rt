//! What a request would do as the next access, with nothing changed.

ghost use Rattle.std.specs.Prelude.{◌≡◌, []};
ghost use Rattle.iom_core.specs.Access.{led_under};
ghost use Rattle.iom_core.specs.Looking.{nothing_seen, seen_in, uncached};
ghost use Rattle.iom_core.specs.State.{in_front_of};

use crate::access::{Request, by_context, lead};
use crate::board::Board;
use crate::caches::{Looking, Nothing};
use crate::platform::Platform;
use crate::way::Way;
use crate::witness::{Event, Source, Witness};
use iom_ddt::Context;
use iom_mem::Region;

/// The things that lead an access: its context and its page, each with its source, and its way.
#[derive(Clone, Copy)]
pub struct Lookup {
    /// The context that leads the device, with its source; it is here also if the access is denied under it. None if none does.
    pub context: Option<(Source, Context)>,
    /// The source of the page's hit; None if the stages of a context lead it to none.
    pub page: Option<Source>,
    /// The way that it is led.
    pub way: Way,
}

impl Lookup {
    /// Nothing yet.
    pub fn nothing() -> Lookup
        ensures { result ≡ nothing_seen }
    {
        Lookup {
            context: None,
            page: None,
            way: Way::Register,
        }
    }
}

impl Lookup {
    ghost use Rattle.iom_core.specs.Looking.{is_cached, is_context_read, is_page_read};

    /// Whether the access is led by the caches without a look at memory.
    pub fn is_cached(&self) -> bool
        ensures { result ≡ is_cached self.now }
    {
        match (self.context, self.page, self.way) {
            (Some((Source::Found, _)), _, Way::Context(_)) => true,
            (Some((Source::Found, _)), Some(Source::Found), _) => true,
            _ => false,
        }
    }

    /// Whether its context was read from the directory. An access that a device makes fills it.
    pub fn is_context_read(&self) -> bool
        ensures { result ≡ is_context_read self.now }
    {
        matches!(self.context, Some((Source::Read, _)))
    }

    /// Whether its page was read from the page tables. An access that a device makes fills it.
    pub fn is_page_read(&self) -> bool
        ensures { result ≡ is_page_read self.now }
    {
        matches!(self.page, Some(Source::Read))
    }
}

impl Witness for Lookup {
    ghost use Rattle.iom_core.specs.Looking.{noticed};

    ghost next = { noticed };

    #[inline(always)]
    fn notice(&mut self, event: Event) {
        match event {
            Event::Context(from, _, context) => self.context = Some((from, context)),
            Event::Page(from, _, _) => self.page = Some(from),
            Event::Way(way) => self.way = way,
        }
    }
}

impl Platform {
    /// What leads a request now, from the caches first and else from the tables, as a step leads it ("Process to translate an
    /// IOVA"). Nothing is cached, reported or changed. The IOVA may be any.
    pub fn lookup(&self, request: &Request) -> Lookup
        ensures seen { result ≡ seen_in self.now.machine request.now }
    {
        self.board.lookup(&self.ram, request)
    }

    /// The things that would lead a request now if nothing were cached.
    pub fn lookup_uncached(&self, request: &Request) -> Lookup
        ensures seen { result ≡ seen_in (uncached self.now.machine) request.now }
    {
        self.board.lookup_uncached(&self.ram, request)
    }

    /// The way of a request below this context of its device, as the tables lead it now.
    pub fn way_under(&self, request: &Request, context: &Context) -> Way
        ensures way { result ≡ (led_under self.now.machine.memory self.now.machine.registers.features [] request.now context.now).way }
    {
        self.board.way_under(&self.ram, request, context)
    }
}

impl Board {
    /// What leads a request in front of this memory now, from the caches first and else from the tables, as a step leads it ("Process
    /// to translate an IOVA"). Nothing is cached, reported or changed. The IOVA may be any.
    pub fn lookup<M: Region>(&self, ram: &M, request: &Request) -> Lookup
        ensures seen { result ≡ seen_in (in_front_of (M.memory ram.now) self.now.iommu) request.now }
    {
        let mut seen = Lookup::nothing();
        let iommu = &self.iommu;
        let mut looking = Looking(&iommu.lines);
        let _ = lead(ram, &iommu.registers, &mut looking, request, &mut seen);
        seen
    }

    /// The things that would lead a request in front of this memory now if nothing were cached.
    pub fn lookup_uncached<M: Region>(&self, ram: &M, request: &Request) -> Lookup
        ensures seen { result ≡ seen_in (uncached (in_front_of (M.memory ram.now) self.now.iommu)) request.now }
    {
        let mut seen = Lookup::nothing();
        let _ = lead(ram, &self.iommu.registers, &mut Nothing, request, &mut seen);
        seen
    }

    /// The way of a request below this context of its device, as the tables in this memory lead it now.
    pub fn way_under<M: Region>(&self, ram: &M, request: &Request, context: &Context) -> Way
        ensures way { result ≡ (led_under (M.memory ram.now) self.now.iommu.registers.features [] request.now context.now).way }
    {
        let mut seen = Lookup::nothing();
        let features = self.iommu.registers.features();
        let _ = by_context(ram, features, &mut Nothing, request, context, &mut seen);
        seen.way
    }
}
