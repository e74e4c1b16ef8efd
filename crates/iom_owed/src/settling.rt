//! Whether it makes a difference to a request what an IOMMU holds.

ghost use Rattle.std.specs.Prelude.{◌≡◌, ◌↔◌, ℕ, List, ◌∷◌, [], false, slice_get, IfNone, IfOk, IfSome, IsTrue};
ghost use Rattle.iom_choices.specs.Systems.{IsAmong};
ghost use Rattle.iom_core.specs.Looking.{by_tables};
ghost use Rattle.iom_core.specs.State.{State, in_front_of, state_on};
ghost use Rattle.iom_core.specs.declared.way.Way.{Way as Led};
ghost use Rattle.iom_every.specs.Rows.{bare};
ghost use Rattle.iom_held.specs.Kept.{entries_in};
ghost use Rattle.iom_owed.specs.Alike.{IsAlike};
ghost use Rattle.iom_owed.specs.Alone.{AreTold, IsTold, leads_over};
ghost use Rattle.iom_ways.specs.Ways.{AreAdded};
ghost use Rattle.iom_owed.specs.Holdings.{Keeps};
ghost use Rattle.iom_owed.specs.Newest.{steps_of};
ghost use Rattle.iom_owed.specs.Settled.{AreOwed, IsJudged, IsOwedAt, IsSettledNow, read_number, unfenced_number};

use crate::gathering::{gather, no_ways};
use crate::holdings::Holdings;
use crate::noting::Made;
use crate::serving::served_alone;
use iom_core::{Board, Request, Way};
use iom_held::{HeldEntries, Kept};
use iom_mem::Region;
use iom_ways::{Ways, goes_alike};
use std::alloc::{AllocError, Global};

/// A request that isn't settled: an IOMMU may take it elsewhere than the tables do. Or one that is, and that an IOMMU may take there by another way.
#[derive(Clone, Copy)]
pub struct Unsettled {
    /// A way by entries that may be held.
    pub elsewhere: Way,
    /// The way by the tables. Of a request that isn't settled it takes it to another address, or to another denial: with another cause or
    /// iotval2, or with a record where the other has none.
    pub tables: Way,
    /// An entry that alone leads it to `elsewhere`, wherever a look-up uses it and all else is read from memory, with the number of the newest
    /// step that could read it. If several entries lead it otherwise than the tables on their own, it is one with the smallest number. None if no
    /// single entry does.
    pub serving: Option<Kept>,
}

/// What is found of a request by what an IOMMU may hold.
#[derive(Clone, Copy)]
pub struct Judgement {
    /// How an IOMMU may take it elsewhere than the tables do; None if it is settled.
    pub unsettled: Option<Unsettled>,
    /// Of a request that is settled, another way than the tables' by which an IOMMU may take it there; None if each is the tables' way, and of a
    /// request that isn't settled.
    pub beside: Option<Unsettled>,
}

impl Unsettled {
    /// The number of the newest step that could read the entry that alone leads the request so; None if there is no such entry.
    pub fn read_in(&self) -> Option<u64>
        ensures { result ≡ read_number self.now.serving }
    {
        match &self.serving {
            Some(kept) => Some(kept.number),
            None => None,
        }
    }

    /// The number of the step whose command names that entry, if no fence came behind it; None if there is none.
    pub fn unfenced(&self) -> Option<u64>
        ensures { result ≡ unfenced_number self.now.serving }
    {
        match &self.serving {
            Some(kept) => kept.unfenced,
            None => None,
        }
    }
}

/// A request that was made and isn't settled now: an invalidation is owed.
#[derive(Clone, Copy)]
pub struct Owed {
    /// The request.
    pub made: Made,
    /// Where it may be led.
    pub unsettled: Unsettled,
}

impl Holdings {
    ghost use Rattle.iom_core.specs.declared.access.Request.{Request};
    ghost use Rattle.iom_core.specs.declared.step.Step.{Step};

    /// Whether a request is settled now: every IOMMU that took these steps takes it to the address, or to the denial, to which the tables in this
    /// memory take it. The fault is a refused allocation.
    pub fn is_settled<M: Region>(
        &self,
        board: &Board,
        ram: &M,
        request: &Request,
    ) -> Result<bool, AllocError>
        ensures { (ahead : List Request) (start : State) (taken : List (Step × ℕ)) → Keeps ahead self.now (state_on (M.memory ram.now) board.now) start taken →
            IfOk result (λ settled. IsTrue settled ↔ IsSettledNow ahead start (steps_of taken) request.now) }
    {
        let unsettled = self.unsettled(board, ram, request)?;
        Ok(unsettled.is_none())
    }

    /// A way by entries that may be held that takes a request elsewhere than the tables in this memory do, with the number of the entry that
    /// may still serve it, if one alone does; None if it is settled. The fault is a refused allocation.
    pub fn unsettled<M: Region>(
        &self,
        board: &Board,
        ram: &M,
        request: &Request,
    ) -> Result<Option<Unsettled>, AllocError>
        ensures { (ahead : List Request) (start : State) (taken : List (Step × ℕ)) → Keeps ahead self.now (state_on (M.memory ram.now) board.now) start taken →
            IfOk result (IsJudged ahead self.now start (steps_of taken) request.now) }
    {
        let mut ways = no_ways(*self.requests.allocator());
        self.unsettled_by(board, ram, request, &mut ways)
    }

    // As `unsettled`, in this room for its ways.
    fn unsettled_by<M: Region>(
        &self,
        board: &Board,
        ram: &M,
        request: &Request,
        ways: &mut Ways,
    ) -> Result<Option<Unsettled>, AllocError>
        ensures { (ahead : List Request) (start : State) (taken : List (Step × ℕ)) → Keeps ahead self.now (state_on (M.memory ram.now) board.now) start taken →
            IfOk result (IsJudged ahead self.now start (steps_of taken) request.now) }
    {
        let alloc = *self.requests.allocator();
        gather(ways, board, ram, &self.entries, request)?;
        otherwise(false, alloc, board, ram, &self.entries, &ways.led, request)
    }

    /// What is owed: the requests that were made and aren't settled now. The fault is a refused allocation.
    pub fn owed<M: Region>(&self, board: &Board, ram: &M) -> Result<Vec<Owed>, AllocError>
        ensures { (ahead : List Request) (start : State) (taken : List (Step × ℕ)) → Keeps ahead self.now (state_on (M.memory ram.now) board.now) start taken →
            IfOk result (λ owed. AreOwed ahead self.now start (steps_of taken) owed.items) }
    {
        let alloc = *self.requests.allocator();
        let mut ways = no_ways(alloc);
        let mut owed = Vec::new(alloc);
        for i in 0..self.request_count() {
            if let Some(each) = self.owed_at(board, ram, i, &mut ways)? {
                owed.push(each)?;
            }
        }
        Ok(owed)
    }

    // Whether the request of this place is owed, in this room for its ways.
    fn owed_at<M: Region>(
        &self,
        board: &Board,
        ram: &M,
        i: usize,
        ways: &mut Ways,
    ) -> Result<Option<Owed>, AllocError>
        ensures { (ahead : List Request) (start : State) (taken : List (Step × ℕ)) → Keeps ahead self.now (state_on (M.memory ram.now) board.now) start taken →
            IfOk result (IsOwedAt ahead self.now start (steps_of taken) (slice_get self.now.requests i)) }
    {
        let Some(made) = self.request(i) else {
            return Ok(None);
        };
        match self.unsettled_by(board, ram, &made.request, ways)? {
            Some(unsettled) => Ok(Some(Owed { made, unsettled })),
            None => Ok(None),
        }
    }
}

/// What is said of a request over these entries, whose ways lead so.
pub(crate) fn judge<M: Region>(
    alloc: Global,
    board: &Board,
    ram: &M,
    held: &HeldEntries,
    led: &[Way],
    request: &Request,
) -> Result<Judgement, AllocError>
    requires led { AreAdded (leads_over (bare (state_on (M.memory ram.now) board.now)) request.now (entries_in held.now)) [] led.now }
    ensures { IfOk result (AreTold (state_on (M.memory ram.now) board.now) held.now request.now) }
{
    let unsettled = otherwise(false, alloc, board, ram, held, led, request)?;
    if unsettled.is_some() {
        return Ok(Judgement {
            unsettled,
            beside: None,
        });
    }
    let beside = otherwise(true, alloc, board, ram, held, led, request)?;
    Ok(Judgement { unsettled, beside })
}

// One of these ways that takes a request elsewhere than the tables do, or if `whole`, that isn't the tables' way; None if each is alike.
fn otherwise<M: Region>(
    whole: bool,
    alloc: Global,
    board: &Board,
    ram: &M,
    held: &HeldEntries,
    led: &[Way],
    request: &Request,
) -> Result<Option<Unsettled>, AllocError>
    requires led { AreAdded (leads_over (bare (state_on (M.memory ram.now) board.now)) request.now (entries_in held.now)) [] led.now }
    ensures { IfOk result (IsTold whole (state_on (M.memory ram.now) board.now) held.now request.now) }
{
    if lead_alike(led) {
        return Ok(None);
    }
    let tables = way_by_tables(board, ram, request);
    let Some(elsewhere) = first_other(whole, led, &tables, request.iova) else {
        return Ok(None);
    };
    let alone = served_alone(whole, alloc, board, ram, held, request, &tables)?;
    Ok(Some(alone.unwrap_or(Unsettled {
        elsewhere,
        tables,
        serving: None,
    })))
}

// Whether these are one way alone.
fn lead_alike(led: &[Way]) -> bool
    ensures { IsTrue result → (way other : Led) → IsAmong led.now way → IsAmong led.now other → way ≡ other }
{
    led.len() == 1
}

// Where the tables lead a request.
fn way_by_tables<M: Region>(board: &Board, ram: &M, request: &Request) -> Way
    ensures { result ≡ by_tables (in_front_of (M.memory ram.now) board.now.iommu) request.now }
{
    board.lookup_uncached(ram, request).way
}

/// The first of these ways that isn't like this one; None if each is.
pub(crate) fn first_other(whole: bool, led: &[Way], tables: &Way, iova: u64) -> Option<Way>
    ensures found { IfSome result (λ way. IsAmong led.now way) }
    ensures differs { IfSome result (λ way. IsAlike whole iova way tables.now → ⊥) }
    ensures none { IfNone result ((way : Led) → IsAmong led.now way → IsAlike whole iova way tables.now) }
{
    for way in led {
        if !is_alike(whole, way, tables, iova) {
            return Some(*way);
        }
    }
    None
}

// Whether two ways take this IOVA to the same place; if `whole`, whether they are the same.
fn is_alike(whole: bool, way: &Way, other: &Way, iova: u64) -> bool
    ensures { IsTrue result ↔ IsAlike whole iova way.now other.now }
{
    if whole {
        way.is_same(other)
    } else {
        goes_alike(way, other, iova)
    }
}
