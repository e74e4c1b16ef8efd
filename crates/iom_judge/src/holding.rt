//! What can be held behind a step, and where its access may go.

ghost use Rattle.std.specs.Prelude.{◌≡◌, ◌∷◌, [], map, None, Some, IsTrue, OnErr, OnOk};
ghost use Rattle.iom_choices.specs.Systems.{IsAmong};
ghost use Rattle.iom_choices.specs.Trees.{reads_in, ways_of};
ghost use Rattle.iom_core.specs.Access.{address_on};
ghost use Rattle.iom_core.specs.Table.{request_of_step};
ghost use Rattle.iom_core.specs.declared.way.Way.{Way as Led};
ghost use Rattle.iom_core.specs.Rows.{bare};
ghost use Rattle.iom_every.specs.Trees.{tree_of};
ghost use Rattle.iom_held.specs.Kept.{entries_in};
ghost use Rattle.iom_judge.specs.Behind.{IsHeldBehind, reads_over};
ghost use Rattle.iom_judge.specs.Candidates.{goes_over};
ghost use Rattle.iom_ways.specs.Ways.{AreAdded};

use crate::putting::{Room, put_in};
use iom_bits::Cause;
use iom_core::{Denial, Platform, Request, Step, Way};
use iom_ddt::Context;
use iom_held::HeldEntries;
use iom_owed::{executed, gather};
use iom_ways::Ways;
use std::alloc::{AllocError, Global};

/// Where the access of a step may go over what is held, and the ways that lead there. It is kept from step to step, so that its lists grow once.
#[derive(Drop)]
pub(crate) struct Reach {
    /// The places, each once; None: the step makes no access.
    pub(crate) places: Vec<Option<Result<u64, Denial>>>,
    /// The ways, with what they read.
    pub(crate) ways: Ways,
    /// Room for what they read.
    pub(crate) room: Room,
}

impl Reach {
    /// Of no step yet. It takes no memory.
    pub(crate) fn new(alloc: Global) -> Reach {
        let _: Option<Result<Context, Cause>> = None;
        Reach {
            places: Vec::new(alloc),
            ways: Ways {
                led: Vec::new(alloc),
                reads: Vec::new(alloc),
            },
            room: Room::new(alloc),
        }
    }
}

/// Gathers where the access of a step may go, in place of what was there. The fault is a refused allocation.
pub(crate) fn find_reach(
    reach: &mut Reach,
    platform: &Platform,
    held: &HeldEntries,
    step: &Step,
) -> Result<(), AllocError>
    ensures goes { OnOk result (AreAdded (goes_over (bare platform.now) (entries_in held.now) (request_of_step platform.now step.now)) [] reach.new.places.items) }
    ensures reads { OnOk result (AreAdded (reads_over platform.now (entries_in held.now) step.now) [] reach.new.ways.reads.items) }
{
    match platform.board.request_of(&platform.ram, step) {
        Some(request) => reach_of(reach, platform, held, &request),
        None => reach_nowhere(reach),
    }
}

// Where this request may go.
fn reach_of(
    reach: &mut Reach,
    platform: &Platform,
    held: &HeldEntries,
    request: &Request,
) -> Result<(), AllocError>
    ensures goes { OnOk result (AreAdded (goes_over (bare platform.now) (entries_in held.now) (Some request.now)) [] reach.new.places.items) }
    ensures reads { OnOk result (AreAdded (reads_in (ways_of tree_of (bare platform.now) (entries_in held.now) (Some request.now))) [] reach.new.ways.reads.items) }
{
    let _: Option<Result<Context, Cause>> = None;
    gather(
        &mut reach.ways,
        &platform.board,
        &platform.ram,
        held,
        request,
    )?;
    reach.places.clear();
    put_places(&mut reach.places, &reach.ways.led, request.iova)?;
    Ok(())
}

// No access.
fn reach_nowhere(reach: &mut Reach) -> Result<(), AllocError>
    ensures goes { OnOk result (reach.new.places.items ≡ None ∷ []) }
    ensures reads { OnOk result (reach.new.ways.reads.items ≡ []) }
{
    let _: Option<Result<Context, Cause>> = None;
    reach.ways.led.clear();
    reach.ways.reads.clear();
    reach.places.clear();
    reach.places.push(None)?;
    Ok(())
}

/// Puts in what a step reads by these ways, and follows its command. The fault is a refused allocation, and then nothing has changed.
pub(crate) fn hold(
    held: &mut HeldEntries,
    room: &mut Room,
    platform: &Platform,
    step: &Step,
    ways: &Ways,
) -> Result<(), AllocError>
    requires { AreAdded (reads_over platform.now (entries_in held.old) step.now) [] ways.now.reads.items }
    ensures holds { OnOk result (IsHeldBehind platform.now step.now held.old held.new) }
    ensures unchanged { OnErr result (held.new ≡ held.old) }
{
    let _: Option<Result<Context, Cause>> = None;
    put_in(held, room, platform, step, ways)?;
    held.follow(executed(&platform.board, &platform.ram, step), 0);
    Ok(())
}

// Puts in the place to which each way leads, each once.
fn put_places(
    places: &mut Vec<Option<Result<u64, Denial>>>,
    led: &[Way],
    iova: u64,
) -> Result<(), AllocError>
    ensures { OnOk result (AreAdded (map (λ (way : Led). Some (address_on way iova)) led.now) places.old.items places.new.items) }
{
    for way in led {
        put_place(places, Some(way.address(iova)))?;
    }
    Ok(())
}

// Puts a place in, unless it is there.
fn put_place(
    places: &mut Vec<Option<Result<u64, Denial>>>,
    place: Option<Result<u64, Denial>>,
) -> Result<(), AllocError>
    ensures { OnOk result (AreAdded (place ∷ []) places.old.items places.new.items) }
{
    if !has_place(places, &place) {
        places.push(place)?;
    }
    Ok(())
}

fn has_place(places: &[Option<Result<u64, Denial>>], place: &Option<Result<u64, Denial>>) -> bool
    ensures { IsTrue result → IsAmong places.now place.now }
{
    for own in places {
        if is_place(own, place) {
            return true;
        }
    }
    false
}

fn is_place(one: &Option<Result<u64, Denial>>, other: &Option<Result<u64, Denial>>) -> bool
    ensures { IsTrue result → (one.now ≡ other.now) }
{
    one == other
}
