//! The ways of a request.

ghost use Rattle.std.specs.Prelude.{◌≡◌, ◌↔◌, ◌≤◌, [], None, Some, OnOk, IfSome, IsTrue, false};
ghost use Rattle.iom_regs.specs.Views.{mode_of};
ghost use Rattle.iom_ddt.specs.Directory.{levels_of};
ghost use Rattle.iom_ddt.specs.Formats.{context_format};
ghost use Rattle.iom_choices.specs.Trees.{ways_over};
ghost use Rattle.iom_core.specs.Access.{machine_of};
ghost use Rattle.iom_core.specs.State.{State};
ghost use Rattle.iom_every.specs.Trees.{entered_tree, looking, tree_of};
ghost use Rattle.iom_every.specs.Uses.{ForDevice, IsEntrance, device_use};
ghost use Rattle.iom_every.specs.Ways.{located_by};
ghost use Rattle.iom_held.specs.Kept.{entries_in};
ghost use Rattle.iom_held.specs.declared.kept.Kept.{Kept};
ghost use Rattle.iom_ways.specs.Asked.{Collects, Explores, is_asked};
ghost use Rattle.iom_ways.specs.Branches.{directory_tree, each_use, own_ways, under_tree};
ghost use Rattle.iom_ways.specs.Ways.{Gathers, Has};

use crate::adding::put_entries;
use crate::asked::Asked;
use crate::exploring::{Explored, followed, put_way};
use crate::under::{Under, put_translated};
use iom_bits::{Cause, Features};
use iom_core::{Denial, Request, Way};
use iom_ddt::{Context, ContextFormat, is_too_wide};
use iom_every::{Entered, Entry, depth_of, device_use, directory_reads, located_by};
use iom_held::{HeldEntries, Kept};
use iom_mem::Region;
use iom_regs::{Mode, Regs};
use std::alloc::{AllocError, Global};
use std::mem::replace;

/// Where ways lead, and what they read in memory.
#[derive(Drop)]
pub struct Ways {
    /// Where they lead, each result once.
    pub led: Vec<Way>,
    /// The entries that they read, as they may be kept; one may stand here more than once.
    pub reads: Vec<Entry>,
}

// What all ways of a request share.
#[derive(Clone, Copy)]
struct Asking<'a, M: Region> {
    ram: &'a M,
    registers: &'a Regs,
    held: &'a HeldEntries,
    request: &'a Request,
    // Whether entries are only asked for.
    asks: bool,
}

/// Puts in the ways of a request, of a device id of 24 bits, that the entries in `held` allow: at each look-up of its walk memory answers, or
/// an entry that fits ("Caching in-memory data structures"). A result that is there already isn't put in again.
///
/// Where an entry gives a walk what memory gives it, that use isn't followed on its own: it leads nowhere else, and its reads are put in. An
/// entry of a stage that memory's own path has now isn't followed at all. The fault is a refused allocation; then some of the ways are put
/// in, and nothing else has changed.
pub fn put_ways<M: Region>(
    out: &mut Ways,
    ram: &M,
    registers: &Regs,
    held: &HeldEntries,
    request: &Request,
) -> Result<(), AllocError>
    ensures { (state : State) → state.machine.memory ≡ M.memory ram.now → state.machine.registers ≡ registers.now →
        OnOk result (Gathers (ways_over (entries_in held.now) (tree_of state request.now)) out.old out.new) }
{
    let alloc = *out.led.allocator();
    let asking = Asking {
        ram,
        registers,
        held,
        request,
        asks: false,
    };
    let mut explored = Explored {
        ways: replace(out, no_ways(alloc)),
        asked: Vec::new(alloc),
    };
    let done = explore(&mut explored, &asking);
    *out = explored.ways;
    done
}

/// Puts in the held entries that a look-up of the walk of a request, of a device id of 24 bits, may use if memory answers all others. Another
/// entry leads the request nowhere else on its own. One may be put in more than once. The fault is a refused allocation.
pub fn put_asked<M: Region>(
    out: &mut Vec<Kept>,
    ram: &M,
    registers: &Regs,
    held: &HeldEntries,
    request: &Request,
) -> Result<(), AllocError>
    ensures { (state : State) → state.machine.memory ≡ M.memory ram.now → state.machine.registers ≡ registers.now →
        OnOk result (Collects held.now (is_asked (tree_of state request.now)) out.old.items out.new.items) }
{
    let alloc = *out.allocator();
    let asking = Asking {
        ram,
        registers,
        held,
        request,
        asks: true,
    };
    let mut explored = Explored {
        ways: no_ways(alloc),
        asked: replace(out, Vec::new(alloc)),
    };
    let done = explore(&mut explored, &asking);
    *out = explored.asked;
    done
}

fn no_ways(alloc: Global) -> Ways {
    Ways {
        led: Vec::new(alloc),
        reads: Vec::new(alloc),
    }
}

// Explores the ways of a request.
fn explore<M: Region>(out: &mut Explored, asking: &Asking<'_, M>) -> Result<(), AllocError>
    ensures { (state : State) → state.machine.memory ≡ M.memory asking.now.ram.now → state.machine.registers ≡ asking.now.registers.now →
        OnOk result (Explores asking.now.asks asking.now.held.now (tree_of state asking.now.request.now) out.old out.new) }
{
    match asking.registers.mode() {
        Mode::Off => put_way(out, Way::Denied(Denial::plain(Cause::Off)), &[]),
        Mode::Bare => put_way(out, Way::Register, &[]),
        Mode::Levels(_) => put_directory(out, asking),
    }
}

// Explores the ways under a directory.
fn put_directory<M: Region>(out: &mut Explored, asking: &Asking<'_, M>) -> Result<(), AllocError>
    requires directory { 1 ≤ levels_of (mode_of asking.now.registers.now) }
    ensures { OnOk result (Explores asking.now.asks asking.now.held.now
        (directory_tree (machine_of (M.memory asking.now.ram.now) asking.now.registers.now [] []) asking.now.request.now) out.old out.new) }
{
    let did = asking.request.did;
    if is_too_wide(asking.registers, did) {
        let found = located_by(asking.ram, asking.registers, did, None);
        put_entered(out, asking, &None, &found)
    } else {
        put_devices(out, asking)
    }
}

// Explores the ways under a directory for which the device id isn't too wide: from the root, and from each entry that is held for the device.
fn put_devices<M: Region>(out: &mut Explored, asking: &Asking<'_, M>) -> Result<(), AllocError>
    requires directory { 1 ≤ levels_of (mode_of asking.now.registers.now) }
    ensures { OnOk result (Explores asking.now.asks asking.now.held.now
        (looking ForDevice (device_use (context_format asking.now.registers.now.features) (levels_of (mode_of asking.now.registers.now)) asking.now.request.now.did)
        (entered_tree (machine_of (M.memory asking.now.ram.now) asking.now.registers.now [] []) asking.now.request.now)) out.old out.new) }
{
    let did = asking.request.did;
    let plain = located_by(asking.ram, asking.registers, did, None);
    put_entered(out, asking, &None, &plain)?;
    let format = ContextFormat::of(asking.registers.features());
    let depth = depth_of(asking.registers);
    let look = Asked::Device { format, depth, did };
    let Some(used) = followed(out, asking.asks, asking.held, &look)? else {
        return Ok(());
    };
    put_each(out, asking, &used, &plain)
}

// Puts in the ways by a search that begins at each of these entries that fits. The ways from the root, whose search ends as `plain`, are there.
fn put_each<M: Region>(
    out: &mut Explored,
    asking: &Asking<'_, M>,
    used: &[Kept],
    plain: &Result<Context, Cause>,
) -> Result<(), AllocError>
    requires follows { asking.now.asks ≡ false }
    requires directory { 1 ≤ levels_of (mode_of asking.now.registers.now) }
    requires plain { plain.now ≡ located_by (machine_of (M.memory asking.now.ram.now) asking.now.registers.now [] []) asking.now.request.now.did None }
    requires there { Has (ways_over (entries_in asking.now.held.now)
        (entered_tree (machine_of (M.memory asking.now.ram.now) asking.now.registers.now [] []) asking.now.request.now None)) out.old.ways }
    ensures { OnOk result (Gathers (each_use (λ (kept : Kept). device_use (context_format asking.now.registers.now.features) (levels_of (mode_of asking.now.registers.now)) asking.now.request.now.did ForDevice kept.entry)
        (own_ways (entries_in asking.now.held.now) (entered_tree (machine_of (M.memory asking.now.ram.now) asking.now.registers.now [] []) asking.now.request.now)) used.now)
        out.old.ways out.new.ways) }
{
    let format = ContextFormat::of(asking.registers.features());
    let depth = depth_of(asking.registers);
    for kept in used.iter() {
        let Some(at) = device_use(format, depth, asking.request.did, &kept.entry) else {
            continue;
        };
        put_other(out, asking, &at, plain)?;
    }
    Ok(())
}

// Puts in the ways by a search that begins at this entry, besides those from the root, which leads so: if both lead alike, what is read.
fn put_other<M: Region>(
    out: &mut Explored,
    asking: &Asking<'_, M>,
    at: &Entered,
    plain: &Result<Context, Cause>,
) -> Result<(), AllocError>
    requires follows { asking.now.asks ≡ false }
    requires directory { 1 ≤ levels_of (mode_of asking.now.registers.now) }
    requires entrance { IsEntrance at.now }
    requires plain { plain.now ≡ located_by (machine_of (M.memory asking.now.ram.now) asking.now.registers.now [] []) asking.now.request.now.did None }
    requires there { Has (ways_over (entries_in asking.now.held.now)
        (entered_tree (machine_of (M.memory asking.now.ram.now) asking.now.registers.now [] []) asking.now.request.now None)) out.old.ways }
    ensures { OnOk result (Explores asking.now.asks asking.now.held.now
        (entered_tree (machine_of (M.memory asking.now.ram.now) asking.now.registers.now [] []) asking.now.request.now (Some at.now)) out.old out.new) }
{
    let (ram, registers, did) = (asking.ram, asking.registers, asking.request.did);
    let found = located_by(ram, registers, did, Some(*at));
    if is_same_found(&found, plain) {
        let located = directory_reads(ram, registers, did, Some(*at));
        put_entries(&mut out.ways.reads, &located)?;
        Ok(())
    } else {
        put_entered(out, asking, &Some(*at), &found)
    }
}

// Whether two searches of the directory end alike.
fn is_same_found(found: &Result<Context, Cause>, other: &Result<Context, Cause>) -> bool
    ensures { IsTrue result ↔ (found.now ≡ other.now) }
{
    match (found, other) {
        (Ok(context), Ok(other)) => context.is_same(other),
        (Err(why), Err(other)) => why == other,
        _ => false,
    }
}

// Explores the ways by what a search of the directory finds, if it begins at this entry or at the root.
fn put_entered<'a, M: Region>(
    out: &mut Explored,
    asking: &Asking<'a, M>,
    at: &Option<Entered>,
    found: &Result<Context, Cause>,
) -> Result<(), AllocError>
    requires directory { 1 ≤ levels_of (mode_of asking.now.registers.now) }
    requires entrance { IfSome at.now IsEntrance }
    requires found { found.now ≡ located_by (machine_of (M.memory asking.now.ram.now) asking.now.registers.now [] []) asking.now.request.now.did at.now }
    ensures { OnOk result (Explores asking.now.asks asking.now.held.now
        (entered_tree (machine_of (M.memory asking.now.ram.now) asking.now.registers.now [] []) asking.now.request.now at.now) out.old out.new) }
{
    let located = directory_reads(asking.ram, asking.registers, asking.request.did, *at);
    match found {
        Ok(context) => {
            let under = Under {
                ram: asking.ram,
                features: asking.registers.features(),
                held: asking.held,
                request: *asking.request,
                asks: asking.asks,
                context: *context,
                located: &located,
            };
            put_under(out, &under)
        }
        Err(why) => { put_way(out, Way::Denied(Denial::plain(*why)), &located) }
    }
}

// Explores the ways by a context.
fn put_under<M: Region>(out: &mut Explored, under: &Under<'_, M>) -> Result<(), AllocError>
    ensures { OnOk result (Explores under.now.asks under.now.held.now
        (under_tree (M.memory under.now.ram.now) under.now.features under.now.request under.now.context under.now.located.now)
        out.old out.new) }
{
    if under.context.is_bare() {
        put_way(out, Way::Context(under.context), under.located)
    } else {
        put_translated(out, under)
    }
}
