//! The parts of a walk.

ghost use Rattle.std.specs.Prelude.{◌≡◌, ◌++◌, ◌+◌, ◌<◌, ◌≤◌, ◌-◌, ◌*◌, [], ◌∷◌, map, flat_map, slice_get, All, Any, IfOk, None, Ok, Result, Some, ◌≢◌};
ghost use Rattle.arrayvec.specs.ArrayVec.{array_vec_len};
ghost use Rattle.iom_regs.specs.Views.{mode_of};
ghost use Rattle.iom_ddt.specs.Directory.{levels_of, located, path_of};
ghost use Rattle.iom_ddt.specs.Formats.{context_format};
ghost use Rattle.iom_bits.specs.declared.causes.Kind.TheVariants.{Read};
ghost use Rattle.iom_nested.specs.Faults.{Failure};
ghost use Rattle.iom_nested.specs.Files.{is_of_file};
ghost use Rattle.iom_nested.specs.Nested.{first_stage, told_of};
ghost use Rattle.iom_nested.specs.declared.translation.Reached.{Reached};
ghost use Rattle.iom_nested.specs.Stages.{first_shape_of};
ghost use Rattle.iom_tables.specs.Parts.{access_parts, directory_parts, entry_parts, file_part, first_parts, parts_by, parts_of, parts_under, reached_parts, read_at, second_parts, stage_parts};
ghost use Rattle.iom_tables.specs.Bounds.{PartFits, directory_levels, most_levels, most_parts, physical_end};
ghost use Rattle.iom_tables.specs.Fetches.{IsRead};
ghost use Rattle.iom_tables.specs.Passing.{IsGranted, Passes, Refuses};
ghost use Rattle.iom_tables.specs.declared.part.Part.TheVariants as part;
ghost use Rattle.iom_core.specs.Access.{led_under};
ghost use Rattle.iom_core.specs.Looking.{by_tables};

use crate::part::DEVICE_ID_END;
use crate::{Part, Way, Wide};
use arrayvec::ArrayVec;
use iom_bits::{Features, Kind};
use iom_core::{Platform, Request};
use iom_ddt::{Context, is_too_wide, locate};
use iom_mem::Ram;
use iom_nested::{
    Fault, Physical, Reached, file_place, file_word, first_shape, first_stage_listed, is_of_file,
    second_shape,
};
use iom_regs::Mode;
use iom_walk::{Format, Outcome, PathEntries, walk_listed};

/// The parts of a walk, in order: at most ddtp, three of the directory, five entries of the first stage and six times five of the
/// second, and the end.
pub type Parts = ArrayVec<Part, 40>;

/// Replaces the contents of a list by the parts of a request's walk if nothing is cached, in order ("Process to translate an IOVA").
///
/// ddtp comes first, then the directory down to the device's context, then the first stage: before each of its entries those of the second
/// stage that translate the entry's place, for a read. The second stage for the access itself is next, for the access's kind, or in its
/// place the entry of an interrupt file, and the end is the way that the request is led. A device id that is too wide stands in place of the directory, and an address that breaks the width
/// rule of a stage in place of its entries. If the request is granted no part refuses it; if it is denied one does. Each PPN in a part is
/// below 2^44, each address of an entry below 2^56, and each device id below 2^24. Any request has parts. No memory is taken.
#[tactic(auto, unfolding(crate::specs::Parts::parts_of))]
pub fn put_parts(out: &mut Parts, platform: &Platform, request: &Request)
    ensures parts { out.new.items ≡ parts_of platform.now.machine request.now }
    ensures read { All (IsRead (context_format platform.now.machine.registers.features) platform.now.machine.memory) out.new.items }
    ensures passed { IsGranted (by_tables platform.now.machine request.now) → All (Passes platform.now.machine.registers.features) out.new.items }
    ensures refused { (IsGranted (by_tables platform.now.machine request.now) → ⊥) →
        Any (Refuses platform.now.machine request.now) out.new.items }
    ensures end { slice_get out.new.items (array_vec_len out.new - 1) ≡ Some (part.End (by_tables platform.now.machine request.now)) }
    ensures some { 2 ≤ array_vec_len out.new }
    ensures most { array_vec_len out.new ≤ most_parts }
    ensures fits { All PartFits out.new.items }
{
    let registers = platform.registers();
    let mode = registers.mode();
    let root = registers.root();
    out.clear();
    out.push(Part::Ddtp { mode, root });
    push_walk(out, platform, request);
    out.push(Part::End(platform.lookup_uncached(request).way));
}

/// Replaces the contents of a list by the parts of a request's walk under this context of its device, which a cache has, if no page is
/// cached, in order: both stages, by the tables as they are now, and the way that they lead the request.
#[tactic(auto, unfolding(crate::specs::Parts::parts_under))]
pub fn put_parts_under(out: &mut Parts, platform: &Platform, request: &Request, context: &Context)
    ensures parts { out.new.items ≡ parts_under platform.now.machine.memory platform.now.machine.registers.features request.now context.now }
    ensures read { All (IsRead (context_format platform.now.machine.registers.features) platform.now.machine.memory) out.new.items }
    ensures passed { IsGranted (led_under platform.now.machine.memory platform.now.machine.registers.features [] request.now context.now).way → All (Passes platform.now.machine.registers.features) out.new.items }
    ensures fits { All PartFits out.new.items }
{
    out.clear();
    push_stages(out, platform, request, context);
    out.push(Part::End(platform.way_under(request, context)));
}

// A function that pushes a part names `Way`, which a part has: what is proved of a list of parts rests on the modules of the types that
// the function names.

// What is behind ddtp, where its mode has a directory.
fn push_walk(out: &mut Parts, platform: &Platform, request: &Request)
    requires room { array_vec_len out.old + directory_levels + 7 * most_levels ≤ most_parts }
    ensures items { out.new.items ≡ out.old.items
        ++ parts_by (mode_of platform.now.machine.registers) platform.now.machine request.now }
    ensures len { array_vec_len out.new ≤ array_vec_len out.old + directory_levels + 7 * most_levels }
    ensures fits { All PartFits (parts_by (mode_of platform.now.machine.registers) platform.now.machine request.now) }
{
    if let Mode::Levels(_) = platform.registers().mode() {
        push_directory(out, platform, request.did);
        push_located(out, platform, request);
    }
}

// The items of the directory, or a device id that is too wide for it.
fn push_directory(out: &mut Parts, platform: &Platform, did: u32)
    requires directory { 1 ≤ levels_of (mode_of platform.now.machine.registers) }
    requires room { array_vec_len out.old + directory_levels ≤ most_parts }
    ensures items { out.new.items ≡ out.old.items ++ directory_parts platform.now.machine did }
    ensures len { array_vec_len out.new ≤ array_vec_len out.old + directory_levels }
{
    let _: Option<Way> = None;
    if is_too_wide(platform.registers(), did) {
        out.push(Part::Wide(Wide::Directory {
            did: did % DEVICE_ID_END,
        }));
    } else {
        push_items(out, platform, did);
    }
}

// The items of the directory.
fn push_items(out: &mut Parts, platform: &Platform, did: u32)
    requires directory { 1 ≤ levels_of (mode_of platform.now.machine.registers) }
    requires room { array_vec_len out.old + directory_levels ≤ most_parts }
    ensures items { out.new.items ≡ out.old.items ++ map part.Directory (path_of platform.now.machine.memory platform.now.machine.registers did) }
    ensures len { array_vec_len out.new ≤ array_vec_len out.old + directory_levels }
{
    let _: Option<Way> = None;
    let path = iom_ddt::path(platform.ram(), platform.registers(), did);
    for met in path.iter() {
        out.push(Part::Directory(*met));
    }
}

// Both stages of the context that the directory has for the request.
fn push_located(out: &mut Parts, platform: &Platform, request: &Request)
    requires directory { 1 ≤ levels_of (mode_of platform.now.machine.registers) }
    requires room { array_vec_len out.old + 7 * most_levels ≤ most_parts }
    ensures items { out.new.items ≡ out.old.items ++ stage_parts platform.now.machine.memory platform.now.machine.registers.features request.now.iova request.now.kind
        (located platform.now.machine.memory platform.now.machine.registers request.now.did) }
    ensures len { array_vec_len out.new ≤ array_vec_len out.old + 7 * most_levels }
    ensures fits { All PartFits (stage_parts platform.now.machine.memory platform.now.machine.registers.features request.now.iova request.now.kind
        (located platform.now.machine.memory platform.now.machine.registers request.now.did)) }
{
    if let Ok(context) = &locate(platform.ram(), platform.registers(), request.did) {
        push_stages(out, platform, request, context);
    }
}

// Both stages of a context.
fn push_stages(out: &mut Parts, platform: &Platform, request: &Request, context: &Context)
    requires room { array_vec_len out.old + 7 * most_levels ≤ most_parts }
    ensures items { out.new.items ≡ out.old.items
        ++ stage_parts platform.now.machine.memory platform.now.machine.registers.features request.now.iova request.now.kind (Ok context.now) }
    ensures len { array_vec_len out.new ≤ array_vec_len out.old + 7 * most_levels }
    ensures fits { All PartFits (stage_parts platform.now.machine.memory platform.now.machine.registers.features request.now.iova request.now.kind (Ok context.now)) }
{
    let _ = &context.fields;
    let (ram, features) = (platform.ram(), platform.registers().features());
    let reached = push_first(out, ram, features, context, request.iova, request.kind);
    push_access(out, ram, features, context, reached, request.kind);
}

// The first stage, entry by entry, or an IOVA that is too wide for it, and where it leads.
#[tactic(auto, unfolding(crate::specs::Parts::first_parts))]
fn push_first(
    out: &mut Parts,
    ram: &Ram,
    features: Features,
    context: &Context,
    iova: u64,
    kind: Kind,
) -> Result<Reached, Fault>
    requires room { array_vec_len out.old + 6 * most_levels ≤ most_parts }
    ensures items { out.new.items ≡ out.old.items ++ first_parts ram.now features context.now iova kind }
    ensures len { array_vec_len out.new ≤ array_vec_len out.old + 6 * most_levels }
    ensures reached { result
        ≡ told_of kind (first_stage ram.now features context.now iova kind (first_shape_of context.now)) }
    ensures fits { IfOk result
        (λ reached. (first_shape_of context.now ≢ None → reached.addr < physical_end) × (reached.level < most_levels)) }
{
    let _: Option<Way> = None;
    let mut entries = PathEntries::new();
    let reached = first_stage_listed(&mut entries, ram, features, context, iova, kind);
    match first_shape(context) {
        None => {}
        Some(shape) if shape.covers(iova) => push_entries(out, ram, features, context, &entries),
        Some(_) => out.push(Part::Wide(Wide::First { iova })),
    }
    reached
}

// Entries of the first stage, each behind those of the second.
fn push_entries(
    out: &mut Parts,
    ram: &Ram,
    features: Features,
    context: &Context,
    entries: &PathEntries,
)
    requires few { array_vec_len entries.now ≤ most_levels }
    requires room { array_vec_len out.old + 6 * most_levels ≤ most_parts }
    ensures items { out.new.items ≡ out.old.items ++ flat_map (entry_parts ram.now features context.now) entries.now.items }
    ensures len { array_vec_len out.new ≤ array_vec_len out.old + 6 * most_levels }
{
    let _: Option<Way> = None;
    for entry in entries.iter() {
        let addr = push_second(out, ram, features, context, entry.place, Kind::Read);
        let entry = *entry;
        out.push(Part::First { entry, addr });
    }
}

// The access itself, where the first stage leads its IOVA.
fn push_access(
    out: &mut Parts,
    ram: &Ram,
    features: Features,
    context: &Context,
    reached: Result<Reached, Fault>,
    kind: Kind,
)
    requires room { array_vec_len out.old + most_levels ≤ most_parts }
    ensures items { (found : Result Reached Failure) → reached ≡ told_of kind found →
        out.new.items ≡ out.old.items ++ access_parts ram.now features context.now kind found }
    ensures len { array_vec_len out.new ≤ array_vec_len out.old + most_levels }
{
    let _: Option<Way> = None;
    if let Ok(reached) = reached {
        push_reached(out, ram, features, context, reached.addr, kind);
    }
}

// The entry of the interrupt file at an address that the first stage reached, or else the second stage from that address on.
fn push_reached(
    out: &mut Parts,
    ram: &Ram,
    features: Features,
    context: &Context,
    guest: u64,
    kind: Kind,
)
    requires room { array_vec_len out.old + most_levels ≤ most_parts }
    ensures items { out.new.items
        ≡ out.old.items ++ reached_parts ram.now features context.now kind (is_of_file context.now.msi guest) guest }
    ensures len { array_vec_len out.new ≤ array_vec_len out.old + most_levels }
{
    let _: Option<Way> = None;
    if is_of_file(context, guest) {
        push_file(out, ram, context, guest);
    } else {
        let _addr = push_second(out, ram, features, context, guest, kind);
    }
}

// The entry of the interrupt file at an address.
fn push_file(out: &mut Parts, ram: &Ram, context: &Context, guest: u64)
    requires room { array_vec_len out.old + 1 ≤ most_parts }
    ensures items { out.new.items ≡ out.old.items ++ file_part ram.now context.now.msi guest ∷ [] }
    ensures len { array_vec_len out.new ≤ array_vec_len out.old + 1 }
{
    let _: Option<Way> = None;
    let place = file_place(context, guest);
    let word = file_word(ram, place);
    out.push(Part::File { guest, place, word });
}

// The second stage from a guest-physical address on, entry by entry, or that address where it is too wide for it; and where it leads.
#[tactic(auto, unfolding(crate::specs::Parts::second_parts, crate::specs::Parts::read_at, iom_walk::specs::Outcome::outcome_of))]
fn push_second(
    out: &mut Parts,
    ram: &Ram,
    features: Features,
    context: &Context,
    guest: u64,
    kind: Kind,
) -> Option<u64>
    requires room { array_vec_len out.old + most_levels ≤ most_parts }
    ensures items { out.new.items ≡ out.old.items ++ second_parts ram.now features context.now kind guest }
    ensures len { array_vec_len out.new ≤ array_vec_len out.old + most_levels }
    ensures addr { kind ≡ Read → result ≡ read_at ram.now features context.now guest }
{
    let _: Option<Way> = None;
    let Some(shape) = second_shape(context) else {
        return Some(guest);
    };
    if !shape.covers(guest) {
        out.push(Part::Wide(Wide::Second { guest }));
        return None;
    }
    let mut entries = PathEntries::new();
    let outcome = walk_listed(
        &mut entries,
        &Physical { ram },
        Format::of_user(shape, features),
        context.fields.gppn,
        guest,
        kind,
    );
    push_path(out, &entries, guest);
    match outcome {
        Outcome::Leaf(leaf) => Some(leaf.frame * 4096 + guest % 4096),
        Outcome::Outside | Outcome::Guest(_) | Outcome::Fault => None,
    }
}

// Entries of the second stage, from a guest-physical address on.
fn push_path(out: &mut Parts, entries: &PathEntries, guest: u64)
    requires few { array_vec_len entries.now ≤ most_levels }
    requires room { array_vec_len out.old + most_levels ≤ most_parts }
    ensures items { out.new.items ≡ out.old.items ++ map (part.Second guest) entries.now.items }
    ensures len { array_vec_len out.new ≤ array_vec_len out.old + array_vec_len entries.now }
{
    let _: Option<Way> = None;
    for met in entries.iter() {
        out.push(Part::Second { guest, entry: *met });
    }
}
