ghost use Rattle.std.specs.Prelude.{◌≡◌, ◌≢◌, ◌<◌, ◌≤◌, ◌^◌, [], false, None, IfOk};
ghost use Rattle.arrayvec.specs.ArrayVec.{array_vec_len};
ghost use Rattle.iom_ddt.specs.Contexts.{is_bare};
ghost use Rattle.iom_nested.specs.Stages.{first_shape_of, second_shape_of};
ghost use Rattle.iom_nested.specs.Files.{file_stage, is_of_file};
ghost use Rattle.iom_nested.specs.Faults.{fault_of, EntryOutside};
ghost use Rattle.iom_nested.specs.Nested.{LeafReaches, access_stage, first_path, first_stage, hit_by, reached_by, second_stage, told_of, translation};
ghost use Rattle.iom_nested.specs.Pages.{OneHitAPage};

use crate::files::{file_place, file_word, hit_by_file, is_of_file};
use crate::physical::Physical;
use crate::second::{Second, second_shape};
use iom_bits::{Cause, Features, Kind};
use iom_ddt::Context;
use iom_mem::Region;
use iom_walk::{Format, Outcome, PathEntries, Shape, walk, walk_listed};
use std::marker::Model;

/// Where a page of IOVAs leads: what an entry of the translation cache, the IOTLB, says.
#[derive(Clone, Copy, PartialEq)]
pub struct Hit {
    /// The PPN of the page's frame: its physical address divided by 4096. 44 bits, but 52 where both stages are Bare, and the frame is the
    /// IOVA's own page.
    pub frame: u64,
    /// The level of the first stage's leaf, 0 to 4; 0 if that stage is Bare.
    pub level: u8,
    /// Whether the first stage's mapping is global; false if that stage is Bare.
    pub global: bool,
    /// Whether the first stage's leaf has N set, and so maps 64 KiB ("Svnapot"); false if that stage is Bare.
    pub napot: bool,
}

impl Model for Hit {
    ghost use Rattle.std.specs.Prelude.{◌<◌, ◌^◌};
    ghost use Rattle.iom_nested.specs.Hits.{Page};

    ghost Value = { Page };

    ghost view = { λ hit. record { frame = hit.frame; level = hit.level; global = hit.global; napot = hit.napot } };

    ghost inverse = { λ page. record { frame = page.frame; level = page.level; global = page.global; napot = page.napot } };

    ghost invariant = { λ hit. (hit.frame < 2 ^ 52) × (hit.level < 5) };
}

/// Why an IOVA leads nowhere.
#[derive(Clone, Copy, PartialEq)]
pub struct Fault {
    /// The cause for the fault record: 5, 7, 13, 15, 21, 23, 261, 262 or 263 as a number.
    pub cause: Cause,
    /// For a guest page fault the guest-physical address with bits 1:0 cleared, and bit 0 set if it is that of an entry of the first stage;
    /// else 0.
    pub iotval2: u64,
}

/// Where the first stage leads an IOVA.
#[derive(Clone, Copy)]
pub struct Reached {
    /// The guest-physical address under a second stage, else the physical one; the IOVA itself if the first stage is Bare.
    pub addr: u64,
    /// The level of the first stage's leaf, 0 to 4; 0 if that stage is Bare.
    pub level: u8,
    /// Whether the first stage's mapping is global; false if that stage is Bare.
    pub global: bool,
    /// Whether the first stage's leaf has N set, and so maps 64 KiB ("Svnapot"); false if that stage is Bare.
    pub napot: bool,
}

/// Translates an IOVA by the stages of a context that isn't bare: a stage translates, or there is an MSI page table ("Process to translate
/// an IOVA").
///
/// An address of an interrupt file goes by the entry of the MSI page table in place of the second stage, for reads and writes alike.
///
/// First-stage tables stand in the guest's memory if there is a second stage, and are read through it. The fault is an `Access` if an entry
/// of either stage is outside memory, a `Page` fault of the first stage, or a `Guest` fault of the second, each for the access's own kind; of the
/// MSI page table it is `MsiAccess`, `MsiInvalid` or `MsiBad`.
#[inline(always)]
#[tactic(auto, unfolding(crate::specs::Nested::translation))]
pub fn translate<M: Region>(
    ram: &M,
    features: Features,
    context: &Context,
    iova: u64,
    kind: Kind,
) -> Result<Hit, Fault>
    requires translated { is_bare context.now ≡ false }
    ensures translation { result ≡ translation (M.memory ram.now) features context.now iova kind }
{
    let reached = first_stage(ram, features, context, iova, kind)?;
    access_stage(ram, features, context, reached, kind)
}

/// A law of translations: over one memory and under one context, what one IOVA of a page hits, each of them hits. The function does
/// nothing.
#[tactic(auto, using(crate::proofs::Pages::one_hit))]
pub fn one_hit_a_page()
    ensures { OneHitAPage }
{}

/// Where the first stage of a context leads an IOVA, as `translate` does it, with the same faults; a Bare one leads to the IOVA
/// itself.
#[inline(always)]
pub fn first_stage<M: Region>(
    ram: &M,
    features: Features,
    context: &Context,
    iova: u64,
    kind: Kind,
) -> Result<Reached, Fault>
    ensures reached { result
        ≡ told_of kind (first_stage (M.memory ram.now) features context.now iova kind (first_shape_of context.now)) }
    ensures fits { IfOk result
        (λ reached. (first_shape_of context.now ≢ None → reached.addr < 2 ^ 56) × (reached.level < 5)) }
{
    let Some(shape) = first_shape(context) else {
        return Ok(unmoved(iova));
    };
    let format = Format::of_user(shape, features);
    let outcome = match second_shape(context) {
        Some(_) => walk(
            &Second::new(ram, features, context),
            format,
            context.fields.ppn,
            iova,
            kind,
        ),
        None => walk(&Physical { ram }, format, context.fields.ppn, iova, kind),
    };
    reached_by(outcome, iova, kind)
}

/// Leads an IOVA by the first stage as `first_stage` does, and puts the entries that it meets into `met`, an empty list, each with the row
/// that decides of it. There is none if that stage is Bare, nor of an IOVA that is too wide for it.
pub fn first_stage_listed<M: Region>(
    met: &mut PathEntries,
    ram: &M,
    features: Features,
    context: &Context,
    iova: u64,
    kind: Kind,
) -> Result<Reached, Fault>
    requires empty { met.old.items ≡ [] }
    ensures entries { met.new.items ≡ first_path (M.memory ram.now) features context.now iova kind (first_shape_of context.now) }
    ensures few { array_vec_len met.new ≤ 5 }
    ensures reached { result
        ≡ told_of kind (first_stage (M.memory ram.now) features context.now iova kind (first_shape_of context.now)) }
    ensures fits { IfOk result
        (λ reached. (first_shape_of context.now ≢ None → reached.addr < 2 ^ 56) × (reached.level < 5)) }
{
    let Some(shape) = first_shape(context) else {
        return Ok(unmoved(iova));
    };
    let format = Format::of_user(shape, features);
    let (root, bare) = (context.fields.ppn, Physical { ram });
    let outcome = match second_shape(context) {
        Some(_) => walk_listed(
            met,
            &Second::new(ram, features, context),
            format,
            root,
            iova,
            kind,
        ),
        None => walk_listed(met, &bare, format, root, iova, kind),
    };
    reached_by(outcome, iova, kind)
}

// Where a Bare first stage leads an IOVA.
#[inline(always)]
fn unmoved(iova: u64) -> Reached
    ensures { result ≡ record { addr = iova; level = 0; global = false; napot = false } }
{
    Reached {
        addr: iova,
        level: 0,
        global: false,
        napot: false,
    }
}

/// Where the first stage leads an IOVA whose walk ends so.
#[inline(always)]
pub fn reached_by(outcome: Outcome, iova: u64, kind: Kind) -> Result<Reached, Fault>
    requires { LeafReaches outcome }
    ensures reached { result ≡ told_of kind (reached_by iova outcome) }
    ensures fits { IfOk result (λ reached. (reached.addr < 2 ^ 56) × (reached.level < 5)) }
{
    match outcome {
        Outcome::Leaf(leaf) => Ok(Reached {
            addr: leaf.frame * 4096 + iova % 4096,
            level: leaf.level,
            global: leaf.global,
            napot: leaf.napot,
        }),
        Outcome::Outside => Err(entry_outside(kind)),
        Outcome::Guest(place) => Err(Fault {
            cause: Cause::Guest(kind),
            iotval2: (place & !3) + 1,
        }),
        Outcome::Fault => Err(Fault {
            cause: Cause::Page(kind),
            iotval2: 0,
        }),
    }
}

/// Where the second stage of a context leads the address that its first one reached, with the faults of `translate`. A Bare stage leads to
/// that address itself.
pub fn second_stage<M: Region>(
    ram: &M,
    features: Features,
    context: &Context,
    reached: Reached,
    kind: Kind,
) -> Result<Hit, Fault>
    requires level { reached.level < 5 }
    ensures hit { result
        ≡ told_of kind (second_stage (M.memory ram.now) features context.now kind (second_shape_of context.now) reached) }
{
    match second_shape(context) {
        None => Ok(hit_at(reached, reached.addr / 4096)),
        Some(shape) => hit_by(
            reached,
            walk(
                &Physical { ram },
                Format::of_user(shape, features),
                context.fields.gppn,
                reached.addr,
                kind,
            ),
            kind,
        ),
    }
}

/// Where the second stage leads what the first one reached, if its walk for the access itself ends so.
pub fn hit_by(reached: Reached, outcome: Outcome, kind: Kind) -> Result<Hit, Fault>
    requires level { reached.level < 5 }
    requires leaf { LeafReaches outcome }
    ensures hit { result ≡ told_of kind (hit_by reached outcome) }
{
    let frame = match outcome {
        Outcome::Leaf(leaf) => leaf.frame,
        Outcome::Outside => return Err(entry_outside(kind)),
        Outcome::Guest(_) | Outcome::Fault => {
            return Err(Fault {
                cause: Cause::Guest(kind),
                iotval2: reached.addr & !3,
            });
        }
    };
    Ok(hit_at(reached, frame))
}

// Where the address that the first stage reached leads: by the MSI page table if it is one of an interrupt file, else by the second stage.
#[inline(always)]
fn access_stage<M: Region>(
    ram: &M,
    features: Features,
    context: &Context,
    reached: Reached,
    kind: Kind,
) -> Result<Hit, Fault>
    requires level { reached.level < 5 }
    ensures { result
        ≡ told_of kind (access_stage (M.memory ram.now) features context.now kind (is_of_file context.now.msi reached.addr) reached) }
{
    if is_of_file(context, reached.addr) {
        file_stage(ram, context, reached, kind)
    } else {
        second_stage(ram, features, context, reached, kind)
    }
}

// Where the MSI page table of a context leads the address of an interrupt file that its first stage reached.
fn file_stage<M: Region>(
    ram: &M,
    context: &Context,
    reached: Reached,
    kind: Kind,
) -> Result<Hit, Fault>
    requires level { reached.level < 5 }
    ensures { result ≡ told_of kind (file_stage (M.memory ram.now) context.now.msi reached) }
{
    let word = file_word(ram, file_place(context, reached.addr));
    hit_by_file(reached, word, kind)
}

// What the first stage reached, in this frame.
pub(crate) fn hit_at(reached: Reached, frame: u64) -> Hit
    requires level { reached.level < 5 }
    requires frame { frame < 2 ^ 52 }
    ensures { result ≡ record { frame = frame; level = reached.level; global = reached.global; napot = reached.napot } }
{
    Hit {
        frame,
        level: reached.level,
        global: reached.global,
        napot: reached.napot,
    }
}

// The fault of an entry of either stage that is outside memory.
fn entry_outside(kind: Kind) -> Fault
    ensures { result ≡ fault_of kind EntryOutside }
{
    Fault {
        cause: Cause::Access(kind),
        iotval2: 0,
    }
}

/// The shape of the first stage's tables, by fsc.MODE: 8 is Sv39, 9 is Sv48, 10 is Sv57; None if it is Bare, 0.
pub fn first_shape(context: &Context) -> Option<Shape>
    ensures { result ≡ first_shape_of context.now }
{
    match context.fields.mode {
        0 => None,
        8 => Some(Shape::Sv39),
        9 => Some(Shape::Sv48),
        _ => Some(Shape::Sv57),
    }
}
