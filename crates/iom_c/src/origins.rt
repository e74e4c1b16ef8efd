//! Why the last steps went as they did, and which steps filled the caches. None of these is a step, and none changes the platform.

ghost use Rattle.std.specs.Prelude.{◌≡◌, ℕ, List, slice_get, Some};
ghost use Rattle.iom_core.specs.State.{State};
ghost use Rattle.iom_core.specs.declared.step.Step.{Step};
ghost use Rattle.iom_cache.specs.declared.key.Key.{Key};
ghost use Rattle.iom_ddt.specs.declared.context.Context.{Context};
ghost use Rattle.iom_nested.specs.declared.translation.Hit.{Hit};
ghost use Rattle.iom_account.specs.Following.{ContextFrom, Follows, PageFrom, numbers_of};
ghost use Rattle.iom_c.specs.Handles.{state_in};
ghost use Rattle.iom_c.specs.Why.{OriginTold, PageOriginTold, WhyTold};
ghost use Rattle.iom_c.specs.declared.owned.Owned.{Owned};

use crate::handle::Handle;
use crate::kept::Kept;
use crate::why::{StepReason, reason_of};
use iom_account::History;
use std::alloc::Global;

// Puts why step `i` of those kept went as it did.
fn put_why(kept: &Kept, i: u64, out: &mut StepReason) -> u32
    ensures { WhyTold (slice_get kept.now.ring.items i) result out.old out.new }
{
    match kept.get(i) {
        Some(reason) => {
            *out = reason_of(reason);
            0
        }
        None => 13,
    }
}

/// Why step `i`, any number, of those whose reasons are kept went as it did; the oldest is 0. It answers 0; or 13 if there are `i` or
/// fewer, and `why` is unchanged then.
#[unsafe(no_mangle)]
pub extern "C" fn rviommu_why(
    alloc: Global,
    handle: &mut Handle,
    i: u64,
    why: &mut StepReason,
) -> u32
    ghost own: { Owned }
    requires open { handle.old.held ≡ Some own }
    ensures why { WhyTold (slice_get own.told.kept.ring.items i) result why.old why.new }
    ensures same { handle.new.held ≡ Some own }
{
    let owned = handle.take(alloc);
    let answer = put_why(&owned.told.kept, i, why);
    *handle = Handle::of(owned);
    answer
}

// Puts the number of the step that filled a place of the context cache.
fn put_context_origin(history: &History, i: u64, number: &mut u64) -> u32
    ensures { OriginTold (slice_get history.now.contexts i) result number.old number.new }
{
    match history.context(i) {
        Some(found) => {
            *number = found;
            0
        }
        None => 13,
    }
}

/// The number of the step that filled place `i`, any number, of the context cache, in the standard the DDTC; the oldest is place 0. It
/// answers 0, also of a place that was dropped since; or 13 beyond the last place, and `number` is unchanged then.
#[unsafe(no_mangle)]
#[tactic(auto, using(crate::proofs::Telling::context_told))]
pub extern "C" fn rviommu_context_origin(
    alloc: Global,
    handle: &mut Handle,
    i: u64,
    number: &mut u64,
) -> u32
    ghost own: { Owned }
    requires open { handle.old.held ≡ Some own }
    ensures number { OriginTold (slice_get own.told.history.contexts i) result number.old number.new }

    // If nothing was cached at the start, it filled what stands there, and nothing has dropped that since.
    ensures from { (words : List ℕ) (start : State) (steps : List Step) (numbers : List ℕ) (did : ℕ) (context : Context) →
        Follows own.told.history (state_in own.held words) start steps numbers →
        slice_get (state_in own.held words).machine.contexts i ≡ Some (Some (did, context)) →
        ContextFrom start steps numbers did context number.new }
    ensures same { handle.new.held ≡ Some own }
{
    let owned = handle.take(alloc);
    let answer = put_context_origin(&owned.told.history, i, number);
    *handle = Handle::of(owned);
    answer
}

// Puts the numbers of the steps that filled a place of the translation cache and its context.
fn put_page_origin(history: &History, i: u64, context: &mut u64, walk: &mut u64) -> u32
    ensures { PageOriginTold (numbers_of (slice_get history.now.walk_contexts i) (slice_get history.now.walks i)) result
        context.old context.new walk.old walk.new }
{
    match history.page(i) {
        Some(filled) => {
            *context = filled.context;
            *walk = filled.walk;
            0
        }
        None => 13,
    }
}

/// The steps that filled a place of the translation cache, in the standard the IOTLB: writes the number of the step that filled it to
/// `walk`, and to `context` that of the step that had filled the context of its walk. Answers as `rviommu_context_origin`.
#[unsafe(no_mangle)]
#[tactic(auto, using(crate::proofs::Telling::page_told))]
pub extern "C" fn rviommu_page_origin(
    alloc: Global,
    handle: &mut Handle,
    i: u64,
    context: &mut u64,
    walk: &mut u64,
) -> u32
    ghost own: { Owned }
    requires open { handle.old.held ≡ Some own }
    ensures numbers { PageOriginTold (numbers_of (slice_get own.told.history.walk_contexts i) (slice_get own.told.history.walks i)) result
        context.old context.new walk.old walk.new }

    // If nothing was cached at the start, they filled what stands there, and nothing has dropped that since.
    ensures from { (words : List ℕ) (start : State) (steps : List Step) (numbers : List ℕ) (key : Key) (hit : Hit) →
        Follows own.told.history (state_in own.held words) start steps numbers →
        slice_get (state_in own.held words).machine.pages i ≡ Some (Some (key, hit)) →
        PageFrom start steps numbers key hit context.new walk.new }
    ensures same { handle.new.held ≡ Some own }
{
    let owned = handle.take(alloc);
    let answer = put_page_origin(&owned.told.history, i, context, walk);
    *handle = Handle::of(owned);
    answer
}
