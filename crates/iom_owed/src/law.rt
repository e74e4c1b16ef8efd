ghost use Rattle.std.specs.Prelude.{◌≡◌, ◌↔◌, ◌⊎◌, ℕ, [], Bool, List, Option};
ghost use Rattle.iom_choices.specs.Carried.{carrying, plain_steps};
ghost use Rattle.iom_choices.specs.Choices.{Choice, end_as, replies_as, steps_of};
ghost use Rattle.iom_choices.specs.Models.{end_of, replies_in, run_of};
ghost use Rattle.iom_choices.specs.Pauses.{taken, tells_or_none};
ghost use Rattle.iom_choices.specs.Systems.{IsAmong};
ghost use Rattle.iom_core.specs.State.{State};
ghost use Rattle.iom_core.specs.Warrants.{IsUncached};
ghost use Rattle.iom_core.specs.declared.access.Request.{Request};
ghost use Rattle.iom_core.specs.declared.step.Step.{Step};
ghost use Rattle.iom_every.specs.Every.{every_view, iommu, is_listed, late_iommu, late_view, none_ahead, platform, prefetching_iommu, queue_commands};
ghost use Rattle.iom_every.specs.Rows.{bare};
ghost use Rattle.iom_every.specs.Uses.{Look};
ghost use Rattle.iom_owed.specs.Holdings.{HoldingsView, IsMadeIn, Keeps, at_page};
ghost use Rattle.iom_owed.specs.Newest.{steps_of as steps_in};
ghost use Rattle.iom_owed.specs.Settled.{AreOwed, IsEachSettled, IsToldOwed, IsSettledNow};
ghost use Rattle.iom_owed.specs.declared.settling.Owed.{Owed};

use iom_every::prefetching_iommus_answer_alike;

/// If the request of each step is settled before the step, as `is_settled` decides, every IOMMU that may read these requests ahead by memory alone, in any
/// pause between the steps, and whose commands take effect at the next fence at the latest gives the answers of this model's run, and leaves its memory,
/// registers, devices and disks (`ahead_state`, `ahead_answers`). So does each that reads nothing ahead (`state`, `answers`), and each that reads nothing
/// ahead and carries out every command as a whole, at the end of some step up to the next fence (`carried_state`, `carried`). At the start nothing is
/// cached. Steps are listed newest first, each with the choice of the IOMMU in it; a pause is None.
pub fn settled_steps_are_answered_alike()
    ensures state { (ahead : List Request) (start : State) (chosen : List (Step × Choice Request Look)) → IsUncached start → IsEachSettled ahead start (steps_of chosen) →
        (end_as (late_iommu none_ahead) (late_view start []) chosen).state.now ≡ bare (end_of platform start (steps_of chosen)) }
    ensures answers { (ahead : List Request) (start : State) (chosen : List (Step × Choice Request Look)) → IsUncached start → IsEachSettled ahead start (steps_of chosen) →
        replies_as (late_iommu none_ahead) (late_view start []) chosen ≡ replies_in (run_of platform start).tells (steps_of chosen) }
    ensures carried_state { (ahead : List Request) (start : State) (chosen : List ((Step × List Bool) × Choice Request Look)) → IsUncached start → IsEachSettled ahead start (plain_steps (steps_of chosen)) →
        (end_as (carrying (iommu none_ahead) queue_commands) (record { now = bare start; due = [] }) chosen).state.now ≡ bare (end_of platform start (plain_steps (steps_of chosen))) }
    ensures carried { (ahead : List Request) (start : State) (chosen : List ((Step × List Bool) × Choice Request Look)) → IsUncached start → IsEachSettled ahead start (plain_steps (steps_of chosen)) →
        replies_as (carrying (iommu none_ahead) queue_commands) (record { now = bare start; due = [] }) chosen
        ≡ replies_in (run_of platform start).tells (plain_steps (steps_of chosen)) }
    ensures ahead_state { (ahead : List Request) (start : State) (chosen : List (Option Step × Choice (Bool × Request) Look)) → IsUncached start → IsEachSettled ahead start (taken (steps_of chosen)) →
        (end_as (prefetching_iommu (is_listed ahead)) (every_view start []) chosen).state ≡ every_view start (steps_of chosen) }
    ensures ahead_answers { (ahead : List Request) (start : State) (chosen : List (Option Step × Choice (Bool × Request) Look)) → IsUncached start → IsEachSettled ahead start (taken (steps_of chosen)) →
        replies_as (prefetching_iommu (is_listed ahead)) (every_view start []) chosen ≡ replies_in (tells_or_none (run_of platform start).tells) (steps_of chosen) }
{
    prefetching_iommus_answer_alike();
}

/// What `owed` tells of the first byte of a page it tells of each byte. A request is settled if and only if the one for the first byte of its page
/// is (`pages`). So each request that a step made or that is read ahead is told or is settled (`told`), and is settled if nothing is owed (`none`);
/// and none is told that is settled (`unsettled`).
pub fn owed_pages_are_of_each_byte()
    ensures pages { (ahead : List Request) (start : State) (steps : List Step) (request : Request) → IsSettledNow ahead start steps (at_page request) ↔ IsSettledNow ahead start steps request }
    ensures told { (ahead : List Request) (held : HoldingsView) (state start : State) (taken : List (Step × ℕ)) (owed : List Owed) (request : Request) → Keeps ahead held state start taken →
        AreOwed ahead held start (steps_in taken) owed → IsMadeIn start (steps_in taken) request ⊎ IsAmong ahead request → IsToldOwed owed request ⊎ IsSettledNow ahead start (steps_in taken) request }
    ensures none { (ahead : List Request) (held : HoldingsView) (state start : State) (taken : List (Step × ℕ)) (request : Request) → Keeps ahead held state start taken →
        AreOwed ahead held start (steps_in taken) [] → IsMadeIn start (steps_in taken) request ⊎ IsAmong ahead request → IsSettledNow ahead start (steps_in taken) request }
    ensures unsettled { (ahead : List Request) (held : HoldingsView) (start : State) (steps : List Step) (owed : List Owed) (request : Request) → AreOwed ahead held start steps owed →
        IsToldOwed owed request → IsSettledNow ahead start steps request → ⊥ }
{}
