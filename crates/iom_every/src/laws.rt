ghost use Rattle.std.specs.Prelude.{ℕ, ◌≡◌, ◌↔◌, ◌++◌, ◌∷◌, Bool, true, List, [], flat_map, reverse, Option, Some};
ghost use Rattle.iom_choices.specs.Choices.{Choice, Holder, end_as, replies_as, steps_of};
ghost use Rattle.iom_choices.specs.Laws.{CanUse, DoesAlike};
ghost use Rattle.iom_choices.specs.Models.{end_of, entries_in, replies_in, run_of, view_at};
ghost use Rattle.iom_choices.specs.Settled.{AreSettled, EachUse, IsSettled, MayHold};
ghost use Rattle.iom_choices.specs.Systems.{IsAmong};
ghost use Rattle.iom_choices.specs.Carried.{DoesAlikeCarried, plain_steps};
ghost use Rattle.iom_choices.specs.Pauses.{own_walk, taken, tells_or_none};
ghost use Rattle.iom_choices.specs.Late.{DoesAlikeLate, Late};
ghost use Rattle.iom_choices.specs.Marked.{AreMarkedAlike, Marked, late_from, marked_behind, telling};
ghost use Rattle.iom_choices.specs.Traces.{AllSeen, IsAllowed, IsAllowedUnseen, IsThinning, is_any, onward, possible_after, possible_with, steps_in};
ghost use Rattle.iom_choices.specs.Trees.{AreLedAlike, IsApart, way_over};
ghost use Rattle.iom_core.specs.Access.{address_on, led};
ghost use Rattle.iom_core.specs.Looking.{by_tables};
ghost use Rattle.iom_core.specs.Run.{answers, end_of as table_end};
ghost use Rattle.iom_core.specs.State.{State};
ghost use Rattle.iom_core.specs.Warrants.{IsUncached};
ghost use Rattle.iom_core.specs.declared.access.Request.{Request};
ghost use Rattle.iom_core.specs.declared.step.Answer.{Answer};
ghost use Rattle.iom_core.specs.declared.step.Step.{Step};
ghost use Rattle.iom_every.specs.Entries.{Entry};
ghost use Rattle.iom_every.specs.Every.{AreWaysAlike, AreWaysAlikeLate, IsUsedAhead, IsUsedEver, MayAhead, MayAtOnce, MayEver, MayLate, cached, carrying_iommu, every_iommu, every_view, held_entries, iommu, is_listed, late_entries, late_iommu, late_view, platform, prefetching_iommu, queue_commands};
ghost use Rattle.iom_every.specs.Judged.{AreJudged, IsOneTraceAllowed, IsTraceAllowed, judged_iommu, judged_tree, told};
ghost use Rattle.iom_every.specs.Making.{translations};
ghost use Rattle.iom_every.specs.Pages.{OneGoalAPage, OneWayAPage, SameReadsAPage};
ghost use Rattle.iom_every.specs.Rows.{bare};
ghost use Rattle.iom_every.specs.Trees.{every_tree, tree_of};
ghost use Rattle.iom_every.specs.Uses.{Look};
ghost use Rattle.iom_every.specs.Ways.{Goes, way_of};
ghost use Rattle.iom_queue.specs.declared.command.Command.{Command};
ghost use Rattle.iom_every.specs.Widths.{WidthsAgree};

/// For every list of steps from an uncached start: if each access of a device in it is settled, every IOMMU that carries out each
/// command in its own step gives the answers of this model's run, and leaves its memory, registers, devices and disks. An access is settled if it
/// goes, whatever entries its look-ups use of those that may be held, to the address, or to the denial, to which the tables take it. Steps are listed
/// newest first, each with the choice of the IOMMU in it. `ahead` says which requests it may also read ahead, though no device makes them.
pub fn answers_are_settled()
    ensures state { (ahead : Request → Bool) (start : State) (chosen : List (Step × Choice Request Look)) → IsUncached start →
        AreSettled (iommu ahead) (λ steps. bare (end_of platform start steps)) (steps_of chosen) →
        (end_as (iommu ahead) (bare start) chosen).state ≡ bare (end_of platform start (steps_of chosen)) }
    ensures answers { (ahead : Request → Bool) (start : State) (chosen : List (Step × Choice Request Look)) → IsUncached start →
        AreSettled (iommu ahead) (λ steps. bare (end_of platform start steps)) (steps_of chosen) →
        replies_as (iommu ahead) (bare start) chosen ≡ replies_in (run_of platform start).tells (steps_of chosen) }
{}

/// This model is one of these IOMMUs, one that holds exactly the entries that this model caches; no access need be settled. So this model
/// takes a settled request where the tables do.
pub fn model_is_one()
    ensures does { (ahead : Request → Bool) (start : State) (steps : List Step) → IsUncached start →
        DoesAlike (iommu ahead) (view_at platform start) (run_of platform start).tells steps (entries_in (cached (end_of platform start steps))) }
    ensures fresh { (ahead : Request → Bool) (start : State) (steps : List Step) (request : Request) → IsUncached start →
        IsSettled (iommu ahead) (MayAtOnce ahead start steps) (bare (end_of platform start steps)) (Some request) →
        address_on (led (end_of platform start steps).machine request).way request.iova ≡ address_on (by_tables (end_of platform start steps).machine request) request.iova }
{}

/// Each source of entries that may be held is used by some such IOMMU, which did as this model until then. So if a request isn't settled,
/// one of them takes it elsewhere than the tables.
pub fn sources_are_used()
    ensures { (ahead : Request → Bool) (start : State) (steps : List Step) (source : List (Look × Entry)) → IsUncached start →
        EachUse (MayAtOnce ahead start steps) source → CanUse (iommu ahead) (view_at platform start) (run_of platform start).tells steps source }
{}

/// A walk with nothing held leads as the tables do; a walk over the entries that this model caches leads as this model does.
pub fn tables_lead()
    ensures uncached { (state : State) (request : Request) → (way_of (bare state) [] request).led ≡ by_tables state.machine request }
    ensures cached { (state : State) (request : Request) → (way_of (bare state) (cached state) request).led ≡ (led state.machine request).way }
{}

/// The runs of these laws, whose steps are listed newest first, are those of the step table.
pub fn runs_are_this_models()
    ensures state { (start : State) (steps : List Step) → end_of platform start steps ≡ table_end start (reverse steps) }
    ensures answers { (start : State) (steps : List Step) → replies_in (run_of platform start).tells steps ≡ reverse (answers start (reverse steps)) }
{}

/// What an IOMMU may hold after some steps, if it reads no requests ahead but these, is a list: it is computed from step to step, with no entry
/// too few and none too many. A request is settled exactly if each way that the list allows takes it where the tables take it.
pub fn held_entries_are_listed()
    ensures held { (requests : List Request) (start : State) (steps : List Step) (entry : Entry) →
        IsAmong (held_entries requests start steps) entry ↔ MayAtOnce (is_listed requests) start steps entry }
    ensures settled { (requests : List Request) (start : State) (steps : List Step) (request : Request) → AreWaysAlike requests start steps request
        ↔ IsSettled (iommu (is_listed requests)) (MayAtOnce (is_listed requests) start steps) (bare (end_of platform start steps)) (Some request) }
{}

/// If each access is settled late, every IOMMU whose commands take effect at the next fence at the latest gives the answers of this model's
/// run, and leaves its memory, registers, devices and disks.
pub fn late_answers_are_settled()
    ensures state { (ahead : Request → Bool) (start : State) (chosen : List (Step × Choice Request Look)) → IsUncached start →
        AreSettled (late_iommu ahead) (late_view start) (steps_of chosen) →
        (end_as (late_iommu ahead) (late_view start []) chosen).state ≡ late_view start (steps_of chosen) }
    ensures answers { (ahead : Request → Bool) (start : State) (chosen : List (Step × Choice Request Look)) → IsUncached start →
        AreSettled (late_iommu ahead) (late_view start) (steps_of chosen) →
        replies_as (late_iommu ahead) (late_view start []) chosen ≡ replies_in (run_of platform start).tells (steps_of chosen) }
{}

/// This model is one of these IOMMUs: one that holds exactly the entries that this model caches. Each source of entries that may be held late is
/// used by some such IOMMU. And what is settled late is settled.
pub fn late_model_is_one()
    ensures does { (ahead : Request → Bool) (start : State) (steps : List Step) → IsUncached start →
        DoesAlikeLate (iommu ahead) queue_commands (run_of platform start) steps }
    ensures uses { (ahead : Request → Bool) (start : State) (steps : List Step) (source : List (Look × (Entry × ℕ))) → IsUncached start →
        EachUse (MayLate ahead start steps) source → CanUse (late_iommu ahead) (late_view start) (run_of platform start).tells steps source }
    ensures settled { (ahead : Request → Bool) (start : State) (steps : List Step) (request : Option Request) →
        IsSettled (late_iommu ahead) (MayLate ahead start steps) (late_view start steps) request →
        IsSettled (iommu ahead) (MayAtOnce ahead start steps) (bare (end_of platform start steps)) request }
{}

/// What an IOMMU may hold late, if it reads no requests ahead but these, is a list, and settled is decided by it.
pub fn late_entries_are_listed()
    ensures held { (requests : List Request) (start : State) (steps : List Step) (held : Entry × ℕ) →
        IsAmong (late_entries requests start steps) held ↔ MayLate (is_listed requests) start steps held }
    ensures settled { (requests : List Request) (start : State) (steps : List Step) (request : Request) → AreWaysAlikeLate requests start steps request
        ↔ IsSettled (late_iommu (is_listed requests)) (MayLate (is_listed requests) start steps) (late_view start steps) (Some request) }
{}

/// The whole claim. If each access of a device is settled late, after any pauses, every IOMMU that caches as it likes, reads ahead in any pause
/// and lets its commands take effect at the next fence at the latest gives the answers of this model's run; so does each that carries out every
/// command as a whole.
pub fn every_iommu_answers_alike()
    ensures state { (ahead : Request → Bool) (start : State) (chosen : List (Option Step × Choice Request Look)) → IsUncached start →
        AreSettled (every_iommu ahead) (every_view start) (steps_of chosen) →
        (end_as (every_iommu ahead) (every_view start []) chosen).state ≡ every_view start (steps_of chosen) }
    ensures answers { (ahead : Request → Bool) (start : State) (chosen : List (Option Step × Choice Request Look)) → IsUncached start →
        AreSettled (every_iommu ahead) (every_view start) (steps_of chosen) →
        replies_as (every_iommu ahead) (every_view start []) chosen ≡ replies_in (tells_or_none (run_of platform start).tells) (steps_of chosen) }
    ensures uses { (ahead : Request → Bool) (start : State) (steps : List (Option Step)) (source : List (Look × (Entry × ℕ))) → IsUncached start →
        EachUse (MayHold (every_iommu ahead) (every_view start) steps) source →
        CanUse (every_iommu ahead) (every_view start) (tells_or_none (run_of platform start).tells) steps source }
    ensures carrying { (ahead : Request → Bool) (start : State) (chosen : List ((Option Step × List Bool) × Choice Request Look)) → IsUncached start →
        AreSettled (every_iommu ahead) (every_view start) (plain_steps (steps_of chosen)) →
        replies_as (carrying_iommu ahead) (record { now = bare start; due = [] }) chosen
        ≡ replies_in (tells_or_none (run_of platform start).tells) (plain_steps (steps_of chosen)) }
{}

/// This model is one of those that carry out every command as a whole, each in its own step.
pub fn strict_model_is_one()
    ensures { (ahead : Request → Bool) (start : State) (steps : List Step) → IsUncached start →
        DoesAlikeCarried (iommu ahead) queue_commands (run_of platform start) steps }
{}

/// What decides it: the entries that may be held, however often an IOMMU pauses between the steps. A request that each source of them takes where
/// memory takes it is settled after any pauses; and each such source is used by some such IOMMU.
pub fn entries_held_ever_decide()
    ensures settled { (ahead : Request → Bool) (start : State) (steps : List (Option Step)) (request : Option Request) →
        IsSettled (iommu ahead) (MayEver ahead start (taken steps)) (bare (end_of platform start (taken steps))) request →
        IsSettled (every_iommu ahead) (MayHold (every_iommu ahead) (every_view start) steps) (every_view start steps) request }
    ensures used { (ahead : Request → Bool) (start : State) (steps : List Step) (source : List (Look × Entry)) → IsUncached start →
        EachUse (MayEver ahead start steps) source → IsUsedEver ahead start steps source }
{}

/// The same of every IOMMU that reads ahead by memory alone: if each access of a device is settled by what such a one may hold, it gives the answers
/// of this model's run. The entries that it may hold, however often it pauses between the steps, decide it, and each source of them is used by some
/// such IOMMU.
pub fn prefetching_iommus_answer_alike()
    ensures state { (ahead : Request → Bool) (start : State) (chosen : List (Option Step × Choice (Bool × Request) Look)) → IsUncached start →
        AreSettled (prefetching_iommu ahead) (every_view start) (steps_of chosen) →
        (end_as (prefetching_iommu ahead) (every_view start []) chosen).state ≡ every_view start (steps_of chosen) }
    ensures answers { (ahead : Request → Bool) (start : State) (chosen : List (Option Step × Choice (Bool × Request) Look)) → IsUncached start →
        AreSettled (prefetching_iommu ahead) (every_view start) (steps_of chosen) →
        replies_as (prefetching_iommu ahead) (every_view start []) chosen ≡ replies_in (tells_or_none (run_of platform start).tells) (steps_of chosen) }
    ensures settled { (ahead : Request → Bool) (start : State) (steps : List (Option Step)) (request : Option Request) →
        IsSettled (iommu ahead) (MayAhead ahead start (taken steps)) (bare (end_of platform start (taken steps))) request →
        IsSettled (prefetching_iommu ahead) (MayHold (prefetching_iommu ahead) (every_view start) steps) (every_view start steps) (own_walk request) }
    ensures used { (ahead : Request → Bool) (start : State) (steps : List Step) (source : List (Look × Entry)) → IsUncached start →
        EachUse (MayAhead ahead start steps) source → IsUsedAhead ahead start steps source }
{}

/// The tree of a request has the way of each source, and looks up nothing twice.
pub fn walks_are_trees()
    ensures way { (state : State) (source : List (Look × Entry)) (request : Request) → way_over source (tree_of state request) ≡ way_of state source request }
    ensures apart { (state : State) (request : Request) → IsApart [] (tree_of state request) }
{}

/// A leaf whose form isn't reserved maps as many pages for a walk as an invalidation by address drops of a cached translation, and as the
/// entries stand for that may be kept of it: sixteen if N is set ("Svnapot"), else 2^(9 * level).
pub fn leaves_have_one_width()
    ensures { WidthsAgree }
{}

/// A request has one way for each byte of its page, over each source of valid entries, and so of entries that may be held. Only what a guest page
/// fault of the access itself tells differs: each byte's own guest-physical address ("Fault/Event-Queue", iotval2). So each byte goes to its own
/// offset in one frame, and reads the same entries.
pub fn one_way_a_page()
    ensures led { OneWayAPage }
    ensures goes { OneGoalAPage }
    ensures reads { SameReadsAPage }
{}

/// A trace of steps and of what was seen of each answer, newest first, is some IOMMU's whose commands take effect at the next fence at the latest (see
/// `judged_iommu`), exactly if the fold over it leaves something that the IOMMU may be (`seen`). At most `most` of the hidden steps may come unseen before each that was seen
/// (`hidden`). A decider may keep lists without marks (`AreJudged`): they begin so, go on with each step, are joined, and decide. This model's own
/// trace is allowed; and one whose accesses are all settled is allowed only with this model's answers.
pub fn traces_are_judged<O>()
    ensures seen { (requests : List Request) (fits : Answer × Option Goes → O → Bool) (start : State) (trace : List (Step × O)) →
        is_any (possible_after (judged_iommu (is_listed requests)) judged_tree requests fits (late_from (bare start)) trace) ≡ true
        ↔ IsTraceAllowed requests fits start trace }
    ensures hidden { (requests : List Request) (fits : Answer × Option Goes → O → Bool) (hidden : List Step) (most : ℕ)
        (thin : List (Holder (Late State Command) (Entry × Option ℕ)) → List (Holder (Late State Command) (Entry × Option ℕ))) → IsThinning thin → (start : State) (trace : List (Step × O)) →
        is_any (possible_with (judged_iommu (is_listed requests)) judged_tree requests fits hidden most thin (late_from (bare start)) trace) ≡ true
        ↔ IsAllowedUnseen (judged_iommu (is_listed requests)) fits hidden most (late_from (bare start)) trace }
    ensures begins { (requests : List Request) (fits : Answer × Option Goes → O → Bool) (start : State) →
        AreJudged requests fits start ([] ∷ []) (record { state = bare start; holds = []; outlasts = [] } ∷ []) }
    ensures goes_on { (requests : List Request) (fits : Answer × Option Goes → O → Bool) (start : State) (traces : List (List (Step × O))) (list : List (Marked State Entry)) →
        AreJudged requests fits start traces list → (seen : Step × O) (next : List (Marked State Entry)) →
        AreMarkedAlike next (flat_map (marked_behind (telling (iommu (is_listed requests))) queue_commands translations every_tree requests fits seen) list) →
        AreJudged requests fits start (onward seen traces) next }
    ensures joins { (requests : List Request) (fits : Answer × Option Goes → O → Bool) (start : State) (traces others : List (List (Step × O))) (list more : List (Marked State Entry)) →
        AreJudged requests fits start traces list → AreJudged requests fits start others more → AreJudged requests fits start (traces ++ others) (list ++ more) }
    ensures decides { (requests : List Request) (fits : Answer × Option Goes → O → Bool) (start : State) (traces : List (List (Step × O))) (list : List (Marked State Entry)) →
        AreJudged requests fits start traces list → (is_any list ≡ true) ↔ IsOneTraceAllowed requests fits start traces }
    ensures own { (ahead : Request → Bool) (fits : Answer × Option Goes → O → Bool) (start : State) (trace : List (Step × O)) → IsUncached start →
        AllSeen fits (told start (steps_in trace)) trace → IsAllowed (judged_iommu ahead) fits (late_from (bare start)) trace }
    ensures settled { (ahead : Request → Bool) (fits : Answer × Option Goes → O → Bool) (start : State) (trace : List (Step × O)) → IsUncached start →
        AreSettled (judged_iommu ahead) (late_view start) (steps_in trace) → IsAllowed (judged_iommu ahead) fits (late_from (bare start)) trace →
        AllSeen fits (told start (steps_in trace)) trace }
{}
