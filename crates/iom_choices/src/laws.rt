ghost use Rattle.std.specs.Prelude.{ℕ, ◌≡◌, ◌↔◌, ◌⊎◌, ◌++◌, ◌∷◌, flat_map, Bool, true, false, List, [], Option, Some, None};
ghost use Rattle.iom_choices.specs.Systems.{IsAmong, System, aimed, led_of};
ghost use Rattle.iom_choices.specs.Choices.{Choice, Holder, end_as, replies_as, steps_of};
ghost use Rattle.iom_choices.specs.Models.{IsCaching, IsRun, Model, Run, entries_in, replies_in, run_of};
ghost use Rattle.iom_choices.specs.Laws.{CanUse, DoesAlike};
ghost use Rattle.iom_choices.specs.Settled.{AreSettled, EachUse, IsOwed, IsRead, IsSaying, IsSettled, MayHold};
ghost use Rattle.iom_choices.specs.Carried.{DoesAlikeCarried, carrying, plain_steps};
ghost use Rattle.iom_choices.specs.Late.{Commands, DoesAlikeLate, DropsNamed, IsLateRun, IsNewer, IsPrompt, KeepsNewest, Late, MayHoldLate, MayOutlast, is_fence_by, late, late_at, late_tree, named_by, newest_after, pending_at};
ghost use Rattle.iom_choices.specs.Marked.{AreMarked, AreMarkedAlike, Marked, late_from, marked_behind};
ghost use Rattle.iom_choices.specs.Thorough.{IsThoroughRun, Making, thorough, thorough_tree, unmarked};
ghost use Rattle.iom_choices.specs.Pauses.{AreHeldTogether, HaveStep, IsReadAhead, MayHoldPaused, MayOutlastPaused, alone, paused, paused_at, paused_commands, paused_run, taken};
ghost use Rattle.iom_choices.specs.Traces.{AllSeen, AreAlike, ArePossible, IsAllowed, IsAllowedUnseen, IsMore, IsOneAllowed, IsThinning, is_any, onward, possible_after, possible_behind, possible_with, steps_in, thinned};
ghost use Rattle.iom_choices.specs.Trees.{AreAhead, AreLedAlike, AreTrees, Tree, held_after};

/// If the access of each step is settled, a system ends in the model's state and gives the model's answers, whatever it keeps, uses,
/// forgets and walks again. M is the model's state, S the system's, T a step, R a request, K a look-up of a walk, E an entry, L the
/// result of a walk, A an answer. The model starts with empty caches, and the system with nothing held.
pub fn settled_runs_agree<S, T, R, K, E, L, A>()
    ensures state { (sys : System S T R K E L A) (run : Run S T K E A) → IsRun sys run → (chosen : List (T × Choice R K)) → AreSettled sys run.at (steps_of chosen) →
        (end_as sys (run.at []) chosen).state ≡ run.at (steps_of chosen) }
    ensures replies { (sys : System S T R K E L A) (run : Run S T K E A) → IsRun sys run → (chosen : List (T × Choice R K)) → AreSettled sys run.at (steps_of chosen) →
        replies_as sys (run.at []) chosen ≡ replies_in run.tells (steps_of chosen) }
{}

/// A model is run as such a system from each state in which it caches nothing.
pub fn models_are_run<M, S, T, R, K, E, L, A>()
    ensures { (sys : System S T R K E L A) (model : Model M S T K E A) → IsCaching sys model →
        (start : M) → model.uses start ≡ [] → IsRun sys (run_of model start) }
{}

/// The model is one of these systems: with some choices the system does as the model, and holds exactly the entries that the model caches.
/// No access need be settled. So the model's caches lead a settled request as memory does.
pub fn model_is_one<S, T, R, K, E, L, A>()
    ensures does { (sys : System S T R K E L A) (run : Run S T K E A) → IsRun sys run → (steps : List T) →
        DoesAlike sys run.at run.tells steps (entries_in (run.uses steps)) }
    ensures fresh { (sys : System S T R K E L A) (run : Run S T K E A) → IsRun sys run → (steps : List T) (request : Option R) →
        IsSettled sys (MayHold sys run.at steps) (run.at steps) request →
        led_of sys (run.at steps) (run.uses steps) request ≡ led_of sys (run.at steps) [] request }
{}

/// Each source of entries that may be held is used by some system: it did as the model until then, and leads each request by exactly this
/// source.
pub fn sources_are_used<S, T, R, K, E, L, A>()
    ensures { (sys : System S T R K E L A) (run : Run S T K E A) → IsRun sys run → (steps : List T) (source : List (K × E)) →
        EachUse (MayHold sys run.at steps) source → CanUse sys run.at run.tells steps source }
{}

/// A request at which nothing is owed is settled.
pub fn unowed_requests_are_settled<S, T, R, K, E, L, A>()
    ensures { (sys : System S T R K E L A) (says : S → R → K × E → Bool) → IsSaying sys says →
        (at : List T → S) (steps : List T) (request : R) → ((used : K × E) → IsOwed sys says at steps request used → ⊥) →
        IsSettled sys (MayHold sys at steps) (at steps) (Some request) }
{}

/// A step walks its own request, and other requests only if reading ahead is allowed.
pub fn walks_are_allowed<S, T, R, K, E, L, A>()
    ensures own { (sys : System S T R K E L A) (state : S) (step : T) → aimed sys state step None ≡ sys.asked state step }
    ensures none { (sys : System S T R K E L A) (state : S) (step : T) (request : R) → sys.ahead request ≡ false →
        aimed sys state step (Some request) ≡ None }
    ensures ahead { (sys : System S T R K E L A) (state : S) (step : T) (request : R) → sys.ahead request ≡ true →
        aimed sys state step (Some request) ≡ Some request }
{}

/// If a system's walks are trees of look-ups and nothing is read ahead, what may be held is a list that is computed step by step, with no
/// entry too few and none too many; and a request is settled exactly if each way that this list allows leads where memory leads.
pub fn held_entries_are_listed<S, T, R, K, E, L, A>()
    ensures held { (sys : System S T R K E L A) (tree : S → R → Tree K E L) → AreTrees sys tree → (requests : List R) → AreAhead sys requests →
        (at : List T → S) (steps : List T) (entry : E) → IsAmong (held_after sys tree requests at steps) entry ↔ MayHold sys at steps entry }
    ensures settled { (sys : System S T R K E L A) (tree : S → R → Tree K E L) → AreTrees sys tree → (requests : List R) → AreAhead sys requests →
        (at : List T → S) (steps : List T) (request : R) →
        AreLedAlike sys tree (at steps) (held_after sys tree requests at steps) request ↔ IsSettled sys (MayHold sys at steps) (at steps) (Some request) }
{}

/// A run whose caches drop at once what a command names is one of the late system too, if each entry that it caches is numbered.
pub fn runs_are_late<S, T, R, K, E, L, A, C>()
    ensures { (sys : System S T R K E L A) (commands : Commands S T E C) → DropsNamed sys commands → (run : Run S T K E A) → IsRun sys run →
        IsLateRun sys commands run }
{}

/// If the access of each step is settled late, a late system ends in the run's state and gives its answers.
pub fn late_runs_agree<S, T, R, K, E, L, A, C>()
    ensures state { (sys : System S T R K E L A) (commands : Commands S T E C) → DropsNamed sys commands → (run : Run S T K E A) → IsRun sys run →
        (chosen : List (T × Choice R K)) → AreSettled (late sys commands) (late_at commands run.at) (steps_of chosen) →
        (end_as (late sys commands) (late_at commands run.at []) chosen).state ≡ late_at commands run.at (steps_of chosen) }
    ensures replies { (sys : System S T R K E L A) (commands : Commands S T E C) → DropsNamed sys commands → (run : Run S T K E A) → IsRun sys run →
        (chosen : List (T × Choice R K)) → AreSettled (late sys commands) (late_at commands run.at) (steps_of chosen) →
        replies_as (late sys commands) (late_at commands run.at []) chosen ≡ replies_in run.tells (steps_of chosen) }
{}

/// Some late system does as the run, and holds exactly what the run caches. And each source of entries that may be held late is used by some
/// late system that did as the run.
pub fn late_model_is_one<S, T, R, K, E, L, A, C>()
    ensures does { (sys : System S T R K E L A) (commands : Commands S T E C) → DropsNamed sys commands → (run : Run S T K E A) → IsRun sys run →
        (steps : List T) → DoesAlikeLate sys commands run steps }
    ensures uses { (sys : System S T R K E L A) (commands : Commands S T E C) → DropsNamed sys commands → (run : Run S T K E A) → IsRun sys run →
        (steps : List T) (source : List (K × (E × ℕ))) →
        EachUse (MayHold (late sys commands) (late_at commands run.at) steps) source → CanUse (late sys commands) (late_at commands run.at) run.tells steps source }
{}

/// The walks of a late system are trees if those of the system are: so what may be held late is a list.
pub fn late_walks_are_trees<S, T, R, K, E, L, A, C>()
    ensures { (sys : System S T R K E L A) (commands : Commands S T E C) (tree : S → R → Tree K E L) → AreTrees sys tree → AreTrees (late sys commands) (late_tree tree) }
{}

/// What may be held at once may be held late, and outlasts the next fence; so what is settled late is settled at once.
pub fn late_systems_hold_more<S, T, R, K, E, L, A, C>()
    ensures holds { (sys : System S T R K E L A) (commands : Commands S T E C) → DropsNamed sys commands →
        (at : List T → S) (steps : List T) (entry : E) → MayHold sys at steps entry → MayOutlast sys commands at steps entry }
    ensures settled { (sys : System S T R K E L A) (commands : Commands S T E C) → DropsNamed sys commands →
        (at : List T → S) (steps : List T) (request : Option R) →
        IsSettled (late sys commands) (MayHold (late sys commands) (late_at commands at) steps) (late_at commands at steps) request →
        IsSettled sys (MayHold sys at steps) (at steps) request }
{}

/// What may be held late, and what outlasts the next fence, from step to step and without numbers: a fence leaves of what may be held only
/// what outlasts it; another command leaves it, and takes what it names out of what outlasts the next fence. What is read is held, and outlasts
/// that fence if the step's own command doesn't name it. And whether a request is settled late depends on what may be held late alone.
pub fn fences_leave_what_outlasts<S, T, R, K, E, L, A, C>()
    ensures fence { (sys : System S T R K E L A) (commands : Commands S T E C) (at : List T → S) (last : T) (steps : List T) (entry : E) →
        is_fence_by commands (commands.executed (at steps) last) ≡ true →
        MayHoldLate sys commands at (last ∷ steps) entry ↔ MayOutlast sys commands at (last ∷ steps) entry }
    ensures held { (sys : System S T R K E L A) (commands : Commands S T E C) (at : List T → S) (last : T) (steps : List T) (entry : E) →
        is_fence_by commands (commands.executed (at steps) last) ≡ false →
        MayHoldLate sys commands at (last ∷ steps) entry
        ↔ (MayHoldLate sys commands at steps entry ⊎ IsRead sys (MayHoldLate sys commands at steps) (at steps) last entry) }
    ensures outlasts { (sys : System S T R K E L A) (commands : Commands S T E C) (at : List T → S) (last : T) (steps : List T) (entry : E) →
        MayOutlast sys commands at (last ∷ steps) entry
        ↔ ((named_by commands (commands.executed (at steps) last) entry ≡ false)
        × (MayOutlast sys commands at steps entry ⊎ IsRead sys (MayHoldLate sys commands at steps) (at steps) last entry)) }
    ensures settled { (sys : System S T R K E L A) (commands : Commands S T E C) (at : List T → S) (steps : List T) (request : Option R) →
        IsSettled (late sys commands) (MayHold (late sys commands) (late_at commands at) steps) (late_at commands at steps) request
        ↔ IsSettled sys (MayHoldLate sys commands at steps) (at steps) request }
{}

/// Of an entry that may be held with several numbers, the greatest is enough: a list that keeps these alone, thinned behind each step, has
/// nothing that may not be held late, leaves no entry out, and decides what is settled.
pub fn newest_entries_are_enough<S, T, R, K, E, L, A, C>()
    ensures few { (sys : System S T R K E L A) (commands : Commands S T E C) (tree : S → R → Tree K E L) → AreTrees sys tree →
        (requests : List R) → AreAhead (late sys commands) requests → (thin : List (E × ℕ) → List (E × ℕ)) → KeepsNewest thin →
        (at : List T → S) (steps : List T) (held : E × ℕ) →
        IsAmong (newest_after sys commands tree requests thin at steps) held → MayHold (late sys commands) (late_at commands at) steps held }
    ensures enough { (sys : System S T R K E L A) (commands : Commands S T E C) (tree : S → R → Tree K E L) → AreTrees sys tree →
        (requests : List R) → AreAhead (late sys commands) requests → (thin : List (E × ℕ) → List (E × ℕ)) → KeepsNewest thin →
        (at : List T → S) (steps : List T) (held : E × ℕ) →
        MayHold (late sys commands) (late_at commands at) steps held → IsNewer (newest_after sys commands tree requests thin at steps) held }
    ensures settled { (sys : System S T R K E L A) (commands : Commands S T E C) (tree : S → R → Tree K E L) → AreTrees sys tree →
        (requests : List R) → AreAhead (late sys commands) requests → (thin : List (E × ℕ) → List (E × ℕ)) → KeepsNewest thin →
        (at : List T → S) (steps : List T) (request : R) →
        AreLedAlike (late sys commands) (late_tree tree) (late_at commands at steps) (newest_after sys commands tree requests thin at steps) request
        ↔ IsSettled (late sys commands) (MayHold (late sys commands) (late_at commands at) steps) (late_at commands at steps) (Some request) }
{}

/// If the access of each step is settled late, a system that carries out each command as a whole, at any step up to the next fence, ends in
/// the run's state and gives its answers.
pub fn carried_runs_agree<S, T, R, K, E, L, A, C>()
    ensures state { (sys : System S T R K E L A) (commands : Commands S T E C) → DropsNamed sys commands → (run : Run S T K E A) → IsRun sys run →
        (chosen : List ((T × List Bool) × Choice R K)) → AreSettled (late sys commands) (late_at commands run.at) (plain_steps (steps_of chosen)) →
        (end_as (carrying sys commands) (record { now = run.at []; due = [] }) chosen).state.now ≡ run.at (plain_steps (steps_of chosen)) }
    ensures replies { (sys : System S T R K E L A) (commands : Commands S T E C) → DropsNamed sys commands → (run : Run S T K E A) → IsRun sys run →
        (chosen : List ((T × List Bool) × Choice R K)) → AreSettled (late sys commands) (late_at commands run.at) (plain_steps (steps_of chosen)) →
        replies_as (carrying sys commands) (record { now = run.at []; due = [] }) chosen ≡ replies_in run.tells (plain_steps (steps_of chosen)) }
{}

/// A run with pauses is one of the system that may also pause; and if the system drops at once just what its commands name, so does that one. A run is
/// one of the system, too, that reads ahead by memory alone (`alone`).
pub fn runs_may_pause<S, T, R, K, E, L, A, C>()
    ensures run { (sys : System S T R K E L A) (run : Run S T K E A) → IsRun sys run → IsRun (paused sys) (paused_run run) }
    ensures named { (sys : System S T R K E L A) (commands : Commands S T E C) → DropsNamed sys commands → DropsNamed (paused sys) (paused_commands commands) }
    ensures alone { (sys : System S T R K E L A) (run : Run S T K E A) → IsRun sys run → IsRun (alone sys) run }
{}

/// What may be held late between two steps, however often the system pauses there, from step to step: as `fences_leave_what_outlasts` has it, and a
/// pause adds what is read ahead, over all that may be held by then, to what is held and outlasts the next fence. No more may be held than lists have
/// to which a further pause adds nothing (`all`, at the start `none`). And whether a request is settled after any pauses depends on what may be held
/// then alone.
pub fn pauses_add_what_is_read_ahead<S, T, R, K, E, L, A, C>()
    ensures fence { (sys : System S T R K E L A) (commands : Commands S T E C) (at : List T → S) (last : T) (steps : List T) (entry : E) →
        is_fence_by commands (commands.executed (at steps) last) ≡ true →
        MayHoldPaused sys commands at (last ∷ steps) entry → MayOutlastPaused sys commands at (last ∷ steps) entry }
    ensures outlasting { (sys : System S T R K E L A) (commands : Commands S T E C) (at : List T → S) (steps : List T) (entry : E) →
        MayOutlastPaused sys commands at steps entry → MayHoldPaused sys commands at steps entry }
    ensures held { (sys : System S T R K E L A) (commands : Commands S T E C) (at : List T → S) (last : T) (steps : List T) (entry : E) →
        is_fence_by commands (commands.executed (at steps) last) ≡ false →
        MayHoldPaused sys commands at steps entry ⊎ IsRead sys (MayHoldPaused sys commands at steps) (at steps) last entry →
        MayHoldPaused sys commands at (last ∷ steps) entry }
    ensures outlasts { (sys : System S T R K E L A) (commands : Commands S T E C) (at : List T → S) (last : T) (steps : List T) (entry : E) →
        named_by commands (commands.executed (at steps) last) entry ≡ false →
        MayOutlastPaused sys commands at steps entry ⊎ IsRead sys (MayHoldPaused sys commands at steps) (at steps) last entry →
        MayOutlastPaused sys commands at (last ∷ steps) entry }
    ensures ahead { (sys : System S T R K E L A) (commands : Commands S T E C) (at : List T → S) (steps : List T) (entry : E) →
        IsReadAhead sys (MayHoldPaused sys commands at steps) (at steps) entry → MayOutlastPaused sys commands at steps entry }
    ensures none { (sys : System S T R K E L A) (commands : Commands S T E C) (at : List T → S) (held : List E) →
        ((entry : E) → IsReadAhead sys (IsAmong held) (at []) entry → IsAmong held entry) → (entry : E) → MayHoldPaused sys commands at [] entry → IsAmong held entry }
    ensures all { (sys : System S T R K E L A) (commands : Commands S T E C) (at : List T → S) (last : T) (steps : List T) (held outlasting : List E) →
        HaveStep sys commands at last steps held outlasting → (entry : E) →
        (MayHoldPaused sys commands at (last ∷ steps) entry → IsAmong held entry) × (MayOutlastPaused sys commands at (last ∷ steps) entry → IsAmong outlasting entry) }
    ensures settled { (sys : System S T R K E L A) (commands : Commands S T E C) (at : List T → S) (steps : List (Option T)) (request : Option R) →
        IsSettled sys (MayHoldPaused sys commands at (taken steps)) (at (taken steps)) request →
        IsSettled (late (paused sys) (paused_commands commands)) (MayHold (late (paused sys) (paused_commands commands)) (late_at (paused_commands commands) (paused_at at)) steps)
        (late_at (paused_commands commands) (paused_at at) steps) request }
    ensures used { (sys : System S T R K E L A) (commands : Commands S T E C) (at : List T → S) (steps : List T) (source : List (K × E)) →
        EachUse (MayHoldPaused sys commands at steps) source → AreHeldTogether sys commands at steps source }
{}

/// Where nothing is read between a command and its fence, and none is pending, no more may be held late than at once: and what is settled at
/// once is settled late.
pub fn prompt_fences_are_at_once<S, T, R, K, E, L, A, C>()
    ensures held { (sys : System S T R K E L A) (commands : Commands S T E C) → DropsNamed sys commands → (at : List T → S) (steps : List T) →
        IsPrompt sys commands at steps → pending_at commands at steps ≡ [] → (held : E × ℕ) →
        MayHold (late sys commands) (late_at commands at) steps held → MayHold sys at steps held.0 }
    ensures settled { (sys : System S T R K E L A) (commands : Commands S T E C) → DropsNamed sys commands → (at : List T → S) (steps : List T) →
        IsPrompt sys commands at steps → pending_at commands at steps ≡ [] → (request : Option R) → IsSettled sys (MayHold sys at steps) (at steps) request →
        IsSettled (late sys commands) (MayHold (late sys commands) (late_at commands at) steps) (late_at commands at steps) request }
{}

/// A run is that of a system that carries out each command as a whole, in its own step, and holds exactly what the run caches.
pub fn carried_model_is_one<S, T, R, K, E, L, A, C>()
    ensures { (sys : System S T R K E L A) (commands : Commands S T E C) → DropsNamed sys commands → (run : Run S T K E A) → IsRun sys run →
        (steps : List T) → DoesAlikeCarried sys commands run steps }
{}

/// A trace is allowed exactly if the fold over it leaves something that the system may be: a state, with all that it can hold there. `fits` says
/// whether an answer agrees with what was seen of it, which may be a part of it or nothing. These requests may be read ahead.
pub fn traces_are_decided<S, T, R, K, E, L, A, O>()
    ensures { (sys : System S T R K E L A) (tree : S → R → Tree K E L) → AreTrees sys tree → (requests : List R) → AreAhead sys requests →
        (fits : A → O → Bool) (start : S) (trace : List (T × O)) →
        is_any (possible_after sys tree requests fits start trace) ≡ true ↔ IsAllowed sys fits start trace }
{}

/// The same, if at most `most` of the hidden steps may come unseen before each that was seen, and if what is possible is thinned at each.
pub fn unseen_steps_are_decided<S, T, R, K, E, L, A, O>()
    ensures { (sys : System S T R K E L A) (tree : S → R → Tree K E L) → AreTrees sys tree → (requests : List R) → AreAhead sys requests →
        (fits : A → O → Bool) (hidden : List T) (most : ℕ) (thin : List (Holder S E) → List (Holder S E)) → IsThinning thin →
        (start : S) (trace : List (T × O)) →
        is_any (possible_with sys tree requests fits hidden most thin start trace) ≡ true ↔ IsAllowedUnseen sys fits hidden most start trace }
{}

/// Taking out, by a test, what is no more than one that is left is a thinning.
pub fn thinning_by_a_test<S, E>()
    ensures { (is_more : Holder S E → Holder S E → Bool) → ((one more : Holder S E) → is_more one more ≡ true → IsMore one more) →
        IsThinning (thinned is_more) }
{}

/// A run's own trace is allowed; and a trace whose accesses are all settled is allowed only with the run's answers.
pub fn the_model_is_allowed<S, T, R, K, E, L, A, O>()
    ensures own { (sys : System S T R K E L A) (run : Run S T K E A) → IsRun sys run → (fits : A → O → Bool) (trace : List (T × O)) →
        AllSeen fits (replies_in run.tells (steps_in trace)) trace → IsAllowed sys fits (run.at []) trace }
    ensures settled { (sys : System S T R K E L A) (run : Run S T K E A) → IsRun sys run → (fits : A → O → Bool) (trace : List (T × O)) →
        AreSettled sys run.at (steps_in trace) → IsAllowed sys fits (run.at []) trace → AllSeen fits (replies_in run.tells (steps_in trace)) trace }
{}

/// What a decider keeps beside a trace, as lists in any order: it begins with the start; behind each step it is like all that may come behind
/// what was kept; two such lists together are what may be after the traces of either. And then it decides.
pub fn deciders_decide<S, T, R, K, E, L, A, O>()
    ensures begins { (sys : System S T R K E L A) (fits : A → O → Bool) (start : S) →
        ArePossible sys fits start ([] ∷ []) (record { state = start; holds = [] } ∷ []) }
    ensures goes_on { (sys : System S T R K E L A) (tree : S → R → Tree K E L) → AreTrees sys tree → (requests : List R) → AreAhead sys requests → (fits : A → O → Bool) (start : S)
        (traces : List (List (T × O))) (list : List (Holder S E)) → ArePossible sys fits start traces list → (seen : T × O) (next : List (Holder S E)) →
        AreAlike next (flat_map (possible_behind sys tree requests fits seen) list) → ArePossible sys fits start (onward seen traces) next }
    ensures joins { (sys : System S T R K E L A) (fits : A → O → Bool) (start : S) (traces others : List (List (T × O))) (list more : List (Holder S E)) →
        ArePossible sys fits start traces list → ArePossible sys fits start others more → ArePossible sys fits start (traces ++ others) (list ++ more) }
    ensures decides { (sys : System S T R K E L A) (fits : A → O → Bool) (start : S) (traces : List (List (T × O))) (list : List (Holder S E)) →
        ArePossible sys fits start traces list → (is_any list ≡ true) ↔ IsOneAllowed sys fits start traces }
{}

/// A run is one of the thorough system too, if each entry that it caches is marked: with fences that take out, with an entry that a command names,
/// what was made from it since.
pub fn runs_are_thorough<S, T, R, K, E, L, A, C>()
    ensures { (sys : System S T R K E L A) (commands : Commands S T E C) (making : Making E) (tree : S → R → Tree K E L) → AreTrees sys tree → DropsNamed sys commands →
        (run : Run S T K E A) → IsRun sys run → IsThoroughRun sys commands making tree run }
{}

/// The walks of a thorough system are the trees that define them, and lead where those of the system do.
pub fn thorough_walks_are_trees<S, T, R, K, E, L, A, C>()
    ensures trees { (sys : System S T R K E L A) (commands : Commands S T E C) (making : Making E) (tree : S → R → Tree K E L) → AreTrees sys tree →
        AreTrees (thorough sys commands making tree) (thorough_tree commands making tree) }
    ensures led { (sys : System S T R K E L A) (commands : Commands S T E C) (making : Making E) (tree : S → R → Tree K E L) → AreTrees sys tree →
        (state : Late S C) (source : List (K × (E × Option ℕ))) (request : R) →
        ((thorough sys commands making tree).way state source request).led ≡ (sys.way state.now (unmarked source) request).led }
{}

/// The same of a system whose commands take effect late and whose fences are thorough: what a decider keeps has no marks. Of each state it keeps what
/// can be held there, and what of that a fence leaves which comes now. A list that is alike is as good (`thins`), so what is no more than another may
/// be taken out.
pub fn thorough_deciders_decide<S, T, R, K, E, L, A, C, O>()
    ensures begins { (sys : System S T R K E L A) (commands : Commands S T E C) (making : Making E) (tree : S → R → Tree K E L) (fits : A → O → Bool) (start : S) →
        AreMarked sys commands making tree fits start ([] ∷ []) (record { state = start; holds = []; outlasts = [] } ∷ []) }
    ensures goes_on { (sys : System S T R K E L A) (commands : Commands S T E C) (making : Making E) (tree : S → R → Tree K E L) → AreTrees sys tree →
        (requests : List R) → AreAhead (thorough sys commands making tree) requests →
        (fits : A → O → Bool) (start : S) (traces : List (List (T × O))) (list : List (Marked S E)) → AreMarked sys commands making tree fits start traces list →
        (seen : T × O) (next : List (Marked S E)) → AreMarkedAlike next (flat_map (marked_behind sys commands making tree requests fits seen) list) →
        AreMarked sys commands making tree fits start (onward seen traces) next }
    ensures joins { (sys : System S T R K E L A) (commands : Commands S T E C) (making : Making E) (tree : S → R → Tree K E L) (fits : A → O → Bool) (start : S)
        (traces others : List (List (T × O))) (list more : List (Marked S E)) → AreMarked sys commands making tree fits start traces list →
        AreMarked sys commands making tree fits start others more → AreMarked sys commands making tree fits start (traces ++ others) (list ++ more) }
    ensures thins { (sys : System S T R K E L A) (commands : Commands S T E C) (making : Making E) (tree : S → R → Tree K E L) (fits : A → O → Bool) (start : S)
        (traces : List (List (T × O))) (list few : List (Marked S E)) → AreMarked sys commands making tree fits start traces list → AreMarkedAlike few list →
        AreMarked sys commands making tree fits start traces few }
    ensures decides { (sys : System S T R K E L A) (commands : Commands S T E C) (making : Making E) (tree : S → R → Tree K E L) (fits : A → O → Bool) (start : S)
        (traces : List (List (T × O))) (list : List (Marked S E)) → AreMarked sys commands making tree fits start traces list →
        (is_any list ≡ true) ↔ IsOneAllowed (thorough sys commands making tree) fits (late_from start) traces }
{}
