//! What a history and an account mean if others write memory between steps.

ghost use Rattle.std.specs.Prelude.{ℕ, ◌≡◌, ◌++◌, [], ◌∷◌, List, Option, length};
ghost use Rattle.iom_mem.specs.Memory.{Memory};
ghost use Rattle.iom_ddt.specs.declared.context.Context.{Context};
ghost use Rattle.iom_nested.specs.declared.translation.Hit.{Hit};
ghost use Rattle.iom_cache.specs.declared.key.Key.{Key};
ghost use Rattle.iom_core.specs.Others.{IsWritten};
ghost use Rattle.iom_core.specs.State.{State};
ghost use Rattle.iom_core.specs.Table.{next, with_memory};
ghost use Rattle.iom_core.specs.declared.step.Step.{Step};
ghost use Rattle.iom_account.specs.Account.{AccountView, Accounts, CountsStep};
ghost use Rattle.iom_account.specs.Following.{ComesFrom, ContextFrom, Follows, HistoryView, PageFrom};
ghost use Rattle.iom_account.specs.Others.{AccountsAmong, ComesFromPassed, Counted, Event, FollowsAmong, IsNamed, Written, numbers_among, steps_among};
ghost use Rattle.iom_account.specs.declared.origin.NumberedWarrant.{NumberedWarrant};

/// The law of a history and an account of steps between which others write memory, any bytes at any moments. Both begin as without
/// them. A step goes on by what `History::step_on` ensures in `follows`, or `Account::step_on` in `state` and `counted`. What others write
/// leaves them as they are, and takes no number. So the origin of each step, as `step_on` ensures it in `origin`, is a warrant in the
/// states that were really passed, and each number in it is one that the caller gave to a step; so are the numbers of the steps that
/// filled what the caches hold, and those in each reason that an account has. The function does nothing.
pub fn others_are_not_counted()
    ensures begins { (history : HistoryView) (platform : State) → Follows history platform platform [] [] →
        FollowsAmong history platform platform [] }
    ensures counted { (history after : HistoryView) (platform left start : State) (events : List Event) (step : Step) (number : ℕ) →
        FollowsAmong history platform start events →
        Follows after left start (steps_among events ++ step ∷ []) (numbers_among events ++ number ∷ []) →
        FollowsAmong after left start (events ++ Counted step number ∷ []) }
    ensures written { (history : HistoryView) (platform start : State) (events : List Event) (memory : Memory) →
        FollowsAmong history platform start events → IsWritten platform.machine.memory memory →
        FollowsAmong history (with_memory platform memory) start (events ++ Written memory ∷ []) }
    ensures origin { (history : HistoryView) (platform start : State) (events : List Event) (step : Step) (number : ℕ) (found : Option NumberedWarrant) →
        FollowsAmong history platform start events →
        ComesFrom start (steps_among events ++ step ∷ []) (numbers_among events ++ number ∷ []) (length (steps_among events)) found →
        ComesFromPassed start (events ++ Counted step number ∷ []) (length events) found }
    ensures context { (history : HistoryView) (platform start : State) (events : List Event) (did number : ℕ) (context : Context) →
        FollowsAmong history platform start events →
        (from : ContextFrom start (steps_among events) (numbers_among events) did context number) → IsNamed start events from.k number }
    ensures page { (history : HistoryView) (platform start : State) (events : List Event) (key : Key) (hit : Hit) (base walk : ℕ) →
        FollowsAmong history platform start events →
        (from : PageFrom start (steps_among events) (numbers_among events) key hit base walk) →
        IsNamed start events from.c base × IsNamed start events from.w walk }
    ensures account_begins { (account : AccountView) (platform : State) → Accounts account platform platform [] [] →
        AccountsAmong account platform platform [] }
    ensures account_counted { (before left : AccountView) (state new start : State) (events : List Event) (step : Step) (number : ℕ) →
        AccountsAmong before state start events → new ≡ (next state step).state → CountsStep before state step number left new →
        AccountsAmong left new start (events ++ Counted step number ∷ []) }
    ensures account_written { (account : AccountView) (platform start : State) (events : List Event) (memory : Memory) →
        AccountsAmong account platform start events → IsWritten platform.machine.memory memory →
        AccountsAmong account (with_memory platform memory) start (events ++ Written memory ∷ []) }
{}
