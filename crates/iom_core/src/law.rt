ghost use Rattle.std.specs.Prelude.{ℕ, List};
ghost use Rattle.iom_core.specs.declared.access.Request.{Request};
ghost use Rattle.iom_core.specs.State.{State};
ghost use Rattle.iom_core.specs.Warrants.{AreWarranted, IsExplained, IsUncached, IsUpToDate, IsWarrant};
ghost use Rattle.iom_core.specs.declared.step.Step.{Step};
ghost use Rattle.iom_core.specs.declared.warrant.Warrant.{Warrant};

/// The law that every list of steps obeys: from each state whose caches hold nothing what an access used has a warrant, and a
/// warrant, wherever it comes from, is no older than each full invalidation that is complete: so each access is denied or has a
/// warrant that is up to date.
pub fn freshness()
    ensures warranted { (start : State) (steps : List Step) → IsUncached start → (n : ℕ) → IsExplained start steps n }
    ensures up_to_date { (start : State) (steps : List Step) (n : ℕ) (request : Request) (warrant : Warrant) →
        IsWarrant start steps n request warrant → IsUpToDate start steps n request warrant }
    ensures accesses { (start : State) (steps : List Step) → IsUncached start → AreWarranted start steps }
{}
