ghost use Rattle.std.specs.Prelude.{ℕ, ◌≡◌, List, map};
ghost use Rattle.iom_core.specs.Others.{AreWritten, Happening, IsAnswered, IsWarranted, Took, end_after, steps_of};
ghost use Rattle.iom_core.specs.Run.{end_of};
ghost use Rattle.iom_core.specs.State.{State};
ghost use Rattle.iom_core.specs.Warrants.{IsUncached};
ghost use Rattle.iom_core.specs.declared.step.Step.{Step};

/// The law of memory that others write too, at any moments between steps and any bytes at once: what they write a hart could have
/// stored. So whatever happens ends as the steps do that stand for it, and each step is answered as among these; from a state whose
/// caches hold nothing each access is denied or has a warrant among them that is up to date; and a list of steps stands for itself. The
/// function does nothing.
pub fn others_write()
    ensures end { (start : State) (happenings : List Happening) → AreWritten start happenings →
        end_after start happenings ≡ end_of start (steps_of happenings) }
    ensures answers { (start : State) (happenings : List Happening) → AreWritten start happenings →
        (n : ℕ) → IsAnswered start happenings n }
    ensures warranted { (start : State) (happenings : List Happening) → AreWritten start happenings → IsUncached start →
        (n : ℕ) → IsWarranted start happenings n }
    ensures alone { (steps : List Step) → steps_of (map Took steps) ≡ steps }
{}
