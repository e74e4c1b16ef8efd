ghost use Rattle.std.specs.Prelude.{◌≡◌, ℕ, List, Option, Some, false};
ghost use Rattle.std.specs.List.{AllZip, list_any};
ghost use Rattle.iom_reader.specs.Lines.{lines_of};
ghost use Rattle.iom_include.specs.Including.{StandsForItself, expanded, includes, standing};
ghost use Rattle.iom_include.specs.Placing.{StandsAt, places};

/// A script none of whose lines includes a text stands for itself: what `Including` gives of it has its lines, whichever texts there are, and
/// also if it isn't known which.
pub fn scripts_without_includes_stand_for_themselves()
    ensures { (known : Option (List ℕ → List ℕ)) (name script : List ℕ) → list_any includes (lines_of script) ≡ false →
        StandsForItself known name script }
{}

/// What stands for a script that is known, with texts that are: each of its lines, with the text of a file in place of one that includes it.
pub fn known_scripts_are_expanded()
    ensures { (texts : List ℕ → List ℕ) (name script : List ℕ) → standing (Some texts) (Some script) name ≡ Some (expanded texts name script) }
{}

/// Where the lines of such a script stand, one by one: as many places as lines, each the line of a text, or that line's comment if it
/// includes a text.
pub fn known_scripts_have_places()
    ensures { (texts : List ℕ → List ℕ) (name script : List ℕ) →
        AllZip (StandsAt texts script) (lines_of (expanded texts name script)) (places texts name script) }
{}
