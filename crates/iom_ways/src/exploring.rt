//! What is put in of a walk: the ways that held entries allow it, or the entries that it asks for.

ghost use Rattle.std.specs.Prelude.{◌≡◌, ◌∷◌, [], Bool, List, false, true, IfNone, IfOk, IfSome, OnOk};
ghost use Rattle.iom_choices.specs.Trees.{Ends};
ghost use Rattle.iom_held.specs.declared.kept.Kept.{Kept};
ghost use Rattle.iom_ways.specs.Asked.{Collects, Explores, IsDeep, answers};

use crate::adding::{put_entries, put_led};
use crate::asked::{Asked, put_usable};
use crate::ways::Ways;
use iom_core::Way;
use iom_every::Entry;
use iom_held::{HeldEntries, Kept};
use std::alloc::AllocError;

/// What is put in of a walk.
#[derive(Drop)]
pub(crate) struct Explored {
    /// The ways, unless entries are only asked for.
    pub ways: Ways,
    /// The entries that are asked for.
    pub asked: Vec<Kept>,
}

/// The held entries that are followed at this look-up: those that it may use. None if they are only asked for: then they are put in.
pub(crate) fn followed(
    out: &mut Explored,
    asks: bool,
    held: &HeldEntries,
    look: &Asked,
) -> Result<Option<Vec<Kept>>, AllocError>
    requires depth { IsDeep look.now }
    ensures followed { IfOk result (λ followed. IfSome followed (λ used.
        (asks ≡ false) × (out.new ≡ out.old) × Collects held.now (answers look.now) [] used.items)) }
    ensures asked { IfOk result (λ followed. IfNone followed
        ((asks ≡ true) × Collects held.now (answers look.now) out.old.asked.items out.new.asked.items)) }
{
    if asks {
        put_usable(&mut out.asked, held, look)?;
        return Ok(None);
    }
    let mut used = Vec::new(*out.asked.allocator());
    put_usable(&mut used, held, look)?;
    Ok(Some(used))
}

/// Puts in a way that leads there and reads these entries.
pub(crate) fn put_way(out: &mut Explored, led: Way, reads: &[Entry]) -> Result<(), AllocError>
    ensures { (asks : Bool) (held : List Kept) →
        OnOk result (Explores asks held (Ends (record { led = led; reads = reads.now })) out.old out.new) }
{
    put_led(&mut out.ways.led, &led)?;
    put_entries(&mut out.ways.reads, reads)?;
    Ok(())
}
