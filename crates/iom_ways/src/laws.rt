ghost use Rattle.std.specs.Prelude.{List, []};
ghost use Rattle.iom_choices.specs.Trees.{ways_over};
ghost use Rattle.iom_core.specs.State.{State};
ghost use Rattle.iom_core.specs.declared.access.Request.{Request};
ghost use Rattle.iom_every.specs.Trees.{tree_of};
ghost use Rattle.iom_every.specs.Ways.{way_of};
ghost use Rattle.iom_every.specs.declared.entry.Entry.{Entry};
ghost use Rattle.iom_ways.specs.Ways.{BeginsWith};

/// Whatever is held, the first of the ways of a request's tree is that of memory alone, so it is among those that are put in. A request is settled
/// if each of the others leads where this one leads.
pub fn memory_leads_first()
    ensures { (held : List Entry) (state : State) (request : Request) →
        BeginsWith (way_of state [] request) (ways_over held (tree_of state request)) }
{}
