ghost use Rattle.std.specs.Prelude.{◌≡◌, ◌/◌, ℕ, Bool, true, false, List, Option, Some, None, Ok};
ghost use Rattle.iom_bits.specs.Bits.{has_bit};
ghost use Rattle.iom_bits.specs.declared.causes.Kind.{Kind};
ghost use Rattle.iom_bits.specs.Features.{Features};
ghost use Rattle.iom_mem.specs.Memory.{Memory};
ghost use Rattle.iom_regs.specs.Views.{mode_of};
ghost use Rattle.iom_regs.specs.declared.views.Mode.TheVariants.{Levels};
ghost use Rattle.iom_ddt.specs.Contexts.{is_bare};
ghost use Rattle.iom_ddt.specs.declared.context.Context.{Context};
ghost use Rattle.iom_walk.specs.declared.met.MetEntry.{MetEntry as Met};
ghost use Rattle.iom_walk.specs.Verdict.{is_valid, word_of};
ghost use Rattle.iom_walk.specs.declared.shape.Shape.{Shape};
ghost use Rattle.iom_nested.specs.Files.{file_place, file_word, is_of_file};
ghost use Rattle.iom_nested.specs.Stages.{first_shape_of, format_of, second_shape_of};
ghost use Rattle.iom_nested.specs.declared.translation.Hit.{Hit};
ghost use Rattle.iom_nested.specs.declared.translation.Reached.{Reached};
ghost use Rattle.iom_cache.specs.Keys.{gscid_of};
ghost use Rattle.iom_core.specs.Access.{request_key};
ghost use Rattle.iom_core.specs.State.{State};
ghost use Rattle.iom_core.specs.declared.access.Request.{Request};
ghost use Rattle.iom_core.specs.declared.step.Step.{Step};
ghost use Rattle.iom_choices.specs.Systems.{IsAmong};
ghost use Rattle.iom_every.specs.Entries.{Entry, Held, OfFile, OfFirst, OfPage, OfSecond, is_of_sixteen, kept_as, split};
ghost use Rattle.iom_every.specs.Every.{May, MayAhead};
ghost use Rattle.iom_every.specs.Guards.{IsReadAs, IsValid};
ghost use Rattle.iom_every.specs.Stages.{first_by, first_met, in_memory, stage_reads, translation_by};
ghost use Rattle.iom_every.specs.Uses.{Look, access_use, entry_use, file_use, page_use, used_by};
ghost use Rattle.iom_every.specs.Walks.{met};
ghost use Rattle.iom_every.specs.Ways.{directory_reads, entered, located_by, way_of};

/// No entry with V = 0 may be held ("Caching in-memory data structures"), also if memory is read ahead (`ahead`).
pub fn valid_entries_alone()
    ensures late { (ahead : Request → Bool) (start : State) (steps : List Step) (entry : Entry) → May ahead start steps entry → IsValid entry }
    ensures ahead { (ahead : Request → Bool) (start : State) (steps : List Step) (entry : Entry) → MayAhead ahead start steps entry → IsValid entry }
{}

/// Each valid entry that a translation meets is among the entries that it reads, with the ids of its context: entries of the first stage,
/// entries of the second stage for each of them, and for the access itself entries of the second stage, or that of an interrupt file.
pub fn met_entries_are_read()
    ensures first { (memory : Memory) (features : Features) (source : List (Look × Entry)) (context : Context) (iova : ℕ) (kind : Kind) (shape : Shape) (entry : Met) →
        first_shape_of context ≡ Some shape → IsAmong (first_met memory features source context iova shape) entry → is_valid (word_of entry.got) ≡ true →
        IsReadAs (OfFirst (gscid_of context) context.pscid) iova entry (stage_reads memory features source context iova kind) }
    ensures second { (memory : Memory) (features : Features) (source : List (Look × Entry)) (context : Context) (iova : ℕ) (kind : Kind) (shape second : Shape) (first entry : Met) →
        first_shape_of context ≡ Some shape → second_shape_of context ≡ Some second → IsAmong (first_met memory features source context iova shape) first →
        IsAmong (met (in_memory memory) (format_of features second) context.gppn first.place (used_by (entry_use context second first.level first.place) source)) entry →
        is_valid (word_of entry.got) ≡ true →
        IsReadAs (OfSecond context.gscid) first.place entry (stage_reads memory features source context iova kind) }
    ensures access { (memory : Memory) (features : Features) (source : List (Look × Entry)) (context : Context) (iova : ℕ) (kind : Kind) (second : Shape) (reached : Reached) (entry : Met) →
        second_shape_of context ≡ Some second → first_by memory features source context iova kind (first_shape_of context) ≡ Ok reached →
        is_of_file context.msi reached.addr ≡ false →
        IsAmong (met (in_memory memory) (format_of features second) context.gppn reached.addr (used_by (access_use context second reached.addr) source)) entry →
        is_valid (word_of entry.got) ≡ true →
        IsReadAs (OfSecond context.gscid) reached.addr entry (stage_reads memory features source context iova kind) }
    ensures file { (memory : Memory) (features : Features) (source : List (Look × Entry)) (context : Context) (iova : ℕ) (kind : Kind) (reached : Reached) (word : ℕ) →
        first_by memory features source context iova kind (first_shape_of context) ≡ Ok reached → is_of_file context.msi reached.addr ≡ true →
        used_by (file_use context reached.addr) source ≡ None → file_word memory (file_place context.msi reached.addr) ≡ Some word → has_bit word 0 ≡ true →
        IsAmong (stage_reads memory features source context iova kind) (OfFile context.gscid (reached.addr / 4096) word) }
{}

/// A request under a directory reads the entries of the directory that it meets. Under a context with a stage, if it uses no whole
/// translation, it also reads all that its translation reads, and the whole translation if there is a hit.
pub fn requests_read()
    ensures directory { (state : State) (source : List (Look × Entry)) (request : Request) (levels : ℕ) → mode_of state.machine.registers ≡ Levels levels →
        (entry : Entry) → IsAmong (directory_reads state.machine request.did (entered state.machine source request.did)) entry →
        IsAmong (way_of state source request).reads entry }
    ensures stages { (state : State) (source : List (Look × Entry)) (request : Request) (context : Context) (levels : ℕ) → mode_of state.machine.registers ≡ Levels levels →
        located_by state.machine request.did (entered state.machine source request.did) ≡ Ok context → is_bare context ≡ false →
        used_by (page_use (request_key request context)) source ≡ None →
        (entry : Entry) → IsAmong (stage_reads state.machine.memory state.machine.registers.features source context request.iova request.kind) entry → IsAmong (way_of state source request).reads entry }
    ensures whole { (state : State) (source : List (Look × Entry)) (request : Request) (context : Context) (levels : ℕ) (hit : Hit) → mode_of state.machine.registers ≡ Levels levels →
        located_by state.machine request.did (entered state.machine source request.did) ≡ Ok context → is_bare context ≡ false →
        used_by (page_use (request_key request context)) source ≡ None →
        translation_by state.machine.memory state.machine.registers.features source context request.iova request.kind ≡ Ok hit →
        IsAmong (way_of state source request).reads (OfPage (request_key request context) hit) }
{}

/// What a walk reads may be kept as it is; and a leaf of sixteen pages as an entry of each of them ("Svnapot").
pub fn read_entries_are_kept()
    ensures itself { (features : Features) (entry : Entry) → IsAmong (kept_as features entry) entry }
    ensures sixteen { (features : Features) (held : Held) (page : ℕ) → is_of_sixteen features held ≡ true → page / 16 ≡ held.part / 16 →
        IsAmong (split features held) (record held { part = page }) }
{}
