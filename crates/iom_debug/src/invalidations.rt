//! The last invalidation that steps carried out, and what is told of those behind the step that read an entry.

ghost use Rattle.std.specs.Prelude.{◌≡◌, ◌+◌, ◌++◌, ◌≤◌, Some, length};
ghost use Rattle.std.specs.Option.{option_map};
ghost use Rattle.iom_debug.specs.Invalidations.{command_told, fence_text, invalidation_after, invalidation_text, is_invalidation, missed_by, missed_text, misses};
ghost use Rattle.iom_debug.specs.Marks.{named_at};

use crate::entries::entry_line;
use crate::marks::{Marks, put_name};
use crate::page::{OutputPage, put};
use iom_every::{Entry, drops_entry};
use iom_items::command_line;
use iom_owed::{Kept, Unsettled};
use iom_queue::Command;

/// A command that a step carried out and that drops entries: IOTINVAL.VMA, IOTINVAL.GVMA ("IOTINVAL") or IODIR.INVAL_DDT ("IODIR").
#[derive(Clone, Copy)]
pub struct Invalidation {
    /// The command.
    pub command: Command,
    /// The number of its line, counted from 1 among all.
    pub number: u64,
}

// Whether a command is an invalidation.
fn is_invalidation(command: &Command) -> bool
    ensures { result ≡ is_invalidation command.now }
{
    match command {
        Command::Vma { .. } | Command::Gvma { .. } | Command::Iodir { .. } => true,
        Command::Fence { .. } => false,
    }
}

/// The last invalidation behind a step of the line of this number that executes this command, if it executes one; `last` is the last one before it.
pub(crate) fn invalidation_after(
    number: u64,
    command: Option<Command>,
    last: Option<Invalidation>,
) -> Option<Invalidation>
    ensures { result ≡ invalidation_after number command last }
{
    match command {
        Some(command) if is_invalidation(&command) => Some(Invalidation { command, number }),
        _ => last,
    }
}

// Whether an invalidation was carried out in a later line than the one that read an entry, and doesn't drop it.
fn misses(last: &Invalidation, kept: &Kept) -> bool
    ensures { result ≡ misses last.now kept.now }
{
    kept.number < last.number && !drops_entry(&last.command, &kept.entry)
}

// The last invalidation, if there is one and it misses the entry.
fn missed_by(last: Option<Invalidation>, kept: &Kept) -> Option<Invalidation>
    ensures { result ≡ missed_by last kept.now }
{
    match last {
        Some(last) if misses(&last, kept) => Some(last),
        _ => None,
    }
}

/// Appends the name of the line of this number, at most 2120 bytes, if there is one: its command names an entry and isn't fenced yet.
pub(crate) fn put_fence(out: &mut OutputPage, marks: &Marks, number: Option<u64>)
    requires { length out.old.items ≤ 34000 }
    ensures text { out.new.items ≡ out.old.items ++ fence_text (option_map (named_at marks.now) number) }
    ensures room { length out.new.items ≤ length out.old.items + 2120 }
{
    if let Some(number) = number {
        put(out, b", the invalidation of ");
        put_name(out, marks, number);
        put(out, b" isn't fenced yet");
    }
}

// Appends an invalidation that misses an entry, the name of its line, and the entry.
#[inline(never)]
fn put_last(out: &mut OutputPage, marks: &Marks, last: &Invalidation, entry: &Entry)
    requires { length out.old.items ≤ 34000 }
    ensures text { out.new.items ≡ out.old.items ++ missed_text (named_at marks.now) entry.now (Some last.now) }
    ensures room { length out.new.items ≤ length out.old.items + 2460 }
{
    put(out, b", ");
    put(out, command_line(&last.command).as_slice());
    put(out, b" of ");
    put_name(out, marks, last.number);
    put(out, b" misses the entry: ");
    put(out, entry_line(entry).as_slice());
}

// The same, if there is one.
fn put_missed(out: &mut OutputPage, marks: &Marks, last: Option<Invalidation>, entry: &Entry)
    requires { length out.old.items ≤ 34000 }
    ensures text { out.new.items ≡ out.old.items ++ missed_text (named_at marks.now) entry.now last }
    ensures room { length out.new.items ≤ length out.old.items + 2460 }
{
    if let Some(last) = last {
        put_last(out, marks, &last, entry);
    }
}

// Appends what is told of the invalidations behind the step that read this entry.
fn put_command(out: &mut OutputPage, marks: &Marks, last: Option<Invalidation>, kept: &Kept)
    requires { length out.old.items ≤ 34000 }
    ensures text { out.new.items ≡ out.old.items ++ command_told (named_at marks.now) last kept.now kept.now.unfenced }
    ensures room { length out.new.items ≤ length out.old.items + 2460 }
{
    match kept.unfenced {
        Some(_) => put_fence(out, marks, kept.unfenced),
        None => put_missed(out, marks, missed_by(last, kept), &kept.entry),
    }
}

/// Appends what is told of the invalidations behind the step that read the entry which alone leads a request elsewhere, at most 2460 bytes. If a command
/// names the entry and isn't fenced yet, it is its line, as `, the invalidation of line 14 isn't fenced yet`. If none names it, and the last invalidation was
/// carried out in a later line than the one that read the entry and doesn't drop it, it is that, as `, cmd vma av=0x0 page=0x0 pscv=0x1 pscid=0x4 gv=0x0
/// gscid=0x0 of line 9 misses the entry: a leaf of the first stage, level=0 page=0x40201 pscid=0x3 global=0x0`.
#[tactic(auto, unfolding(crate::specs::Invalidations::invalidation_text))]
pub fn put_invalidation(
    out: &mut OutputPage,
    marks: &Marks,
    last: Option<Invalidation>,
    unsettled: &Unsettled,
)
    requires { length out.old.items ≤ 34000 }
    ensures text { out.new.items ≡ out.old.items ++ invalidation_text (named_at marks.now) last unsettled.now.serving }
    ensures room { length out.new.items ≤ length out.old.items + 2460 }
{
    if let Some(kept) = &unsettled.serving {
        put_command(out, marks, last, kept);
    }
}
