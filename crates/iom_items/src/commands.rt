//! The lines of commands.

ghost use Rattle.std.specs.Prelude.{◌≡◌, ◌+◌, ◌≤◌, [], ◌∷◌, codes, length};
ghost use Rattle.iom_bits.specs.Bits.{flag};
ghost use Rattle.iom_queue.specs.Commands.{CommandFits, command_words};
ghost use Rattle.iom_queue.specs.declared.command.Command.TheVariants.{Vma, Gvma, Fence, Iodir};
ghost use Rattle.iom_ddt.specs.declared.formats.ContextFormat.{ContextFormat};
ghost use Rattle.iom_items.specs.declared.item.Item.TheVariants as item;
ghost use Rattle.iom_items.specs.Lines.{line_of, shown_of, with_operands};
ghost use Rattle.iom_items.specs.Reading.{command_text};

use crate::lines::{Line, line_from, push_operand};
use iom_bits::flag;
use iom_queue::Command;

// Appends the operands that an IOTINVAL ends with, of NL and S only those that are set.
fn push_ending(out: &mut Line, gv: bool, gscid: u16, nl: bool, s: bool)
    requires { length out.old.items ≤ 150 }
    ensures text { out.new.items ≡ with_operands out.old.items
        (shown_of ((codes "gv", flag gv) ∷ (codes "gscid", gscid) ∷ (codes "nl", flag nl) ∷ (codes "s", flag s) ∷ [])) }
    ensures room { length out.new.items ≤ length out.old.items + 90 }
{
    push_operand(out, b"gv", flag(gv));
    push_operand(out, b"gscid", u64::from(gscid));
    if nl {
        push_operand(out, b"nl", 1);
    }
    if s {
        push_operand(out, b"s", 1);
    }
}

// The line of an IOTINVAL.VMA.
#[tactic(auto, unfolding(crate::specs::Reading::command_text, crate::specs::Layouts::title_of))]
fn vma_line(
    av: bool,
    page: u64,
    pscv: bool,
    pscid: u32,
    gv: bool,
    gscid: u16,
    nl: bool,
    s: bool,
) -> Line
    ensures text { result.items ≡ command_text (Vma av page pscv pscid gv gscid nl s) }
    ensures short { length result.items ≤ 192 }
{
    let mut line = line_from(b"cmd vma");
    push_operand(&mut line, b"av", flag(av));
    push_operand(&mut line, b"page", page);
    push_operand(&mut line, b"pscv", flag(pscv));
    push_operand(&mut line, b"pscid", u64::from(pscid));
    push_ending(&mut line, gv, gscid, nl, s);
    line
}

// The line of an IOTINVAL.GVMA.
#[tactic(auto, unfolding(crate::specs::Reading::command_text, crate::specs::Layouts::title_of))]
fn gvma_line(av: bool, page: u64, pscid: u32, gv: bool, gscid: u16, nl: bool, s: bool) -> Line
    ensures text { result.items ≡ command_text (Gvma av page pscid gv gscid nl s) }
    ensures short { length result.items ≤ 192 }
{
    let mut line = line_from(b"cmd gvma");
    push_operand(&mut line, b"av", flag(av));
    push_operand(&mut line, b"page", page);
    push_operand(&mut line, b"pscid", u64::from(pscid));
    push_ending(&mut line, gv, gscid, nl, s);
    line
}

// The line of an IOFENCE.C.
#[tactic(auto, unfolding(crate::specs::Reading::command_text, crate::specs::Layouts::title_of))]
fn fence_line(av: bool, wsi: bool, pr: bool, pw: bool, value: u32, addr: u64) -> Line
    ensures text { result.items ≡ command_text (Fence av wsi pr pw value addr) }
    ensures short { length result.items ≤ 192 }
{
    let mut line = line_from(b"cmd fence");
    push_operand(&mut line, b"av", flag(av));
    push_operand(&mut line, b"wsi", flag(wsi));
    push_operand(&mut line, b"pr", flag(pr));
    push_operand(&mut line, b"pw", flag(pw));
    push_operand(&mut line, b"data", u64::from(value));
    push_operand(&mut line, b"addr", addr);
    line
}

// The line of an IODIR.INVAL_DDT.
#[tactic(auto, unfolding(crate::specs::Reading::command_text, crate::specs::Layouts::title_of))]
fn iodir_line(dv: bool, did: u32) -> Line
    ensures text { result.items ≡ command_text (Iodir dv did) }
    ensures short { length result.items ≤ 192 }
{
    let mut line = line_from(b"cmd iodir");
    push_operand(&mut line, b"dv", flag(dv));
    push_operand(&mut line, b"did", u64::from(did));
    line
}

/// The line of a command: `cmd`, its name and its operands, at most 192 bytes, without a line end. If its operands fit their fields, it is the line of
/// its words.
pub fn command_line(command: &Command) -> Line
    ensures text { result.items ≡ command_text command.now }
    ensures words { (format : ContextFormat) → CommandFits command.now → result.items ≡ line_of format item.Cmd (command_words command.now) }
    ensures short { length result.items ≤ 192 }
{
    line_by_name(command)
}

// As `command_line`, by the command's name.
fn line_by_name(command: &Command) -> Line
    ensures text { result.items ≡ command_text command.now }
    ensures short { length result.items ≤ 192 }
{
    match *command {
        Command::Vma {
            av,
            page,
            pscv,
            pscid,
            gv,
            gscid,
            nl,
            s,
        } => vma_line(av, page, pscv, pscid, gv, gscid, nl, s),
        Command::Gvma {
            av,
            page,
            pscid,
            gv,
            gscid,
            nl,
            s,
        } => gvma_line(av, page, pscid, gv, gscid, nl, s),
        Command::Fence {
            av,
            wsi,
            pr,
            pw,
            value,
            addr,
        } => fence_line(av, wsi, pr, pw, value, addr),
        Command::Iodir { dv, did } => iodir_line(dv, did),
    }
}
