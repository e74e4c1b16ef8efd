ghost use Rattle.iom_tool.specs.Room.{answer_room};
ghost use Rattle.std.specs.Prelude.{◌≡◌, ◌+◌, ◌++◌, ◌<◌, ◌≤◌, length, codes};
ghost use Rattle.iom_text.specs.Texts.{hexadecimal};
ghost use Rattle.iom_tool.specs.Console.{console};
ghost use Rattle.iom_tool.specs.Debugger.{answer_in, context_place_text, id_text, kind_text, message_text, named, page_text, place_text, shown_text};

use crate::draft::ReplyDraft;
use crate::language::Question;
use crate::text::{push_hexadecimal, push_text, push_traced_step};
use crate::trace::Trace;
use iom_bits::{Features, Kind};
use iom_cache::{Key, Place};
use iom_core::Platform;
use iom_ddt::{Context, ContextFormat};
use iom_items::{Item, context_line, item_line_on};
use iom_mem::Ram;
use iom_messages::Message;
use iom_nested::Hit;

/// Puts the text of the answer to a question, below `ANSWER_ROOM` bytes and without a line end. Nothing is changed but `out`.
#[inline(never)]
pub fn push_answer_in(out: &mut ReplyDraft, platform: &Platform, trace: &Trace, question: Question)
    requires { length out.old ≡ 0 }
    ensures text { out.new ≡ out.old ++ answer_in (console platform.now trace.now) question }
    ensures room { length out.new < answer_room }
{
    match question {
        Question::Page(i) => push_place(out, platform.trans().place(i)),
        Question::Context(i) => {
            let format = ContextFormat::of(platform.registers().features());
            push_context_place(out, format, platform.contexts().place(i));
        }
        Question::Show(kind, addr) => {
            push_item(
                out,
                platform.ram(),
                platform.registers().features(),
                kind,
                addr,
            )
        }
        Question::Trace(i) => push_traced_step(out, trace.entry(i)),
        Question::Message(i) => push_message(out, platform.board.messages().get(i)),
    }
}

// Puts what stands at a place of the translation cache.
#[tactic(auto, unfolding(crate::specs::Debugger::place_text))]
fn push_place(out: &mut ReplyDraft, place: Place<Key, Hit>)
    requires { length out.old ≡ 0 }
    ensures text { out.new ≡ out.old ++ place_text place }
    ensures room { length out.new < answer_room }
{
    match place {
        Place::Beyond => push_text(out, b"none"),
        Place::Empty => push_text(out, b"empty"),
        Place::Live(key, hit) => push_page(out, key, hit),
    }
}

// Puts what stands at a place of the context cache.
#[tactic(auto, unfolding(crate::specs::Debugger::context_place_text))]
fn push_context_place(out: &mut ReplyDraft, format: ContextFormat, place: Place<u32, Context>)
    requires { length out.old ≡ 0 }
    ensures text { out.new ≡ out.old ++ context_place_text format place }
    ensures room { length out.new < answer_room }
{
    let (did, context) = match place {
        Place::Beyond => return push_text(out, b"none"),
        Place::Empty => return push_text(out, b"empty"),
        Place::Live(did, context) => (did, context),
    };
    push_text(out, b"did=");
    push_hexadecimal(out, u64::from(did));
    push_text(out, b" ");
    push_text(out, context_line(format, &context).as_slice());
}

// Puts the line of an item on an IOMMU with these features, or that a byte of it is outside memory.
fn push_item(out: &mut ReplyDraft, ram: &Ram, features: Features, kind: Item, addr: u64)
    requires { length out.old ≡ 0 }
    ensures text { out.new ≡ out.old ++ shown_text ram.now features kind addr }
    ensures room { length out.new < answer_room }
{
    match item_line_on(ram, features, kind, addr) {
        Some(line) => push_text(out, line.as_slice()),
        None => push_text(out, b"outside"),
    }
}

// Puts a message: its address and its value. `none` if there is no such message.
#[tactic(auto, unfolding(crate::specs::Debugger::message_text))]
fn push_message(out: &mut ReplyDraft, message: Option<Message>)
    requires { length out.old ≡ 0 }
    ensures text { out.new ≡ out.old ++ message_text message }
    ensures room { length out.new < answer_room }
{
    let Some(message) = message else {
        push_text(out, b"none");
        return;
    };
    push_text(out, b"addr=");
    push_hexadecimal(out, message.addr);
    push_named(out, b"data", u64::from(message.value));
}

// Puts an entry of the translation cache: its key and where it leads.
fn push_page(out: &mut ReplyDraft, key: Key, hit: Hit)
    requires { length out.old ≡ 0 }
    ensures text { out.new ≡ out.old ++ page_text key hit }
    ensures room { length out.new < answer_room }
{
    push_text(out, b"page");
    push_named(out, b"did", key.did as u64);
    push_id(out, b"pscid", key.pscid);
    push_id(out, b"gscid", key.gscid.map(|id| id as u32));
    push_named(out, b"page", key.page);
    push_kind(out, key.kind);
    push_named(out, b"frame", hit.frame);
    push_named(out, b"level", hit.level as u64);
    push_named(out, b"global", hit.global as u64);
    if hit.napot {
        push_named(out, b"napot", 1);
    }
}

// Appends a blank, a name, `=` and a number in hex.
fn push_named(out: &mut ReplyDraft, name: &[u8], number: u64)
    requires { length out.old + length name.now + 20 < answer_room }
    ensures text { out.new ≡ out.old ++ named name.now (hexadecimal number) }
    ensures room { length out.new ≤ length out.old + length name.now + 20 }
{
    push_text(out, b" ");
    push_text(out, name);
    push_text(out, b"=");
    push_hexadecimal(out, number);
}

// Appends a blank, a name, `=` and an id in hex, or `-` if the entry has none.
fn push_id(out: &mut ReplyDraft, name: &[u8], id: Option<u32>)
    requires { length out.old + length name.now + 20 < answer_room }
    ensures text { out.new ≡ out.old ++ named name.now (id_text id) }
    ensures room { length out.new ≤ length out.old + length name.now + 20 }
{
    match id {
        Some(id) => push_named(out, name, id as u64),
        None => {
            push_text(out, b" ");
            push_text(out, name);
            push_text(out, b"=-");
        }
    }
}

// Appends what an entry's access does.
fn push_kind(out: &mut ReplyDraft, kind: Kind)
    requires { length out.old + 11 < answer_room }
    ensures text { out.new ≡ out.old ++ named (codes "kind") (kind_text kind) }
    ensures room { length out.new ≤ length out.old + 11 }
{
    match kind {
        Kind::Read => push_text(out, b" kind=read"),
        Kind::Write => push_text(out, b" kind=write"),
    }
}
