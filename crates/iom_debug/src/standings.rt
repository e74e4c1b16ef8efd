//! What the caches hold, beside the tables.

ghost use Rattle.iom_tool.specs.Room.{answer_room};
ghost use Rattle.std.specs.Prelude.{◌≡◌, ◌+◌, ◌++◌, ◌≤◌, codes, length};
ghost use Rattle.iom_bits.specs.Causes.{cause_number};
ghost use Rattle.iom_text.specs.Texts.{numeral};
ghost use Rattle.iom_core.specs.declared.way.Way.TheVariants.{Walked};
ghost use Rattle.iom_debug.specs.Ways.{found_text, id_operand, page_text, stale_context_text, stale_page_text};

use crate::text::{push_cause, push_operand, push_text, reply_of};
use iom_bits::{Cause, Kind, flag};
use iom_cache::key_of;
use iom_core::Platform;
use iom_ddt::{Context, ContextFormat};
use iom_items::context_line;
use iom_nested::Hit;
use iom_tables::{Located, Standing, Way, stale_context, stale_page};
use iom_tool::Reply;

/// Whether the directory says now what place `i` of the context cache holds: `same`, or what it says.
pub fn context_standing_line(platform: &Platform, i: u64) -> Reply
    ensures { result.items ≡ stale_context_text platform.now.machine i }
{
    match stale_context(platform, i) {
        Standing::Beyond => reply_of(b"none"),
        Standing::Empty => reply_of(b"empty"),
        Standing::Current => reply_of(b"same"),
        Standing::Stale(found) => {
            found_line(ContextFormat::of(platform.registers().features()), &found)
        }
    }
}

/// Whether the tables say now what place `i` of the translation cache holds: `same`, or what they say.
pub fn page_standing_line(platform: &Platform, i: u64) -> Reply
    ensures { result.items ≡ stale_page_text platform.now.machine i }
{
    match stale_page(platform, i) {
        Standing::Beyond => reply_of(b"none"),
        Standing::Empty => reply_of(b"empty"),
        Standing::Current => reply_of(b"same"),
        Standing::Stale(way) => way_line(&way),
    }
}

// What the directory says of a device.
fn found_line(format: ContextFormat, found: &Located) -> Reply
    ensures { result.items ≡ found_text format found.now }
{
    match found {
        Located::NoDirectory => reply_of(b"no directory"),
        Located::Context(context) => reply_of(context_line(format, context).as_slice()),
        Located::Fault(cause) => denied_line(*cause),
    }
}

// A denial by its cause.
fn denied_line(cause: Cause) -> Reply
    ensures { result.items ≡ codes "denied " ++ numeral 10 (cause_number cause) }
{
    let mut out = Reply::new();
    push_cause(&mut out, cause);
    out
}

// What the tables say of a page.
fn way_line(way: &Way) -> Reply
    ensures { result.items ≡ page_text way.now }
{
    match way {
        Way::Register => reply_of(b"register"),
        Way::Context(_) => reply_of(b"context"),
        Way::Walked(context, hit) => walked_line(context, hit),
        Way::Denied(denial) => denied_line(denial.cause),
    }
}

// A hit under a context, as a page of the translation cache has it.
#[tactic(auto, unfolding(iom_cache::specs::Keys::key_of))]
fn walked_line(context: &Context, hit: &Hit) -> Reply
    ensures { result.items ≡ page_text (Walked context.now hit.now) }
{
    let key = key_of(context, 0, 0, Kind::Read);
    let mut out = reply_of(b"page");
    push_id(&mut out, b"pscid", key.pscid);
    push_id(&mut out, b"gscid", key.gscid.map(|id| u32::from(id)));
    push_operand(&mut out, b"frame", hit.frame);
    push_operand(&mut out, b"level", u64::from(hit.level));
    push_operand(&mut out, b"global", flag(hit.global));
    if hit.napot {
        push_operand(&mut out, b"napot", 1);
    }
    out
}

// Appends an id, or `-` where there is none.
fn push_id(out: &mut Reply, key: &[u8], id: Option<u32>)
    requires { length out.old.items + length key.now + 20 ≤ answer_room }
    ensures text { out.new.items ≡ out.old.items ++ id_operand key.now id }
    ensures room { length out.new.items ≤ length out.old.items + length key.now + 20 }
{
    match id {
        Some(id) => push_operand(out, key, u64::from(id)),
        None => {
            push_text(out, b" ");
            push_text(out, key);
            push_text(out, b"=-");
        }
    }
}
