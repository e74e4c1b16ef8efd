//! What the line `owed` is answered.

ghost use Rattle.iom_tool.specs.Room.{answer_room};
ghost use Rattle.std.specs.Prelude.{◌≡◌, ◌++◌, ◌≤◌, codes, length, take};
ghost use Rattle.iom_text.specs.Texts.{numeral};
ghost use Rattle.iom_debug.specs.Marks.{named_at};
ghost use Rattle.iom_debug.specs.Owing.{NamesFirst, first_request, made_text, owed_text, unknown_text};
ghost use Rattle.iom_debug.specs.Settling.{elsewhere_at};

use crate::invalidations::Invalidation;
use crate::marks::{Marks, put_name};
use crate::page::{OutputPage, put, put_number};
use crate::reasons::LineAccount;
use crate::settling::{put_elsewhere_at, request_line};
use crate::text::{cut_to_room, reply_of};
use iom_core::{Platform, Request};
use iom_owed::{Made, Owed};
use iom_tool::Reply;

/// The answer to a line.
#[derive(Drop)]
pub struct LineAnswer {
    /// Its text; empty if the line has no answer.
    pub text: Reply,
    /// The request that the answer to `owed` names: the first of those that are owed. None if none is, if it isn't known, and of any other line.
    pub first_owed: Option<Request>,
}

impl LineAnswer {
    ghost use Rattle.std.specs.Prelude.{◌≡◌, None};

    /// An answer that names no request as owed.
    pub(crate) fn plain(text: Reply) -> LineAnswer
        ensures text { result.text ≡ text }
        ensures none { result.first_owed ≡ None }
    {
        LineAnswer {
            text,
            first_owed: None,
        }
    }
}

// Appends a request and the name of the line that made it.
#[tactic(auto, unfolding(crate::specs::Owing::made_text))]
fn put_made(out: &mut OutputPage, marks: &Marks, made: &Made)
    requires { length out.old.items ≤ 40 }
    ensures text { out.new.items ≡ out.old.items ++ made_text (named_at marks.now made.now.number) made.now }
    ensures room { length out.new.items ≤ 2200 }
{
    put(out, request_line(&made.request).as_slice());
    put(out, b", as in ");
    put_name(out, marks, made.number);
    put(out, b",");
}

// Puts how many requests are owed, and the first of them, with the line that made it.
fn put_head(out: &mut OutputPage, marks: &Marks, count: u64, first: &Made)
    requires { length out.old.items ≡ 0 }
    ensures text { out.new.items ≡ out.old.items
        ++ (numeral 10 count ++ codes ", the first " ++ made_text (named_at marks.now first.now.number) first.now) }
    ensures room { length out.new.items ≤ 2200 }
{
    put_number(out, count);
    put(out, b", the first ");
    put_made(out, marks, first);
}

// How many requests are owed, and the first of them.
fn first_text(marks: &Marks, last: Option<Invalidation>, count: u64, first: &Owed) -> Reply
    ensures { result.items ≡ take answer_room (numeral 10 count ++ codes ", the first "
        ++ made_text (named_at marks.now first.now.made.number) first.now.made
        ++ elsewhere_at marks.now last first.now.unsettled first.now.made.request.iova) }
{
    let mut page = OutputPage::new();
    put_head(&mut page, marks, count, &first.made);
    put_elsewhere_at(
        &mut page,
        marks,
        last,
        &first.unsettled,
        first.made.request.iova,
    );
    cut_to_room(page.as_slice())
}

// What is owed, by how many and the first.
#[tactic(auto, unfolding(crate::specs::Owing::owed_text))]
fn owed_text(marks: &Marks, last: Option<Invalidation>, owed: &[Owed]) -> Reply
    ensures { result.items ≡ owed_text marks.now last owed.now }
{
    match owed {
        [first, ..] => first_text(marks, last, owed.len() as u64, first),
        [] => reply_of(b"none"),
    }
}

// The first of some requests that are owed.
fn first_request(owed: &[Owed]) -> Option<Request>
    ensures { result ≡ first_request owed.now }
{
    match owed {
        [first, ..] => Some(first.made.request),
        [] => None,
    }
}

/// Why it isn't known what any IOMMU may hold.
pub fn unknown_text(reasons: &LineAccount) -> Reply
    ensures { result.items ≡ unknown_text reasons.now.settling }
{
    if reasons.tells_settled() {
        reply_of(b"unknown, memory was refused")
    } else {
        reply_of(b"unknown, it needs --settled")
    }
}

/// What is owed now, at most `ANSWER_ROOM` bytes, with lines named as they stand: `none`, or how many requests and the first, as `2, the first read 0x40202000 of device 5, as in line 12,
/// may still go to addr=0x80011000, read in line 3, the tables now say denied 13`, and what `put_invalidation` tells. Where what any IOMMU may hold isn't
/// kept, it is `unknown, it needs --settled`; where memory was refused, `unknown, memory was refused`.
#[tactic(auto, using(crate::proofs::Owed::owed_named, crate::proofs::Owed::unknown_named))]
pub fn owed_line(platform: &Platform, reasons: &LineAccount, marks: &Marks) -> LineAnswer
    ensures { NamesFirst marks.now reasons.now.last_invalidation reasons.now.settling platform.now result.text.items result.first_owed }
{
    match reasons.owed_now(platform) {
        Some(owed) => LineAnswer {
            text: owed_text(marks, reasons.last_invalidation(), owed.as_slice()),
            first_owed: first_request(owed.as_slice()),
        },
        None => LineAnswer::plain(unknown_text(reasons)),
    }
}
