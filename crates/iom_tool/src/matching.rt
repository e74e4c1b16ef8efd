//! A line and the rows of the table of forms.

ghost use Rattle.std.specs.Prelude.{◌≡◌, ◌≢◌, ◌+◌, ◌*◌, ◌^◌, ◌++◌, ◌∷◌, [], ◌<◌, ◌≤◌, ◌==◌, ◌&&◌, false, true, length, map, nat_le, nat_lt, get_or, IfSome, Some, None};
ghost use Rattle.std.specs.List.{AllByRecursion, list_any};
ghost use Rattle.std.specs.Option.{option_map};
ghost use Rattle.iom_text.specs.Words.{words_of};
ghost use Rattle.iom_tool.specs.Values.{nothing};
ghost use Rattle.iom_tool.specs.Script.{rows as table};
ghost use Rattle.iom_tool.specs.Script.{all_say, at, first_of, fitted, is_count, is_extent, is_limit, item_words, left, line_by, line_in, may_use, meaning, line_of as run_line_of, request_by, row, says, step_by, step_in, with_register};
ghost use Rattle.iom_tool.specs.Parsed.{Fits, InRange, IsShort, line_as, part_as, row_as};

use crate::data::put_bytes_of;
use crate::language::{Actor, Inquiry, Language, Line, Question};
use crate::names::{block_register_named, register_named};
use crate::rows::{Action, Form, Part, ROWS, Row};
use crate::script::put_step_of;
use arrayvec::ArrayVec;
use iom_bits::Kind;
use iom_core::{Request, Step};
use iom_ddt::ContextFormat;
use iom_items::words_for;
use iom_text::{is_over, take_number, take_word, words};
use std::marker::Model;

/// The longest line, in bytes without its end.
pub const MOST_BYTES_OF_A_LINE: usize = 512;

// What the operands of a line say.
#[derive(Drop)]
struct Values {
    numbers: ArrayVec<u64, 12>,
    bytes: ArrayVec<u8, 64>,
    items: ArrayVec<u64, 8>,
}

impl Model for Values {
    ghost use Rattle.iom_tool.specs.Values.{Values};

    ghost Value = { Values };

    ghost view = { λ said. record { numbers = said.numbers.items; bytes = said.bytes.items; items = said.items.items } };
}

impl Values {
    ghost use Rattle.std.specs.Prelude.{◌≡◌, ◌≢◌, ◌+◌, ◌++◌, ◌≤◌, length};
    ghost use Rattle.iom_tool.specs.Values.{nothing, with_number};
    ghost use Rattle.iom_tool.specs.Script.{at, with_register};

    // Nothing was said yet.
    fn new() -> Values
        ensures { result ≡ nothing }
    {
        Values {
            numbers: ArrayVec::new(),
            bytes: ArrayVec::new(),
            items: ArrayVec::new(),
        }
    }

    // A number, for which there is room.
    fn push(&mut self, number: u64)
        requires { length self.old.numbers + 1 ≤ 12 }
        ensures { self.new ≡ with_number self.old number }
    {
        self.numbers.push(number);
    }

    // The offset and the size of a register.
    fn push_register(&mut self, at: (u64, u64))
        requires { length self.old.numbers + 2 ≤ 12 }
        ensures { self.new ≡ with_register self.old at }
    {
        self.push(at.0);
        self.push(at.1);
    }

    // Operand `i`; 0 where there are fewer.
    fn at(&self, i: usize) -> u64
        ensures { result ≡ at self.now i }
    {
        self.numbers.get(i).copied().unwrap_or(0)
    }
}

// The words of an item.
#[tactic(auto, unfolding(crate::specs::Script::item_words), using(crate::proofs::Forms::enough_for_item))]
fn item_words(text: &[u8]) -> Option<ArrayVec<u64, 8>>
    ensures { option_map (λ items. items.items) result ≡ item_words (words_of text.now) }
{
    item_words_in(words(text).as_slice())
}

// As `item_words`, by its first words.
#[tactic(auto, unfolding(crate::specs::Script::item_words))]
fn item_words_in(words: &[&[u8]]) -> Option<ArrayVec<u64, 8>>
    ensures { option_map (λ items. items.items) result ≡ item_words (map (λ word. word.now) words.now) }
{
    let [name, operands @ ..] = words else {
        return None;
    };
    if operands.len() > 13 {
        return None;
    }
    words_for(ContextFormat::Base, name, operands)
}

impl Part {
    ghost use Rattle.std.specs.Prelude.{◌≡◌, ◌≢◌, ◌+◌, ◌≤◌, length, IfSome};
    ghost use Rattle.std.specs.Option.{option_map};
    ghost use Rattle.iom_text.specs.Words.{words_of};
    ghost use Rattle.iom_tool.specs.Script.{left, says};
    ghost use Rattle.iom_tool.specs.Parsed.{part_as};

    // Adds what a text says as this part, and answers the rest after it; None where it says nothing.
    #[tactic(auto, using(crate::proofs::Forms::none_left))]
    fn take<'a>(self, text: &'a [u8], values: &mut Values) -> Option<&'a [u8]>
        requires { length values.old.numbers + 2 ≤ 12 }
        ensures said { option_map (λ rest. values.new) result ≡ says (part_as self) (words_of text.now) values.old }
        ensures rest { IfSome result (λ rest. words_of rest.now ≡ left (part_as self) (words_of text.now)) }
        ensures room { length values.new.numbers ≤ length values.old.numbers + 2 }
    {
        match self {
            Part::Number => {
                let (number, rest) = take_number(text)?;
                values.push(number);
                return Some(rest);
            }
            Part::Item => {
                values.items = item_words(text)?;
                return Some(&[]);
            }
            _ => {}
        }
        let (word, rest) = take_word(text)?;
        match self {
            Part::Word(name) if word == name => {}
            Part::Register => values.push_register(register_named(word)?),
            Part::BlockRegister => values.push_register(block_register_named(word)?),
            Part::Data if put_bytes_of(word, &mut values.bytes) => {}
            _ => return None,
        }
        Some(rest)
    }
}

// Adds what a text says as these parts, and answers whether it is all of them and no more; else `values` may hold anything.
#[tactic(auto, unfolding(crate::specs::Script::all_say))]
fn take_all(parts: &[Part], text: &[u8], values: &mut Values) -> bool
    requires { length values.old.numbers + 2 * length parts.now ≤ 12 }
    ensures some { result ≡ true → all_say (map part_as parts.now) (words_of text.now) values.old ≡ Some values.new }
    ensures none { result ≡ false → all_say (map part_as parts.now) (words_of text.now) values.old ≡ None }
{
    match parts {
        [] => is_over(text),
        [part, parts @ ..] => match part.take(text, values) {
            Some(rest) => take_all(parts, rest, values),
            None => false,
        },
    }
}

// The step of these operands.
#[rattlefmt::skip]
#[tactic(auto, unfolding(crate::specs::Script::step_by))]
fn step_by(action: Action, values: Values) -> Step
    ensures { result ≡ step_by action values }
{
    let (first, second, third) = (values.at(0), values.at(1), values.at(2));
    match action {
        Action::Load => Step::Load { addr: first, size: second },
        Action::Store => Step::Store { addr: first, size: second, value: third },
        Action::RegRead => Step::RegRead { off: first, size: second },
        Action::RegWrite => Step::RegWrite { off: first, size: second, value: third },
        Action::Command => Step::Command,
        Action::Settle(register) => Step::Settle(register),
        Action::DmaRead => Step::DmaRead { did: first, iova: second, len: third },
        Action::DmaWrite => Step::DmaWrite { did: first, iova: second, bytes: values.bytes },
        Action::Translate(kind) => Step::Translate { did: first, iova: second, kind },
        Action::DevRead => Step::DevRead { dev: first, off: second, size: third },
        Action::DevWrite => Step::DevWrite { dev: first, off: second, size: third, value: values.at(3) },
        Action::DevStep => Step::Device { dev: first },
    }
}

// Whether a question may show this number of bytes.
fn is_count(count: u64) -> bool
    ensures { result ≡ is_count count }
{
    count >= 1 && count <= 64
}

// Whether a step may be repeated so often.
fn is_limit(most: u64) -> bool
    ensures { result ≡ is_limit most }
{
    most >= 1 && most <= 1 << 20
}

// Whether an IOMMU may be allowed to read ahead the pages of so many bytes for a device.
fn is_ahead(did: u64, len: u64) -> bool
    ensures { result ≡ (nat_lt did (2 ^ 24) && is_extent len) }
{
    did < 1 << 24 && len >= 1 && len <= 1 << 24
}

// The request of a device id and an IOVA.
fn request_by(kind: Kind, values: &Values) -> Option<Request>
    ensures request { result ≡ request_by kind values.now }
    ensures fits { IfSome result (λ request. request.did < 2 ^ 24) }
{
    let did = values.at(0);
    if did >= 1 << 24 {
        return None;
    }
    Some(Request::of(did as u32, values.at(1), kind))
}

// Whether this number of words of 8 bytes, at most eight, ends at 2^64 or below.
fn is_below_end(addr: u64, count: usize) -> bool
    requires { count ≤ 8 }
    ensures { result ≡ nat_le (addr + 8 * count) (2 ^ 64) }
{
    8 * count as u128 + u128::from(addr) <= 1 << 64
}

// What a line of a form is, by its operands.
#[tactic(auto, unfolding(crate::specs::Script::line_by))]
fn line_by(form: Form, values: Values) -> Option<Line>
    ensures line { option_map line_as result ≡ line_by form values }
    ensures fits { IfSome result Fits }
{
    let (first, second, third) = (values.at(0), values.at(1), values.at(2));
    let inquiry = match form {
        Form::Does(action) => return Some(Line::Does(step_by(action, values))),
        Form::Named(action) => return Some(Line::Named(step_by(action, values))),
        Form::Show(kind) => return Some(Line::Asks(Question::Show(kind, first))),
        Form::PlaceContext => return Some(Line::Asks(Question::Context(first))),
        Form::PlacePage => return Some(Line::Asks(Question::Page(first))),
        Form::Trace => return Some(Line::Asks(Question::Trace(first))),
        Form::Message => return Some(Line::Asks(Question::Message(first))),
        Form::DevRun if is_limit(second) => return Some(Line::Again(Actor::Device(first), second)),
        Form::CmdRun if is_limit(first) => return Some(Line::Again(Actor::Commands, first)),
        Form::Put if is_below_end(first, values.items.len()) => return Some(Line::Put(
            first,
            values.items,
        )),
        Form::Stale(kind) => Inquiry::Stale(request_by(kind, &values)?),
        Form::StaleContext => Inquiry::StaleContext(first),
        Form::StalePage => Inquiry::StalePage(first),
        Form::Walk(kind) => Inquiry::Walk(request_by(kind, &values)?, third),
        Form::OriginContext => Inquiry::ContextOrigin(first),
        Form::OriginPage => Inquiry::PageOrigin(first),
        Form::Why => Inquiry::Why(first),
        Form::Queue(which) => Inquiry::Queue(which),
        Form::Vectors => Inquiry::Vectors,
        Form::Dump if is_count(second) => Inquiry::Dump(first, second),
        Form::Disk if is_count(third) => Inquiry::Disk(first, second, third),
        Form::DevShow => Inquiry::Device(first),
        Form::Owed => Inquiry::Owed,
        Form::Free => Inquiry::Free(first, second),
        Form::Ahead if is_ahead(first, third) => Inquiry::Ahead(first as u32, second, third),
        _ => return None,
    };
    Some(Line::Inquires(inquiry))
}

// The line of a row.
fn line_of_row(row: &Row, text: &[u8]) -> Option<Line>
    requires { IsShort row.now }
    ensures line { option_map line_as result ≡ fitted (row_as row.now) (words_of text.now) }
    ensures fits { IfSome result Fits }
{
    let mut values = Values::new();
    if take_all(row.2, text, &mut values) {
        line_by(row.1, values)
    } else {
        None
    }
}

// Whether a script may use what is marked so.
fn may_use(language: Language, mark: Language) -> bool
    ensures { result ≡ may_use language mark }
{
    match (language, mark) {
        (Language::Run, Language::Debug) => false,
        _ => true,
    }
}

// The first row that a text fits, of these that a script may use.
#[tactic(auto, unfolding(crate::specs::Script::first_of))]
fn first_of(language: Language, rows: &[Row], text: &[u8]) -> Option<Line>
    requires { AllByRecursion IsShort rows.now }
    ensures line { option_map line_as result ≡ first_of language (map row_as rows.now) (words_of text.now) }
    ensures fits { IfSome result Fits }
{
    let [row, more @ ..] = rows else {
        return None;
    };
    if may_use(language, row.0)
        && let Some(line) = line_of_row(row, text)
    {
        return Some(line);
    }
    first_of(language, more, text)
}

// The line of the first row of the table that a text fits.
#[inline(never)]
fn found(language: Language, text: &[u8]) -> Option<Line>
    ensures line { option_map line_as result ≡ first_of language table (words_of text.now) }
    ensures fits { IfSome result Fits }
{
    first_of(language, &ROWS, text)
}

/// What a line says, given without its line end: `Bad` also of a text above 512 bytes or with a line end.
#[tactic(auto, unfolding(crate::specs::Script::line_in, crate::specs::Script::meaning), using(crate::proofs::Fast::fast))]
pub fn line_of(language: Language, text: &[u8]) -> Line
    ensures line { line_as result ≡ line_in language text.now }
    ensures fits { Fits result }
{
    if text.len() > MOST_BYTES_OF_A_LINE || text.contains(&b'\n') {
        return Line::Bad;
    }
    let Some((verb, rest)) = take_word(text) else {
        return Line::Blank;
    };
    let mut step = Step::Command;
    if put_step_of(verb, rest, &mut step) {
        return Line::Does(step);
    }
    found(language, text).unwrap_or(Line::Bad)
}

/// The step that a line of `run` is, given without its line end; None if it is none.
pub fn step_of(text: &[u8]) -> Option<Step>
    ensures { result ≡ step_in (run_line_of text.now) }
{
    match line_of(Language::Run, text) {
        Line::Does(step) => Some(step),
        _ => None,
    }
}
