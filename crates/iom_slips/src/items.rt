//! What is wrong with the words of an item.

ghost use Rattle.std.specs.Prelude.{◌≡◌, ◌+◌, ◌++◌, ◌≤◌, All, codes, length, map};
ghost use Rattle.iom_bits.specs.Features.{rows};
ghost use Rattle.iom_bits.specs.Rows.{as_feature};
ghost use Rattle.iom_items.specs.Layouts.{FieldFits, field_as};
ghost use Rattle.iom_items.specs.Operands.{operand_of};
ghost use Rattle.iom_slips.specs.Quoting.{quoted};
ghost use Rattle.iom_slips.specs.Ranges.{unlike_number};
ghost use Rattle.iom_slips.specs.Items.{capability_range, command_slip, is_feature, is_sound_item, item_slip, laid_slip, numbers_slip, operand_slip, operands_slip, range_among, range_by, range_of, statement_slip, unfit, value_slip};
ghost use Rattle.iom_slips.specs.declared.items.Keys.TheVariants as keys;

use crate::quoting::{quoted_with, reply_of};
use crate::ranges::{Range, push_unlike};
use iom_bits::{ROWS, Row};
use iom_ddt::ContextFormat;
use iom_items::{Field, Item, Layout, command_named, is_given, operand_of, words_for};
use iom_text::number;
use iom_tool::Reply;

/// The keys that operands may have.
#[derive(Clone, Copy)]
enum Keys {
    // Those of words with this layout.
    Of(Layout),
    // Those of the statement `capabilities`.
    Capabilities,
}

// The numbers that tell a field.
fn range_by(own: &Field) -> Range
    requires told { own.now.zeros + own.now.width ≤ 64 }
    ensures { result ≡ range_by (field_as own.now) }
{
    let width = own.zeros + own.width;
    if width == 64 {
        Range::Any
    } else {
        Range::Bits(width)
    }
}

// The numbers of the field with this key; None where there is none.
#[tactic(auto, unfolding(crate::specs::Items::range_among))]
fn range_among(fields: &[Field], name: &[u8]) -> Option<Range>
    requires fits { All (λ own. FieldFits (field_as own)) fields.now }
    ensures { result ≡ range_among (map field_as fields.now) name.now }
{
    match fields {
        [] => None,
        [first, rest @ ..] => {
            if name == first.key {
                Some(range_by(first))
            } else {
                range_among(rest, name)
            }
        }
    }
}

// Whether this is the name of one of the rows.
fn is_among(rows: &[Row], name: &[u8]) -> bool
    ensures { result ≡ is_feature (map as_feature rows.now) name.now }
{
    match rows {
        [] => false,
        [first, rest @ ..] => name == first.name || is_among(rest, name),
    }
}

// Whether this is the name of a feature.
#[tactic(auto, unfolding(iom_bits::specs::Features::rows))]
fn is_feature(name: &[u8]) -> bool
    ensures { result ≡ is_feature rows name.now }
{
    is_among(&ROWS, name)
}

// The numbers of a capability's key; None where there is none.
#[tactic(auto, unfolding(crate::specs::Items::capability_range))]
fn capability_range(name: &[u8]) -> Option<Range>
    ensures { result ≡ capability_range name.now }
{
    if name == b"vectors".as_slice() || name == b"igs".as_slice() {
        Some(Range::Any)
    } else if is_feature(name) {
        Some(Range::Bits(1))
    } else {
        None
    }
}

// The numbers of a key; None where there is no such key.
fn range_of(keys: Keys, name: &[u8]) -> Option<Range>
    ensures { result ≡ range_of keys name.now }
{
    match keys {
        Keys::Of(layout) => range_among(layout.fields(), name),
        Keys::Capabilities => capability_range(name),
    }
}

// What is said of a word whose value is none of these numbers.
fn outside_slip(range: Range, word: &[u8], value: &[u8]) -> Reply
    ensures { result.items ≡ quoted word.now ++ codes ": the value" ++ unlike_number range value.now }
{
    let mut out = quoted_with(word, b": the value");
    push_unlike(&mut out, range, value);
    out
}

// What is wrong with the value of a word; nothing where it is one of these numbers.
fn value_slip(range: Option<Range>, word: &[u8], value: &[u8]) -> Reply
    ensures { result.items ≡ value_slip range word.now value.now }
{
    let Some(range) = range else {
        return quoted_with(word, b" has an unknown key");
    };
    if range.has_one(number(value)) {
        Reply::new()
    } else {
        outside_slip(range, word, value)
    }
}

// What is wrong with an operand, before some others.
fn operand_slip(keys: Keys, word: &[u8], others: &[&[u8]]) -> Reply
    ensures { result.items ≡ operand_slip keys word.now (operand_of word.now) (map (λ word. word.now) others.now) }
{
    let Some(operand) = operand_of(word) else {
        return quoted_with(word, b" isn't KEY=NUMBER");
    };
    if is_given(operand.key, others) {
        return quoted_with(word, b" has a key that is given twice");
    }
    value_slip(range_of(keys, operand.key), word, operand.value)
}

// What is wrong with the first of some operands that can't stand; else the last text.
#[tactic(auto, unfolding(crate::specs::Items::operands_slip))]
fn operands_slip(keys: Keys, words: &[&[u8]], last: &[u8]) -> Reply
    requires { length last.now ≤ 64 }
    ensures { result.items ≡ operands_slip keys (map (λ word. word.now) words.now) last.now }
{
    let [word, others @ ..] = words else {
        return reply_of(last);
    };
    let slip = operand_slip(keys, word, others);
    if slip.is_empty() {
        operands_slip(keys, others, last)
    } else {
        slip
    }
}

// What is wrong with the numbers of `u64`.
#[tactic(auto, unfolding(crate::specs::Items::numbers_slip))]
fn numbers_slip(words: &[&[u8]]) -> Reply
    ensures { result.items ≡ numbers_slip (map (λ word. word.now) words.now) }
{
    let [word, others @ ..] = words else {
        return reply_of(b"u64 wants 1 to 8 numbers");
    };
    if number(word).is_some() {
        numbers_slip(others)
    } else {
        let mut out = quoted_with(word, b"");
        push_unlike(&mut out, Range::Any, word);
        out
    }
}

// What is said where the operands of words of this layout alone don't show what is wrong.
fn unfit(layout: Layout) -> &'static [u8]
    ensures text { result.now ≡ unfit layout }
    ensures short { length result.now ≤ 64 }
{
    match layout {
        Layout::Fence => b"addr isn't a multiple of 4",
        Layout::Context | Layout::ExtendedContext => b"a context has no such fields together",
        _ => b"the operands don't fit",
    }
}

// What is wrong with the operands of words of this layout.
fn laid_slip(layout: Layout, words: &[&[u8]]) -> Reply
    ensures { result.items ≡ laid_slip layout (map (λ word. word.now) words.now) }
{
    operands_slip(Keys::Of(layout), words, unfit(layout))
}

// What is wrong with the words of `cmd`.
#[tactic(auto, unfolding(crate::specs::Items::command_slip))]
fn command_slip(words: &[&[u8]]) -> Reply
    ensures { result.items ≡ command_slip (map (λ word. word.now) words.now) }
{
    let [form, operands @ ..] = words else {
        return reply_of(b"cmd wants vma, gvma, fence or iodir");
    };
    match command_named(form) {
        Some(layout) => laid_slip(layout, operands),
        None => quoted_with(form, b" isn't vma, gvma, fence or iodir"),
    }
}

/// What is wrong with the operands of `capabilities`; the last text, of at most 64 bytes, where none is wrong by itself.
pub fn capabilities_slip(words: &[&[u8]], last: &[u8]) -> Reply
    requires { length last.now ≤ 64 }
    ensures { result.items ≡ operands_slip keys.Capabilities (map (λ word. word.now) words.now) last.now }
{
    operands_slip(Keys::Capabilities, words, last)
}

// What is wrong with an item of this name that stands for no words.
#[tactic(auto, unfolding(crate::specs::Items::statement_slip))]
fn statement_slip(name: &[u8], operands: &[&[u8]]) -> Reply
    ensures { result.items ≡ statement_slip name.now (map (λ word. word.now) operands.now) }
{
    match Item::named(name) {
        None => quoted_with(name, b" is no item"),
        Some(Item::Word) => numbers_slip(operands),
        Some(Item::Cmd) => command_slip(operands),
        Some(Item::Fault) => laid_slip(Layout::Fault, operands),
        Some(Item::Context) => laid_slip(Layout::ExtendedContext, operands),
        Some(Item::Dir) => laid_slip(Layout::Dir, operands),
        Some(Item::Pte) => laid_slip(Layout::Pte, operands),
        Some(Item::Msi) => laid_slip(Layout::Msi, operands),
    }
}

// Whether an item stands for words, where contexts have either format.
fn is_sound_item(name: &[u8], operands: &[&[u8]]) -> bool
    ensures { result ≡ is_sound_item name.now (map (λ word. word.now) operands.now) }
{
    words_for(ContextFormat::Base, name, operands).is_some()
        || words_for(ContextFormat::Extended, name, operands).is_some()
}

/// What is wrong with an item's words, of which fifteen show that there are too many; `last`, of at most 64 bytes, where the item itself
/// is sound, a context in base or in extended format.
#[tactic(auto, unfolding(crate::specs::Items::item_slip))]
pub fn item_slip(words: &[&[u8]], last: &[u8]) -> Reply
    requires { length last.now ≤ 64 }
    ensures { result.items ≡ item_slip (map (λ word. word.now) words.now) last.now }
{
    let [name, operands @ ..] = words else {
        return reply_of(b"ITEM is missing");
    };
    if operands.len() > 13 {
        return reply_of(b"an item has at most fourteen words");
    }
    if is_sound_item(name, operands) {
        reply_of(last)
    } else {
        statement_slip(name, operands)
    }
}
