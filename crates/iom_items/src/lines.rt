//! The lines of items.

ghost use Rattle.std.specs.Prelude.{◌≡◌, ◌+◌, ◌*◌, ◌/◌, ◌^◌, ◌<◌, ◌++◌, ◌≤◌, ◌==◌, ◌&&◌, [], ◌∷◌, All, None, Some, get_or, length, map, take};
ghost use Rattle.std.specs.Option.{option_map};
ghost use Rattle.iom_text.specs.Texts.{hexadecimal};
ghost use Rattle.iom_mem.specs.Memory.{words_at};
ghost use Rattle.iom_ddt.specs.declared.formats.ContextFormat.{ContextFormat};
ghost use Rattle.iom_items.specs.declared.item.Item.TheVariants as item;
ghost use Rattle.iom_items.specs.declared.layouts.Layout.TheVariants as layout;
ghost use Rattle.iom_items.specs.Forms.{told_by};
ghost use Rattle.iom_items.specs.Items.{context_words};
ghost use Rattle.iom_items.specs.Layouts.{FieldFits, field_as, fields_of, room_of};
ghost use Rattle.iom_items.specs.Lines.{are_had, are_made, words_with, context_text, filled, is_had, is_laid, item_line, item_line_on, layout_among, layout_in, line_of, line_on, made_word, may_lack, number_for, number_in, numbers_text, operand, pairs_in, shown_of, text_by, text_of, with_operands, words_text};

use crate::forms::{is_sound, word_of};
use crate::item::Item;
use crate::layouts::{Field, Layout};
use arrayvec::ArrayVec;
use iom_bits::{Features, NL, S, SV57, SV57X4, field, with_field};
use iom_ddt::{Context, ContextFormat, encode_context};
use iom_mem::Ram;
use iom_text::hexadecimal;

/// The line of an item, at most 256 bytes, without a line end.
pub type Line = ArrayVec<u8, 256>;

// Appends a text, for which there is room.
fn push_text(out: &mut Line, text: &[u8])
    requires { length out.old.items + length text.now ≤ 256 }
    ensures text { out.new.items ≡ out.old.items ++ text.now }
    ensures room { length out.new.items ≡ length out.old.items + length text.now }
{
    let _fits = out.try_extend_from_slice(text);
}

// Appends a blank, a key, `=` and a number in hex, for which there is room.
fn push_told(out: &mut Line, key: &[u8], value: u64)
    requires { length out.old.items + length (operand key.now value) ≤ 256 }
    ensures text { out.new.items ≡ out.old.items ++ operand key.now value }
    ensures room { length out.new.items ≡ length out.old.items + length (operand key.now value) }
{
    push_text(out, b" ");
    push_text(out, key);
    push_text(out, b"=");
    push_text(out, hexadecimal(value).as_slice());
}

// Appends a blank, a key, `=` and a number in hex.
pub(crate) fn push_operand(out: &mut Line, key: &[u8], value: u64)
    requires { length out.old.items + length key.now + 20 ≤ 256 }
    ensures text { out.new.items ≡ out.old.items ++ operand key.now value }
    ensures room { length out.new.items ≤ length out.old.items + length key.now + 20 }
{
    push_told(out, key, value);
}

// Appends the operand of a field that tells this number.
fn push_field(out: &mut Line, own: &Field, number: u64)
    requires fits { FieldFits (field_as own.now) }
    requires small { number < 2 ^ (own.now.zeros + own.now.width) }
    requires room { length out.old.items + length own.now.key.now + 4 + (own.now.zeros + own.now.width + 3) / 4 ≤ 256 }
    ensures text { out.new.items ≡ out.old.items ++ operand own.now.key.now number }
    ensures room { length out.new.items ≤ length out.old.items + length own.now.key.now + 4 + (own.now.zeros + own.now.width + 3) / 4 }
{
    push_told(out, own.key, number);
}

// A line that begins with a text.
pub(crate) fn line_from(text: &[u8]) -> Line
    requires { length text.now ≤ 256 }
    ensures text { result.items ≡ text.now }
    ensures room { length result.items ≡ length text.now }
{
    let mut line = Line::new();
    push_text(&mut line, text);
    line
}

// The number that a field of some words tells.
fn number_in(own: &Field, words: &[u64]) -> u64
    requires fits { FieldFits (field_as own.now) }
    ensures told { result ≡ number_in (field_as own.now) words.now }
    ensures small { result < 2 ^ (own.now.zeros + own.now.width) }
{
    told_number(own, words)
}

// As `number_in`, by the word that the field stands in.
fn told_number(own: &Field, words: &[u64]) -> u64
    requires fits { FieldFits (field_as own.now) }
    ensures { result ≡ number_in (field_as own.now) words.now }
{
    let word = word_of(words, own.word);
    with_field(0, own.zeros, own.width, field(word, own.low, own.width))
}

// Whether a line has this operand only where it isn't 0.
fn may_lack(key: &[u8]) -> bool
    ensures { result ≡ may_lack key.now }
{
    key == b"nl".as_slice() || key == b"s".as_slice()
}

// Appends the operands of these fields of some words.
fn push_shown(out: &mut Line, fields: &[Field], words: &[u64])
    requires fits { All (λ own. FieldFits (field_as own)) fields.now }
    requires room { length out.old.items + room_of (map field_as fields.now) ≤ 256 }
    ensures text { out.new.items ≡ with_operands out.old.items (shown_of (pairs_in (map field_as fields.now) words.now)) }
    ensures room { length out.new.items ≤ length out.old.items + room_of (map field_as fields.now) }
{
    let [first, rest @ ..] = fields else {
        return;
    };
    let number = number_in(first, words);
    if !(may_lack(first.key) && number == 0) {
        push_field(out, first, number);
    }
    push_shown(out, rest, words);
}

// The line of words that have this layout.
#[tactic(auto, unfolding(crate::specs::Lines::text_of))]
fn laid_line(layout: Layout, words: &[u64]) -> Line
    ensures text { result.items ≡ text_of layout words.now }
    ensures room { length result.items ≤ 9 + room_of (fields_of layout) }
{
    let mut line = line_from(layout.title());
    push_shown(&mut line, layout.fields(), words);
    line
}

// Appends words as numbers, a space before each.
fn push_numbers(out: &mut Line, words: &[u64])
    requires { length out.old.items + 19 * length words.now ≤ 256 }
    ensures text { out.new.items ≡ out.old.items ++ numbers_text words.now }
    ensures room { length out.new.items ≤ length out.old.items + 19 * length words.now }
{
    match words {
        [] => {}
        [first, rest @ ..] => {
            push_text(out, b" ");
            push_text(out, hexadecimal(*first).as_slice());
            push_numbers(out, rest);
        }
    }
}

// The line of at most eight words: `u64` and the numbers.
fn words_line(words: &[u64]) -> Line
    requires { length words.now ≤ 8 }
    ensures text { result.items ≡ words_text words.now }
    ensures room { length result.items ≤ 3 + 19 * length words.now }
{
    let mut line = line_from(b"u64");
    push_numbers(&mut line, words);
    line
}

// A word with what another has in a field.
fn filled(own: &Field, word: u64, made: u64) -> u64
    requires fits { FieldFits (field_as own.now) }
    ensures { result ≡ filled (field_as own.now) word made }
{
    with_field(made, own.low, own.width, field(word, own.low, own.width))
}

// A word with what another has in those of these fields that stand in word `at`.
#[tactic(auto, unfolding(crate::specs::Lines::made_word))]
fn made_word(fields: &[Field], at: usize, word: u64, made: u64) -> u64
    requires fits { All (λ own. FieldFits (field_as own)) fields.now }
    ensures { result ≡ made_word (map field_as fields.now) at word made }
{
    match fields {
        [] => made,
        [first, rest @ ..] => {
            if first.word == at {
                made_word(rest, at, word, filled(first, word, made))
            } else {
                made_word(rest, at, word, made)
            }
        }
    }
}

// Whether some words, from number `at` on, are a base with what they have in its fields.
#[tactic(auto, unfolding(crate::specs::Lines::are_made))]
fn are_made(fields: &[Field], at: usize, base: &[u64], words: &[u64]) -> bool
    requires fits { All (λ own. FieldFits (field_as own)) fields.now }
    requires few { at + length base.now ≤ 8 }
    ensures { result ≡ are_made (map field_as fields.now) at base.now words.now }
{
    match base {
        [] => words.is_empty(),
        [own, bases @ ..] => match words {
            [] => false,
            [word, rest @ ..] => {
                made_word(fields, at, *word, *own) == *word && are_made(fields, at + 1, bases, rest)
            }
        },
    }
}

// Whether words have this layout.
#[tactic(auto, unfolding(crate::specs::Lines::is_laid))]
fn is_laid(layout: Layout, words: &[u64]) -> bool
    ensures { result ≡ is_laid layout words.now }
{
    are_made(layout.fields(), 0, layout.base(), words) && is_sound(layout, words)
}

// The first of these layouts that words have.
fn layout_among(layouts: &[Layout], words: &[u64]) -> Option<Layout>
    ensures { result ≡ layout_among layouts.now words.now }
{
    match layouts {
        [] => None,
        [first, rest @ ..] => {
            if is_laid(*first, words) {
                Some(*first)
            } else {
                layout_among(rest, words)
            }
        }
    }
}

// The layout of an item that words have, where contexts have this format.
fn layout_in(format: ContextFormat, item: Item, words: &[u64]) -> Option<Layout>
    ensures { result ≡ layout_in format item words.now }
{
    match item {
        Item::Cmd => layout_among(
            &[Layout::Vma, Layout::Gvma, Layout::Fence, Layout::Iodir],
            words,
        ),
        Item::Fault => layout_among(&[Layout::Fault], words),
        Item::Context => layout_among(&[Layout::of_context(format)], words),
        Item::Dir => layout_among(&[Layout::Dir], words),
        Item::Pte => layout_among(&[Layout::Pte], words),
        Item::Msi => layout_among(&[Layout::Msi], words),
        Item::Word => None,
    }
}

// The line of at most eight words that have this layout, or none.
fn text_by(layout: Option<Layout>, words: &[u64]) -> Line
    requires { length words.now ≤ 8 }
    ensures { result.items ≡ text_by layout words.now }
{
    match layout {
        Some(layout) => laid_line(layout, words),
        None => words_line(words),
    }
}

/// The line of an entry of a page table ("Sv39"), or of its word where a reserved bit is set; at most 64 bytes.
#[tactic(auto, unfolding(crate::specs::Layouts::fields_of))]
pub fn pte_line(word: u64) -> Line
    ensures text { (format : ContextFormat) → result.items ≡ line_of format item.Pte (word ∷ []) }
    ensures short { length result.items ≤ 64 }
{
    if is_laid(Layout::Pte, &[word]) {
        laid_line(Layout::Pte, &[word])
    } else {
        words_line(&[word])
    }
}

/// The line of a context of this format: `context` and its operands, without a line end. It is the line of its words in this format.
pub fn context_line(format: ContextFormat, context: &Context) -> Line
    ensures text { result.items ≡ context_text format context.now }
    ensures words { result.items ≡ line_of format item.Context (words_with format context.now) }
{
    // A context's invariant is known where its fields are named.
    let _ = &context.fields;
    let words = encode_context(context);
    laid_line(Layout::of_context(format), first_words(format, &words))
}

// Of the words of a context those that one of this format has.
fn first_words(format: ContextFormat, words: &[u64; 8]) -> &[u64]
    ensures { result.now ≡ take (context_words format) words.now }
{
    match format {
        ContextFormat::Base => &words[..4],
        ContextFormat::Extended => words,
    }
}

// The number that these fields of some words have for a key; 0 where none has it.
fn number_for(key: &[u8], fields: &[Field], words: &[u64]) -> u64
    requires fits { All (λ own. FieldFits (field_as own)) fields.now }
    ensures { result ≡ number_for key.now (pairs_in (map field_as fields.now) words.now) }
{
    match fields {
        [] => 0,
        [first, rest @ ..] => {
            if first.key == key {
                number_in(first, words)
            } else {
                number_for(key, rest, words)
            }
        }
    }
}

// Whether an IOMMU with these features has what the fields of some words need.
fn are_had(features: Features, fields: &[Field], words: &[u64]) -> bool
    requires fits { All (λ own. FieldFits (field_as own)) fields.now }
    ensures { result ≡ are_had features (pairs_in (map field_as fields.now) words.now) }
{
    (features.has(NL) || number_for(b"nl", fields, words) == 0)
        && (features.has(S) || number_for(b"s", fields, words) == 0)
        && (features.has(SV57) || number_for(b"mode", fields, words) != 10)
        && (features.has(SV57X4) || number_for(b"gmode", fields, words) != 10)
}

// The line of at most eight words that are looked at as an item, where contexts have this format.
fn line_of(format: ContextFormat, item: Item, words: &[u64]) -> Line
    requires { length words.now ≤ 8 }
    ensures { result.items ≡ line_of format item words.now }
{
    text_by(layout_in(format, item, words), words)
}

// The line of at most eight words that are looked at as an item, on an IOMMU with these features.
fn line_on(features: Features, item: Item, words: &[u64]) -> Line
    requires { length words.now ≤ 8 }
    ensures { result.items ≡ line_on features item words.now }
{
    match layout_in(ContextFormat::of(features), item, words) {
        Some(layout) if are_had(features, layout.fields(), words) => laid_line(layout, words),
        _ => words_line(words),
    }
}

/// The line of the item at physical address `addr`, of any alignment: its statement with all operands in order, or `u64` and its words if
/// they are no such item; None if a byte of it is outside. A context has four words, or in extended format eight.
#[tactic(auto, unfolding(crate::specs::Lines::item_line))]
pub fn item_line(ram: &Ram, format: ContextFormat, item: Item, addr: u64) -> Option<Line>
    ensures { option_map (λ line. line.items) result ≡ item_line ram.now format item addr }
{
    Some(match (item, format) {
        (Item::Context, ContextFormat::Extended) => {
            line_of(format, item, &ram.words_at::<8>(addr)?)
        }
        (Item::Fault | Item::Context, _) => line_of(format, item, &ram.words_at::<4>(addr)?),
        (Item::Cmd | Item::Msi, _) => line_of(format, item, &ram.words_at::<2>(addr)?),
        (Item::Dir | Item::Pte | Item::Word, _) => {
            line_of(format, item, &ram.words_at::<1>(addr)?)
        }
    })
}

/// As `item_line`, on an IOMMU with these features: the line of a context with a mode that it lacks, or of a command with a bit whose
/// capability it lacks, is that of its words.
#[tactic(auto, unfolding(crate::specs::Lines::item_line_on))]
pub fn item_line_on(ram: &Ram, features: Features, item: Item, addr: u64) -> Option<Line>
    ensures { option_map (λ line. line.items) result ≡ item_line_on ram.now features item addr }
{
    Some(match (item, ContextFormat::of(features)) {
        (Item::Context, ContextFormat::Extended) => {
            line_on(features, item, &ram.words_at::<8>(addr)?)
        }
        (Item::Fault | Item::Context, _) => line_on(features, item, &ram.words_at::<4>(addr)?),
        (Item::Cmd | Item::Msi, _) => line_on(features, item, &ram.words_at::<2>(addr)?),
        (Item::Dir | Item::Pte | Item::Word, _) => {
            line_on(features, item, &ram.words_at::<1>(addr)?)
        }
    })
}
