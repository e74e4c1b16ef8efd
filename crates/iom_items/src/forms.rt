//! Statements that stand for words.

ghost use Rattle.std.specs.Prelude.{◌≡◌, ◌+◌, ◌++◌, ◌≤◌, All, get_or, map, length, is_some};
ghost use Rattle.std.specs.Option.{option_map};
ghost use Rattle.std.specs.Result.{result_ok};
ghost use Rattle.iom_ddt.specs.Words.{context_in};
ghost use Rattle.iom_items.specs.Layouts.{FieldFits, field_as, fields_of, keys_of};
ghost use Rattle.iom_items.specs.Operands.{are_operands, is_one_of, operand_of};
ghost use Rattle.iom_items.specs.Forms.{are_offered, command, command_named, content_of, each_number, is_sound, is_ten, numbers, stated_from, stated_word, words_as, words_for, words_laid, words_on};

use crate::item::Item;
use crate::layouts::{Field, Layout};
use crate::operands::{any_number, has_key, is_given, value_of};
use arrayvec::ArrayVec;
use iom_bits::{Features, NL, S, SV57, SV57X4, field, with_field};
use iom_ddt::{ContextFormat, context_of};
use iom_text::number;

/// The words that a statement stands for: one to eight, of 8 bytes each.
pub type ItemWords = ArrayVec<u64, 8>;

// Whether a word has the key of one of these fields, which no later word has.
fn is_field_once(fields: &[Field], word: &[u8], later: &[&[u8]]) -> bool
    ensures { result ≡ is_one_of (keys_of (map field_as fields.now)) (operand_of word.now) (map (λ word. word.now) later.now) }
{
    match fields {
        [] => false,
        [first, rest @ ..] => {
            has_key(first.key, word) && !is_given(first.key, later)
                || is_field_once(rest, word, later)
        }
    }
}

// Whether each word has the key of one of these fields, and each key is given once at most.
fn are_of_fields(fields: &[Field], words: &[&[u8]]) -> bool
    ensures { result ≡ are_operands (keys_of (map field_as fields.now)) (map (λ word. word.now) words.now) }
{
    match words {
        [] => true,
        [first, rest @ ..] => is_field_once(fields, first, rest) && are_of_fields(fields, rest),
    }
}

// The content of a field that tells this number; None if there is none.
fn content_of(own: &Field, told: u64) -> Option<u64>
    requires fits { FieldFits (field_as own.now) }
    ensures content { result ≡ content_of (field_as own.now) told }
{
    let content = field(told, own.zeros, own.width);
    if with_field(0, own.zeros, own.width, content) == told {
        Some(content)
    } else {
        None
    }
}

// A word with the contents that these operands give to its fields.
#[tactic(auto, unfolding(crate::specs::Forms::stated_word))]
fn stated_word(fields: &[Field], operands: &[&[u8]], at: usize, word: u64) -> Option<u64>
    requires fits { All (λ own. FieldFits (field_as own)) fields.now }
    ensures { result ≡ stated_word (map field_as fields.now) (map (λ word. word.now) operands.now) at word }
{
    let [first, rest @ ..] = fields else {
        return Some(word);
    };
    if first.word != at {
        return stated_word(rest, operands, at, word);
    }
    let content = content_of(first, value_of(first.key, operands)?)?;
    let word = with_field(word, first.low, first.width, content);
    stated_word(rest, operands, at, word)
}

// Appends the words from number `at` on.
#[tactic(auto, unfolding(crate::specs::Forms::stated_from))]
fn push_words(
    out: &mut ItemWords,
    fields: &[Field],
    operands: &[&[u8]],
    at: usize,
    base: &[u64],
) -> Option<()>
    requires fits { All (λ own. FieldFits (field_as own)) fields.now }
    requires room { length out.old.items + length base.now ≤ 8 }
    requires few { at + length base.now ≤ 8 }
    ensures { option_map (λ done. out.new.items) result
        ≡ option_map (λ words. out.old.items ++ words) (stated_from (map field_as fields.now) (map (λ word. word.now) operands.now) at base.now) }
{
    match base {
        [] => Some(()),
        [first, rest @ ..] => {
            out.push(stated_word(fields, operands, at, *first)?);
            push_words(out, fields, operands, at + 1, rest)
        }
    }
}

/// A word of some; 0 where there is none.
pub(crate) fn word_of(words: &[u64], at: usize) -> u64
    ensures { result ≡ get_or words.now at 0 }
{
    match words.get(at) {
        Some(word) => *word,
        None => 0,
    }
}

/// Whether words of a layout stand for what it says: those of a context do if a directory takes them.
#[tactic(auto, unfolding(iom_ddt::specs::Words::context_in))]
pub(crate) fn is_sound(layout: Layout, words: &[u64]) -> bool
    ensures { result ≡ is_sound layout words.now }
{
    match layout {
        Layout::Context | Layout::ExtendedContext => {
            let eight = [
                word_of(words, 0),
                word_of(words, 1),
                word_of(words, 2),
                word_of(words, 3),
                word_of(words, 4),
                word_of(words, 5),
                word_of(words, 6),
                word_of(words, 7),
            ];
            context_of(eight).is_ok()
        }
        _ => true,
    }
}

// The words of this layout with these operands.
#[tactic(auto, unfolding(crate::specs::Forms::words_laid))]
fn words_laid(layout: Layout, operands: &[&[u8]]) -> Option<ItemWords>
    ensures { option_map (λ words. words.items) result ≡ words_laid layout (map (λ word. word.now) operands.now) }
{
    let fields = layout.fields();
    if !are_of_fields(fields, operands) {
        return None;
    }
    let mut words = ItemWords::new();
    push_words(&mut words, fields, operands, 0, layout.base())?;
    if is_sound(layout, words.as_slice()) {
        Some(words)
    } else {
        None
    }
}

// Appends the numbers of these words; None where one of them is no number.
#[tactic(auto, unfolding(crate::specs::Forms::each_number))]
fn push_numbers(out: &mut ItemWords, words: &[&[u8]]) -> Option<()>
    requires { length out.old.items + length words.now ≤ 8 }
    ensures { option_map (λ done. out.new.items) result
        ≡ option_map (λ numbers. out.old.items ++ numbers) (each_number (map (λ word. word.now) words.now)) }
{
    match words {
        [] => Some(()),
        [first, rest @ ..] => {
            out.push(number(first)?);
            push_numbers(out, rest)
        }
    }
}

// The numbers of one to eight words.
#[tactic(auto, unfolding(crate::specs::Forms::numbers))]
fn numbers(words: &[&[u8]]) -> Option<ItemWords>
    ensures { option_map (λ numbers. numbers.items) result ≡ numbers (map (λ word. word.now) words.now) }
{
    if words.is_empty() || words.len() > 8 {
        return None;
    }
    let mut out = ItemWords::new();
    push_numbers(&mut out, words)?;
    Some(out)
}

/// The layout of the command of this name: `vma`, `gvma`, `fence` or `iodir`; None of any other.
#[tactic(auto, unfolding(crate::specs::Forms::command_named))]
pub fn command_named(form: &[u8]) -> Option<Layout>
    ensures { result ≡ command_named form.now }
{
    match form {
        b"vma" => Some(Layout::Vma),
        b"gvma" => Some(Layout::Gvma),
        b"fence" => Some(Layout::Fence),
        b"iodir" => Some(Layout::Iodir),
        _ => None,
    }
}

// The words of a command: its name and its operands.
#[tactic(auto, unfolding(crate::specs::Forms::command))]
fn command(words: &[&[u8]]) -> Option<ItemWords>
    ensures { option_map (λ words. words.items) result ≡ command (map (λ word. word.now) words.now) }
{
    match words {
        [] => None,
        [form, operands @ ..] => words_laid(command_named(form)?, operands),
    }
}

// The words of an item with these operands, where contexts have this format.
#[tactic(auto, unfolding(crate::specs::Forms::words_as))]
fn words_as(format: ContextFormat, item: Item, operands: &[&[u8]]) -> Option<ItemWords>
    ensures { option_map (λ words. words.items) result ≡ words_as format item (map (λ word. word.now) operands.now) }
{
    match item {
        Item::Cmd => command(operands),
        Item::Fault => words_laid(Layout::Fault, operands),
        Item::Context => words_laid(Layout::of_context(format), operands),
        Item::Dir => words_laid(Layout::Dir, operands),
        Item::Pte => words_laid(Layout::Pte, operands),
        Item::Msi => words_laid(Layout::Msi, operands),
        Item::Word => numbers(operands),
    }
}

/// The words, one to eight, that the statement of this name and these operands stands for, where contexts have this format; None if there
/// is no such statement.
#[tactic(auto, unfolding(crate::specs::Forms::words_for))]
pub fn words_for(format: ContextFormat, name: &[u8], operands: &[&[u8]]) -> Option<ItemWords>
    ensures { option_map (λ words. words.items) result
        ≡ words_for format name.now (map (λ word. word.now) operands.now) }
{
    words_as(format, Item::named(name)?, operands)
}

// Whether a number is given, and it is 10.
fn is_ten(number: Option<u64>) -> bool
    ensures { result ≡ is_ten number }
{
    match number {
        Some(number) => number == 10,
        None => false,
    }
}

// Whether an IOMMU with these features has what the operands of a statement name.
fn are_offered(features: Features, operands: &[&[u8]]) -> bool
    ensures { result ≡ are_offered features (map (λ word. word.now) operands.now) }
{
    (features.has(NL) || !is_given(b"nl", operands))
        && (features.has(S) || !is_given(b"s", operands))
        && (features.has(SV57) || !is_ten(any_number(b"mode", operands)))
        && (features.has(SV57X4) || !is_ten(any_number(b"gmode", operands)))
}

/// As `words_for`, on an IOMMU with these features, whose contexts are of extended format with MSI_FLAT: None also of a command with an operand `nl` or `s` whose capability it lacks, and of
/// a context with a mode that it lacks.
#[tactic(auto, unfolding(crate::specs::Forms::words_on))]
pub fn words_on(features: Features, name: &[u8], operands: &[&[u8]]) -> Option<ItemWords>
    ensures { option_map (λ words. words.items) result
        ≡ words_on features name.now (map (λ word. word.now) operands.now) }
{
    if are_offered(features, operands) {
        words_for(ContextFormat::of(features), name, operands)
    } else {
        None
    }
}
