//! The names of a script.

ghost use Rattle.std.specs.Prelude.{◌≡◌, ◌<◌, ◌≤◌, IfNone, IfSome, length};
ghost use Rattle.iom_names.specs.Reading.{is_bad, is_let, is_line};
ghost use Rattle.iom_names.specs.Names.{with_numbers};
ghost use Rattle.iom_text.specs.Words.{words_of};
ghost use Rattle.iom_tool.specs.Parsed.{Fits, line_as};
ghost use Rattle.iom_tool.specs.Script.{debug_line_of};

use crate::replacing::{LineText, number_of, place_of, put_with_numbers};
use crate::spelling::is_name;
use arrayvec::ArrayVec;
use iom_text::{number, take_word};
use iom_tool::{Language, Line, MOST_BYTES_OF_A_LINE, line_of};
use std::marker::Model;

// How many names there may be.
const MOST_NAMES: usize = 64;

/// The text of a name, at most 32 bytes.
pub type NameText = ArrayVec<u8, 32>;

/// A name and its number.
#[derive(Drop)]
pub struct Binding {
    /// The name.
    pub name: NameText,
    /// The number that it stands for.
    pub number: u64,
}

impl Default for Binding {
    ghost use Rattle.std.specs.Prelude.{◌≡◌};

    ghost is_default = { λ binding. binding.number ≡ 0 };

    fn default() -> Self {
        Binding {
            name: NameText::new(),
            number: 0,
        }
    }
}

/// The names that the lines of a script gave numbers, at most 64; the newest last.
#[derive(Drop)]
pub struct Names {
    bindings: ArrayVec<Binding, 64>,
}

impl Model for Names {
    ghost use Rattle.std.specs.Prelude.{List};
    ghost use Rattle.iom_names.specs.declared.names.Binding.{Binding};

    ghost Value = { List Binding };

    ghost view = { λ names. names.bindings.items };
}

// Whether a line says nothing.
fn is_bad(line: &Line) -> bool
    ensures { result ≡ is_bad (line_as line.now) }
{
    matches!(line, Line::Bad)
}

/// Whether a text can be a line: it has at most 512 bytes, and no line end.
pub fn is_line(text: &[u8]) -> bool
    ensures { result ≡ is_line text.now }
{
    text.len() <= MOST_BYTES_OF_A_LINE && !text.contains(&b'\n')
}

/// Whether the first word of a text is `let`.
pub fn is_let(text: &[u8]) -> bool
    ensures { result ≡ is_let (words_of text.now) }
{
    matches!(take_word(text), Some((b"let", _)))
}

// The text of a name.
fn text_of(word: &[u8]) -> NameText
    requires { length word.now ≤ 32 }
    ensures { result.items ≡ word.now }
{
    let mut text = NameText::new();
    let _fits = text.try_extend_from_slice(word);
    text
}

// What a line says with numbers in place of names: it is bad where it then has above 512 bytes.
fn line_with_numbers(names: &[Binding], text: &[u8]) -> Line
    ensures line { line_as result ≡ debug_line_of (with_numbers names.now (words_of text.now)) }
    ensures fits { Fits result }
{
    let mut out = LineText::new();
    if put_with_numbers(&mut out, names, text) {
        line_of(Language::Debug, out.as_slice())
    } else {
        Line::Bad
    }
}

// The words of a text with numbers in place of names, a blank before each; None where they are above 512 bytes.
fn numbered(names: &[Binding], text: &[u8]) -> Option<LineText>
    ensures some { IfSome result (λ out. out.items ≡ with_numbers names.now (words_of text.now)) }
    ensures none { IfNone result (512 < length (with_numbers names.now (words_of text.now))) }
{
    let mut out = LineText::new();
    if put_with_numbers(&mut out, names, text) {
        Some(out)
    } else {
        None
    }
}

impl Names {
    ghost use Rattle.std.specs.Prelude.{◌≡◌, ◌<◌, [], IfNone, IfSome, None, Some, false, is_some, length, nat_lt, true};
    ghost use Rattle.iom_text.specs.Words.{words_of};
    ghost use Rattle.iom_tool.specs.Parsed.{Fits, line_as};
    ghost use Rattle.iom_tool.specs.Script.{debug_line_of};
    ghost use Rattle.iom_names.specs.Computing.{number_said};
    ghost use Rattle.iom_names.specs.Names.{binding_in, names_by, others, with_binding, with_numbers};
    ghost use Rattle.iom_names.specs.Reading.{after_let, line_with, names_after, read_words, reading};

    /// No names yet.
    pub fn new() -> Names
        ensures { result ≡ [] }
    {
        Names {
            bindings: ArrayVec::new(),
        }
    }

    /// The number of a name, or else the number that a word writes.
    pub(crate) fn number_said(&self, word: &[u8]) -> Option<u64>
        ensures { result ≡ number_said self.now word.now }
    {
        match number_of(self.bindings.as_slice(), word) {
            Some(number) => Some(number),
            None => number(word),
        }
    }

    // What `NAME NUMBER ..` gives a name.
    fn binding_in(&self, text: &[u8]) -> Option<Binding>
        ensures { result ≡ binding_in self.now (words_of text.now) }
    {
        let (name, rest) = take_word(text)?;
        if !is_name(name) {
            return None;
        }
        let number = self.value_of(rest).ok()?;
        Some(Binding {
            name: text_of(name),
            number,
        })
    }

    // Gives a name its number, and answers whether there was room.
    fn keep(&mut self, binding: Binding) -> bool
        ensures some { result ≡ true → with_binding self.old binding ≡ Some self.new }
        ensures none { result ≡ false → with_binding self.old binding ≡ None }
        ensures same { result ≡ false → self.new ≡ self.old }
    {
        match place_of(self.bindings.as_slice(), binding.name.as_slice()) {
            Some(at) => {
                let _former = self.bindings.remove(at);
                self.bindings.push(binding);
                true
            }
            None => self.bindings.try_push(binding).is_ok(),
        }
    }

    // Gives a name the number that `NAME NUMBER ..` gives it, and answers whether it gives one.
    fn bind(&mut self, text: &[u8]) -> bool
        ensures some { result ≡ true → names_by self.old (words_of text.now) ≡ Some self.new }
        ensures none { result ≡ false → names_by self.old (words_of text.now) ≡ None }
        ensures same { result ≡ false → self.new ≡ self.old }
    {
        match self.binding_in(text) {
            Some(binding) => self.keep(binding),
            None => false,
        }
    }

    // Reads what stands behind `let`.
    fn read_let(&mut self, text: &[u8]) -> Line
        ensures read { reading (line_as result) self.new ≡ after_let self.old (names_by self.old (words_of text.now)) }
        ensures fits { Fits result }
    {
        if self.bind(text) {
            Line::Put(0, ArrayVec::new())
        } else {
            Line::Bad
        }
    }

    // Reads a line with numbers in place of names.
    fn replaced_line(&self, text: &[u8]) -> Line
        ensures line { line_as result ≡ debug_line_of (with_numbers self.now (words_of text.now)) }
        ensures fits { Fits result }
    {
        line_with_numbers(self.bindings.as_slice(), text)
    }

    /// The words of a line with the numbers in place of the names, a blank before each; None where they are above 512 bytes.
    pub fn with_numbers(&self, text: &[u8]) -> Option<LineText>
        ensures some { IfSome result (λ out. out.items ≡ with_numbers self.now (words_of text.now)) }
        ensures none { IfNone result (512 < length (with_numbers self.now (words_of text.now))) }
    {
        numbered(self.bindings.as_slice(), text)
    }

    // Whether a name may be given a number.
    fn has_room(&self, word: &[u8]) -> bool
        ensures { result ≡ nat_lt (length (others self.now word.now)) 64 }
    {
        place_of(self.bindings.as_slice(), word).is_some() || self.bindings.len() < MOST_NAMES
    }

    // Whether `NAME NUMBER ..` gives a name a number.
    fn binds(&self, text: &[u8]) -> bool
        ensures { result ≡ is_some (names_by self.now (words_of text.now)) }
    {
        match self.binding_in(text) {
            Some(binding) => self.has_room(binding.name.as_slice()),
            None => false,
        }
    }

    // What `let` says, by what stands behind it.
    fn let_said(&self, text: &[u8]) -> Line
        ensures line { line_as result ≡ (after_let self.now (names_by self.now (words_of text.now))).line }
        ensures fits { Fits result }
    {
        if self.binds(text) {
            Line::Put(0, ArrayVec::new())
        } else {
            Line::Bad
        }
    }

    // What a line says that says nothing without names.
    fn words_said(&self, text: &[u8]) -> Line
        ensures line { line_as result ≡ (read_words self.now (words_of text.now)).line }
        ensures fits { Fits result }
    {
        match take_word(text) {
            Some((b"let", rest)) => self.let_said(rest),
            _ => self.replaced_line(text),
        }
    }

    /// What a line says, as `read` reads it; the names stay as they are.
    #[tactic(auto, unfolding(crate::specs::Reading::read))]
    pub fn said(&self, text: &[u8]) -> Line
        ensures line { line_as result ≡ line_with self.now text.now }
        ensures fits { Fits result }
    {
        let line = line_of(Language::Debug, text);
        if is_bad(&line) && is_line(text) {
            return self.words_said(text);
        }
        line
    }

    // Reads a line that says nothing without names.
    fn read_words(&mut self, text: &[u8]) -> Line
        ensures read { reading (line_as result) self.new ≡ read_words self.old (words_of text.now) }
        ensures fits { Fits result }
    {
        match take_word(text) {
            Some((b"let", rest)) => self.read_let(rest),
            _ => self.replaced_line(text),
        }
    }

    /// What a line says, given without its line end, where names stand for numbers. A line that says something without names says that. Any
    /// other is `let NAME NUMBER ..`, which is done without a step, or says what it says with the numbers in place of the names: also in
    /// place of the value of `key=value`. With them too it has at most 512 bytes, a blank between two words.
    ///
    /// Behind the number of a `let` there may be pairs of an operator, `+ - << >> & |`, and a number, applied from left to right. `Bad` also of
    /// `let` where the name may not be one, where it would be the 65th, and where a result is below 0 or 2^64 or more, a shift is by 64 or
    /// more, or a shift left loses a bit.
    #[tactic(auto, unfolding(crate::specs::Reading::read))]
    pub fn read(&mut self, text: &[u8]) -> Line
        ensures line { line_as result ≡ line_with self.old text.now }
        ensures names { self.new ≡ names_after self.old text.now }
        ensures fits { Fits result }
    {
        let line = line_of(Language::Debug, text);
        if is_bad(&line) && is_line(text) {
            return self.read_words(text);
        }
        line
    }
}
