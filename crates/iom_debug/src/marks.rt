//! Marks among the lines of a script, which say where its lines stand.

ghost use Rattle.std.specs.Prelude.{◌≡◌, ◌+◌, ◌++◌, ◌∷◌, ◌≤◌, length, reverse, take, true, bytes_eq, Some, None};
ghost use Rattle.std.specs.Option.{option_map};
ghost use Rattle.std.specs.Prelude.{IfOk};
ghost use Rattle.iom_debug.specs.Marks.{begin_sign, cut, is_end, mark_for, named_at, numbered_at, place_by, text_begun};
ghost use Rattle.iom_debug.specs.Placed.{placed};

use crate::page::OutputPage;
use crate::places::{Place, put_line_named, put_number_named};
use std::alloc::{AllocError, Global};
use std::marker::Model;

// Where a line stands.
#[derive(Drop)]
struct Spot {
    // the name of the text; None: the script itself
    text: Option<Vec<u8>>,
    // counted from 1 in the text
    line: u64,
}

impl Model for Spot {
    ghost use Rattle.std.specs.Option.{option_map};
    ghost use Rattle.iom_debug.specs.Places.{PlaceView};

    ghost Value = { PlaceView };

    ghost view = { λ s. record { text = option_map (λ text. text.items) s.text; line = s.line } };
}

// From this line on, counted from 1 among all that are read, lines stand there and behind it.
#[derive(Drop)]
struct Mark {
    first: u64,
    spot: Spot,
}

impl Model for Mark {
    ghost use Rattle.iom_debug.specs.Marks.{MarkView};

    ghost Value = { MarkView };

    ghost view = { λ m. record { first = m.first; place = m.spot } };
}

/// Where the lines of a script stand, in the script itself or in a text that it includes.
#[derive(Drop)]
pub struct Marks {
    alloc: Global,
    // in their order
    marks: Vec<Mark>,
    // of the lines that include the texts that aren't over
    outer: Vec<Spot>,
    // whether memory was refused
    is_lost: bool,
}

impl Model for Marks {
    ghost use Rattle.std.specs.Prelude.{reverse};
    ghost use Rattle.iom_debug.specs.Marks.{MarksView};

    ghost Value = { MarksView };

    ghost view = { λ m. record { marks = reverse m.marks.items; outer = reverse m.outer.items; is_lost = m.is_lost } };
}

// Whether a text begins behind a line.
fn begins(line: &[u8]) -> bool
    ensures same { result ≡ bytes_eq (take 2 line.now) begin_sign }
    ensures long { result ≡ true → 2 ≤ length line.now }
{
    matches!(line, [b'#', 2, ..])
}

// The name of the text that begins behind a line.
fn text_begun(line: &[u8]) -> Option<&[u8]>
    ensures { option_map (λ name. name.now) result ≡ text_begun line.now }
{
    if begins(line) { Some(&line[2..]) } else { None }
}

// Whether a text ends before a line.
fn is_end(line: &[u8]) -> bool
    ensures { result ≡ is_end line.now }
{
    matches!(line, [b'#', 3])
}

// The newest mark at a line or before it.
fn mark_for(marks: &[Mark], number: u64) -> Option<&Mark>
    ensures { option_map (λ mark. mark.now) result ≡ mark_for (reverse marks.now) number }
{
    let mut rest = marks;
    while let Some((newest, older)) = rest.split_last() {
        if newest.first <= number {
            return Some(newest);
        }
        rest = older;
    }
    None
}

// The line of a text at which line `number` stands, by its mark.
fn line_by(mark: &Mark, number: u64) -> u64
    ensures { result ≡ (place_by (Some mark.now) number).line }
{
    mark.spot
        .line
        .saturating_add(number.saturating_sub(mark.first))
}

// Where a line stands by its mark.
fn place_by(mark: &Mark, number: u64) -> Place
    ensures { placed result ≡ cut (place_by (Some mark.now) number) }
{
    match &mark.spot.text {
        Some(text) => Place::of_text(text.as_slice(), line_by(mark, number)),
        None => Place::own(line_by(mark, number)),
    }
}

// The same, to be kept.
fn spot_by(alloc: Global, mark: &Mark, number: u64) -> Result<Spot, AllocError>
    ensures { IfOk result (λ spot. spot ≡ place_by (Some mark.now) number) }
{
    let line = line_by(mark, number);
    match &mark.spot.text {
        Some(text) => Ok(Spot {
            text: Some(Vec::from_slice(alloc, text.as_slice())?),
            line,
        }),
        None => Ok(Spot { text: None, line }),
    }
}

impl Marks {
    ghost use Rattle.std.specs.Prelude.{◌≡◌, IfOk, OnOk};
    ghost use Rattle.iom_debug.specs.Marks.{IsMarked, begun, ended, marked, no_marks, place_at, place_of, with_mark};
    ghost use Rattle.iom_debug.specs.Placed.{placed};

    /// Of a script of which no line was read.
    pub fn new(alloc: Global) -> Marks
        ensures { result ≡ no_marks }
    {
        Marks {
            alloc,
            marks: Vec::new(alloc),
            outer: Vec::new(alloc),
            is_lost: false,
        }
    }

    /// Whether memory was refused: then it isn't known where later lines stand.
    pub fn is_lost(&self) -> bool
        ensures { result ≡ self.now.is_lost }
    {
        self.is_lost
    }

    /// Where a line stands, counted from 1 among all that were read.
    pub fn place(&self, number: u64) -> Place
        ensures { placed result ≡ place_of self.now number }
    {
        match mark_for(self.marks.as_slice(), number) {
            Some(mark) => place_by(mark, number),
            None => Place::own(number),
        }
    }

    // The same, to be kept.
    fn spot(&self, number: u64) -> Result<Spot, AllocError>
        ensures { IfOk result (λ spot. spot ≡ place_at self.now number) }
    {
        match mark_for(self.marks.as_slice(), number) {
            Some(mark) => spot_by(self.alloc, mark, number),
            None => Ok(Spot {
                text: None,
                line: number,
            }),
        }
    }

    // Notes that lines stand at this spot behind line `number`.
    fn mark(&mut self, number: u64, spot: Spot) -> Result<(), AllocError>
        ensures marked { OnOk result (self.new ≡ with_mark self.old number spot) }
        ensures lost { self.new.is_lost ≡ self.old.is_lost }
    {
        let mark = Mark {
            first: number.saturating_add(1),
            spot,
        };
        self.marks.push(mark).map_err(AllocError::from)
    }

    // A text of this name begins behind line `number`.
    fn begin(&mut self, number: u64, name: &[u8]) -> Result<(), AllocError>
        ensures begun { OnOk result (self.new ≡ begun self.old number name.now) }
        ensures lost { self.new.is_lost ≡ self.old.is_lost }
    {
        let spot = self.spot(number)?;
        let text = Vec::from_slice(self.alloc, name)?;
        self.outer.push(spot).map_err(AllocError::from)?;
        self.mark(
            number,
            Spot {
                text: Some(text),
                line: 1,
            },
        )
    }

    // A text ends before line `number`, if one is open.
    fn end(&mut self, number: u64) -> Result<(), AllocError>
        ensures ended { OnOk result (self.new ≡ ended self.old number self.old.outer) }
        ensures lost { self.new.is_lost ≡ self.old.is_lost }
    {
        match self.outer.pop() {
            Some(spot) => self.mark(number, spot),
            None => Ok(()),
        }
    }

    // What a line leaves.
    fn take(&mut self, number: u64, line: &[u8]) -> Result<(), AllocError>
        ensures marked { OnOk result (self.new ≡ marked self.old number line.now) }
        ensures lost { self.new.is_lost ≡ self.old.is_lost }
    {
        match text_begun(line) {
            Some(name) => self.begin(number, name),
            None if is_end(line) => self.end(number),
            None => Ok(()),
        }
    }

    /// Takes in a line, the one of this number. Where memory is refused, `is_lost` says so from then on.
    pub fn note(&mut self, number: u64, line: &[u8])
        ensures { IsMarked self.old number line.now self.new }
    {
        if self.take(number, line).is_err() {
            self.is_lost = true;
        }
    }
}

/// How the line of this number is named, counted from 1 among all, at most 2080 bytes.
pub fn name_of(marks: &Marks, number: u64) -> OutputPage
    ensures named { result.items ≡ named_at marks.now number }
    ensures room { length result.items ≤ 2080 }
{
    let mut out = OutputPage::new();
    put_name(&mut out, marks, number);
    out
}

/// Appends how the line of this number is named, counted from 1 among all, at most 2080 bytes.
pub fn put_name(out: &mut OutputPage, marks: &Marks, number: u64)
    requires { length out.old.items + 2080 ≤ 36864 }
    ensures text { out.new.items ≡ out.old.items ++ named_at marks.now number }
    ensures room { length out.new.items ≤ length out.old.items + 2080 }
{
    put_line_named(out, &marks.place(number));
}

/// Appends how its number is told, at most 2080 bytes.
pub fn put_numbered(out: &mut OutputPage, marks: &Marks, number: u64)
    requires { length out.old.items + 2080 ≤ 36864 }
    ensures text { out.new.items ≡ out.old.items ++ numbered_at marks.now number }
    ensures room { length out.new.items ≤ length out.old.items + 2080 }
{
    put_number_named(out, &marks.place(number));
}
