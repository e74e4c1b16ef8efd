//! How the accesses of a script went.

ghost use Rattle.std.specs.Prelude.{◌≡◌, map, OnOk, OnErr};
ghost use Rattle.iom_debug.specs.Summary.{and_one, denied_with, line_if, with_line};

use std::alloc::{AllocError, Global};
use std::marker::Model;

/// How an access went.
#[derive(Clone, Copy)]
pub struct AccessOutcome {
    /// The number of the line that made it.
    pub number: u64,
    /// For which cause it was denied ("Fault/Event-Queue (FQ)"); None if it was granted.
    pub denied: Option<u16>,
    /// Whether it was led by the caches without a look at memory.
    pub is_cached: bool,
    /// Whether the tables would have led it elsewhere.
    pub is_stale: bool,
    /// Whether an IOMMU may have led it elsewhere than the tables.
    pub is_unsettled: bool,
}

/// How many accesses went how.
#[derive(Drop)]
pub struct Summary {
    accesses: u64,
    granted: u64,
    // each cause, and for how many it was denied
    denied: [(u16, u64); 14],
    cached: u64,
    stale: u64,
    // the lines of those that are stale
    stale_lines: Vec<u64>,
    unsettled: u64,
    // the lines of those that aren't settled
    unsettled_lines: Vec<u64>,
}

impl Model for Summary {
    ghost use Rattle.iom_debug.specs.Summary.{Counts};

    ghost Value = { Counts };

    ghost view = { λ s. record {
      accesses = s.accesses;
      granted = s.granted;
      denied = s.denied;
      cached = s.cached;
      stale = s.stale;
      stale_lines = s.stale_lines.items;
      unsettled = s.unsettled;
      unsettled_lines = s.unsettled_lines.items;
    } };
}

impl Summary {
    ghost use Rattle.std.specs.Prelude.{◌≡◌, ◌++◌, [], ◌∷◌, List, OnOk, OnErr};
    ghost use Rattle.iom_debug.specs.Summary.{counts_of, with_outcome, with_own_lines};
    ghost use Rattle.iom_debug.specs.declared.summary.AccessOutcome.{AccessOutcome};

    /// Of no access.
    pub fn new(alloc: Global) -> Summary
        ensures { result ≡ counts_of [] }
    {
        Summary {
            accesses: 0,
            granted: 0,
            denied: [
                (5, 0),
                (7, 0),
                (13, 0),
                (15, 0),
                (21, 0),
                (23, 0),
                (256, 0),
                (257, 0),
                (258, 0),
                (259, 0),
                (260, 0),
                (261, 0),
                (262, 0),
                (263, 0),
            ],
            cached: 0,
            stale: 0,
            stale_lines: Vec::new(alloc),
            unsettled: 0,
            unsettled_lines: Vec::new(alloc),
        }
    }

    /// Counts one access more. The fault is want of memory for its line, and then nothing is counted.
    pub fn count(&mut self, outcome: &AccessOutcome) -> Result<(), AllocError>
        ensures counts { OnOk result ((told : List AccessOutcome) → self.old ≡ counts_of told → self.new ≡ counts_of (told ++ outcome.now ∷ [])) }
        ensures err { OnErr result (self.new ≡ self.old) }
    {
        self.note_lines(outcome)?;
        self.add(outcome);
        Ok(())
    }

    // Notes the line of an access that was stale or wasn't settled.
    #[tactic(auto, using(crate::proofs::Summing::first_ones))]
    fn note_lines(&mut self, outcome: &AccessOutcome) -> Result<(), AllocError>
        ensures ok { OnOk result (self.new ≡ with_own_lines self.old outcome.now) }
        ensures err { OnErr result (self.new ≡ self.old) }
    {
        let number = outcome.number;
        let noted = self.stale_lines.len();
        push_line_if(&mut self.stale_lines, outcome.is_stale, number)?;
        if let Err(fault) = push_line_if(&mut self.unsettled_lines, outcome.is_unsettled, number) {
            self.stale_lines.truncate(noted);
            return Err(fault);
        }
        Ok(())
    }

    // Counts an access, whose line is noted.
    fn add(&mut self, outcome: &AccessOutcome)
        ensures { self.new ≡ record (with_outcome self.old outcome.now) {
          stale_lines = self.old.stale_lines;
          unsettled_lines = self.old.unsettled_lines;
        } }
    {
        self.accesses = and_one(true, self.accesses);
        self.granted = and_one(outcome.denied.is_none(), self.granted);
        count_denied(&mut self.denied, outcome);
        self.cached = and_one(outcome.is_cached, self.cached);
        self.stale = and_one(outcome.is_stale, self.stale);
        self.unsettled = and_one(outcome.is_unsettled, self.unsettled);
    }

    /// How many accesses there were, at most 2^64 - 1; so are all the counts.
    pub fn accesses(&self) -> u64
        ensures { result ≡ self.now.accesses }
    {
        self.accesses
    }

    /// How many weren't denied.
    pub fn granted(&self) -> u64
        ensures { result ≡ self.now.granted }
    {
        self.granted
    }

    /// Each cause, with how many were denied for it.
    pub fn denied(&self) -> &[(u16, u64)]
        ensures { result.now ≡ self.now.denied }
    {
        &self.denied
    }

    /// The number of those that were led by the caches without a look at memory.
    pub fn cached(&self) -> u64
        ensures { result ≡ self.now.cached }
    {
        self.cached
    }

    /// How many were stale.
    pub fn stale(&self) -> u64
        ensures { result ≡ self.now.stale }
    {
        self.stale
    }

    /// The numbers of the lines of those that were stale.
    pub fn stale_lines(&self) -> &[u64]
        ensures { result.now ≡ self.now.stale_lines }
    {
        self.stale_lines.as_slice()
    }

    /// How many weren't settled.
    pub fn unsettled(&self) -> u64
        ensures { result ≡ self.now.unsettled }
    {
        self.unsettled
    }

    /// The numbers of the lines of those that weren't settled.
    pub fn unsettled_lines(&self) -> &[u64]
        ensures { result.now ≡ self.now.unsettled_lines }
    {
        self.unsettled_lines.as_slice()
    }
}

/// One more, if it counts.
pub fn and_one(is: bool, count: u64) -> u64
    ensures { result ≡ and_one is count }
{
    if is { count.saturating_add(1) } else { count }
}

// Counts one more beside its cause, where it was denied.
#[tactic(auto, using(crate::proofs::Summing::none_denied))]
fn count_denied(counts: &mut [(u16, u64)], outcome: &AccessOutcome)
    ensures { counts.new ≡ map (denied_with outcome.now) counts.old }
{
    if outcome.denied.is_none() {
        return;
    }
    for entry in counts.iter_mut() {
        *entry = denied_with(outcome, *entry);
    }
}

// A cause and its count, with one more where an access was denied for that cause.
fn denied_with(outcome: &AccessOutcome, entry: (u16, u64)) -> (u16, u64)
    ensures { result ≡ denied_with outcome.now entry }
{
    let (cause, count) = entry;
    (cause, and_one(outcome.denied == Some(cause), count))
}

// Appends the number of a line, where it isn't the last one.
fn push_line(lines: &mut Vec<u64>, number: u64) -> Result<(), AllocError>
    ensures ok { OnOk result (lines.new.items ≡ with_line lines.old.items number) }
    ensures err { OnErr result (lines.new.items ≡ lines.old.items) }
{
    if lines.last() != Some(&number) {
        lines.push(number)?;
    }
    Ok(())
}

// Appends the number of a line, if it counts and isn't the last one.
fn push_line_if(lines: &mut Vec<u64>, is: bool, number: u64) -> Result<(), AllocError>
    ensures ok { OnOk result (lines.new.items ≡ line_if is lines.old.items number) }
    ensures err { OnErr result (lines.new.items ≡ lines.old.items) }
{
    if is {
        push_line(lines, number)?;
    }
    Ok(())
}
