//! The word `check`: lines that name the answers that they want.

ghost use Rattle.std.specs.Prelude.{◌≡◌, false, IfErr, IfOk};
ghost use Rattle.iom_reader.specs.Answering.{progress};
ghost use Rattle.iom_reader.specs.Running.{is_read, is_write};
ghost use Rattle.iom_reader.specs.Watching.{read_failed, write_failed};
ghost use Rattle.iom_debug.specs.Ending.{Stops};
ghost use Rattle.iom_debug.specs.Desks.{desk_of};
ghost use Rattle.iom_check.specs.Checking.{IsChecked, by_check, is_lost_by};
ghost use Rattle.iom_check.specs.Drives.{checked_by};

use crate::looking::{Cache, asked_at, standing_at};
use crate::naming::{
    name_of, stale_request, tell_beside, tell_stale, tell_unsettled, told_request,
    unsettled_request,
};
use crate::rules::{Rules, Tally};
use crate::scoring::Scoring;
use crate::wanting::wish_of;
use iom_debug::{Debugger, OutputPage, Place, first_bytes, put_elsewhere_at, write_told};
use iom_owed::Owed;
use iom_reader::{Answerer, RunFault, WatchedReader, WatchedWriter, answer_all};
use std::io::{Read, Write};

/// A script whose lines name the answers that they want.
#[derive(Drop)]
pub struct Checking<'a> {
    /// What its lines drive.
    pub debugger: Debugger<'a>,
    // how many lines were read
    number: u64,
    // where the last one stands
    place: Place,
    scoring: Scoring<'a>,
    // what is reported of its accesses
    tables: OutputPage,
    elsewhere: OutputPage,
    beside: OutputPage,
}

impl<'a> Checking<'a> {
    ghost use Rattle.std.specs.Prelude.{◌≡◌};
    ghost use Rattle.std.specs.Option.{option_map};
    ghost use Rattle.iom_debug.specs.Desks.{desk_of};
    ghost use Rattle.iom_debug.specs.Placed.{placed};
    ghost use Rattle.iom_debug.specs.Places.{own};
    ghost use Rattle.iom_check.specs.Checking.{is_lost_by};
    ghost use Rattle.iom_check.specs.Scores.{begun, score_of};

    /// A check of what this debugger drives, by these rules, of no line yet. `name` is the script's file, if it has one, and `points` the number of
    /// test points before it.
    pub fn new(
        debugger: Debugger<'a>,
        rules: Rules,
        name: Option<&'a str>,
        points: u64,
    ) -> Checking<'a>
        ensures debugger { result.debugger ≡ debugger.entry }
        ensures number { result.number ≡ 0 }
        ensures place { placed result.place ≡ own 0 }
        ensures score { score_of result.scoring ≡ begun rules (option_map (λ name. name.now) name.entry) points }
    {
        Checking {
            debugger,
            number: 0,
            place: Place::own(0),
            scoring: Scoring::new(rules, name, points),
            tables: OutputPage::new(),
            elsewhere: OutputPage::new(),
            beside: OutputPage::new(),
        }
    }

    /// How many test points passed, and how many failed, by now.
    pub fn tally(&self) -> Tally
        ensures { result ≡ self.now.scoring.tally }
    {
        self.scoring.tally
    }

    /// Whether memory was refused, for following what an IOMMU may hold, or for where lines stand: then it isn't known whether later accesses are
    /// settled, or where later lines stand.
    pub fn is_lost(&self) -> bool
        ensures { result ≡ is_lost_by (desk_of self.now.debugger) }
    {
        self.debugger.is_lost() || self.debugger.marks.is_lost()
    }
}

impl Checking<'_> {
    ghost use Rattle.std.specs.Prelude.{◌≡◌, ◌≤◌, false, length, IfErr, OnErr, OnOk};
    ghost use Rattle.std.specs.Io.KnownBytes.{Appends};
    ghost use Rattle.iom_reader.specs.Running.{WritesFront, is_write};
    ghost use Rattle.iom_reader.specs.Watching.{write_failed};
    ghost use Rattle.iom_debug.specs.Desks.{names_of};
    ghost use Rattle.iom_check.specs.Checking.{LineSays, looks_behind, places_if};
    ghost use Rattle.iom_check.specs.Drives.{checked_by};
    ghost use Rattle.iom_check.specs.Looking.{all_looked, asked_at, looked, looked_at, looked_by, standing_at};
    ghost use Rattle.iom_debug.specs.Placed.{placed};
    ghost use Rattle.iom_check.specs.Scores.{score_of};

    // Carries out a line, and puts its report on the page. Answers whether the caches are looked at behind it.
    fn judge_line(&mut self, line: &[u8]) -> bool
        requires { length line.now ≤ 513 }
        ensures said { LineSays (checked_by self.old) line.now self.new.scoring.page.items (checked_by self.new) }
        ensures looks { result ≡ looks_behind (checked_by self.old) line.now }
        ensures same { names_of self.new.debugger ≡ names_of self.old.debugger }
    {
        self.number = self.number.saturating_add(1);
        self.place = self.debugger.marks.place(self.number);
        let read = self.debugger.names.read(line);
        let slip = self.debugger.slip_of(&read, line);
        let answer = self.debugger.carry_out(self.number, read);
        let looks = self.scoring.rules.looks_at_fences && self.debugger.has_fence();
        let rules = self.scoring.rules;
        let stale = stale_request(rules.fails_if_stale, self.debugger.stale());
        let unsettled = unsettled_request(rules.fails_if_unsettled, self.debugger.unsettled());
        let last_stale = self.debugger.stale();
        let last_invalidation = self.debugger.last_invalidation();
        let last_unsettled = self.debugger.unsettled();
        let last_beside = self.debugger.beside();
        tell_stale(
            &mut self.tables,
            &self.debugger.marks,
            rules.fails_if_stale,
            last_stale,
        );
        tell_unsettled(
            &mut self.elsewhere,
            &self.debugger.marks,
            rules.fails_if_unsettled,
            last_invalidation,
            last_unsettled,
        );
        tell_beside(
            &mut self.beside,
            &self.debugger.marks,
            rules.fails_if_unsettled,
            last_beside,
        );
        let wish = wish_of(line);
        self.scoring.page.clear();
        self.scoring.judge(
            &self.place,
            line,
            wish,
            answer.text.as_slice(),
            slip.as_slice(),
            self.tables.as_slice(),
            self.elsewhere.as_slice(),
            stale,
            told_request(unsettled, answer.first_owed),
        );
        self.scoring.remark(
            &self.place,
            line,
            wish,
            answer.text.as_slice(),
            self.beside.as_slice(),
            self.debugger.has_ignored(),
        );
        self.debugger.marks.note(self.number, line);
        looks
    }

    // Reports place `i` of a cache if it is stale.
    fn look_at<W: Write>(
        &mut self,
        cache: Cache,
        i: u64,
        writer: &mut WatchedWriter<'_, W>,
    ) -> Result<(), RunFault>
        requires { write_failed writer.old ≡ false }
        ensures ok { OnOk result (Appends (W.contents writer.old.inner.now) (W.contents writer.new.inner.now)
            (looked_at (score_of self.old.scoring) (placed self.old.place) cache i (standing_at self.old.debugger.platform.now.machine cache i) (asked_at self.old.debugger.platform.now.machine cache i)).said) }
        ensures front { OnErr result (WritesFront (W.contents writer.old.inner.now) (W.contents writer.new.inner.now)
            (looked_at (score_of self.old.scoring) (placed self.old.place) cache i (standing_at self.old.debugger.platform.now.machine cache i) (asked_at self.old.debugger.platform.now.machine cache i)).said) }
        ensures score { score_of self.new.scoring
            ≡ (looked_at (score_of self.old.scoring) (placed self.old.place) cache i (standing_at self.old.debugger.platform.now.machine cache i) (asked_at self.old.debugger.platform.now.machine cache i)).after }
        ensures fault { IfErr result (λ fault. fault ≡ RunFault.Write) }
        ensures told { write_failed writer.new ≡ is_write result }
        ensures same_writer { writer.new.inner.ghost_name ≡ writer.old.inner.ghost_name }
        ensures number { self.new.number ≡ self.old.number }
        ensures place { self.new.place ≡ self.old.place }
        ensures debugger { self.new.debugger ≡ self.old.debugger }
    {
        let answer = standing_at(&self.debugger, cache, i);
        let asked = asked_at(&self.debugger, cache, i);
        self.scoring.page.clear();
        self.scoring
            .look(&self.place, cache, i, answer.as_slice(), asked);
        write_told(writer, self.scoring.page.as_slice())
    }

    // Reports those of the first `count` places of a cache that are stale.
    fn look_at_places<W: Write>(
        &mut self,
        cache: Cache,
        count: u64,
        writer: &mut WatchedWriter<'_, W>,
    ) -> Result<(), RunFault>
        requires { write_failed writer.old ≡ false }
        ensures ok { OnOk result (Appends (W.contents writer.old.inner.now) (W.contents writer.new.inner.now)
            (looked self.old.debugger.platform.now.machine cache (placed self.old.place) (score_of self.old.scoring) 0 count).said) }
        ensures front { OnErr result (WritesFront (W.contents writer.old.inner.now) (W.contents writer.new.inner.now)
            (looked self.old.debugger.platform.now.machine cache (placed self.old.place) (score_of self.old.scoring) 0 count).said) }
        ensures score { OnOk result (score_of self.new.scoring
            ≡ (looked self.old.debugger.platform.now.machine cache (placed self.old.place) (score_of self.old.scoring) 0 count).after) }
        ensures fault { IfErr result (λ fault. fault ≡ RunFault.Write) }
        ensures told { write_failed writer.new ≡ is_write result }
        ensures same_writer { writer.new.inner.ghost_name ≡ writer.old.inner.ghost_name }
        ensures number { self.new.number ≡ self.old.number }
        ensures place { self.new.place ≡ self.old.place }
        ensures debugger { self.new.debugger ≡ self.old.debugger }
    {
        for i in 0..count {
            self.look_at(cache, i, writer)?;
        }
        Ok(())
    }

    // Reports each stale place of both caches, if stale accesses are judged.
    fn look_at_caches<W: Write>(
        &mut self,
        writer: &mut WatchedWriter<'_, W>,
    ) -> Result<(), RunFault>
        requires { write_failed writer.old ≡ false }
        ensures ok { OnOk result (Appends (W.contents writer.old.inner.now) (W.contents writer.new.inner.now)
            (looked_by self.old.debugger.platform.now.machine (placed self.old.place) (score_of self.old.scoring)).said) }
        ensures front { OnErr result (WritesFront (W.contents writer.old.inner.now) (W.contents writer.new.inner.now)
            (looked_by self.old.debugger.platform.now.machine (placed self.old.place) (score_of self.old.scoring)).said) }
        ensures score { OnOk result (score_of self.new.scoring
            ≡ (looked_by self.old.debugger.platform.now.machine (placed self.old.place) (score_of self.old.scoring)).after) }
        ensures fault { IfErr result (λ fault. fault ≡ RunFault.Write) }
        ensures told { write_failed writer.new ≡ is_write result }
        ensures same_writer { writer.new.inner.ghost_name ≡ writer.old.inner.ghost_name }
        ensures number { self.new.number ≡ self.old.number }
        ensures place { self.new.place ≡ self.old.place }
        ensures debugger { self.new.debugger ≡ self.old.debugger }
    {
        if self.scoring.rules.fails_if_stale {
            self.look_at_places(Cache::Contexts, 16, writer)?;
            self.look_at_places(Cache::Pages, 64, writer)?;
        }
        Ok(())
    }

    // Looks at the places of both caches, if `looks`.
    fn look_if<W: Write>(
        &mut self,
        looks: bool,
        writer: &mut WatchedWriter<'_, W>,
    ) -> Result<(), RunFault>
        requires { write_failed writer.old ≡ false }
        ensures ok { OnOk result (Appends (W.contents writer.old.inner.now) (W.contents writer.new.inner.now)
            (places_if looks (checked_by self.old)).said) }
        ensures front { OnErr result (WritesFront (W.contents writer.old.inner.now) (W.contents writer.new.inner.now)
            (places_if looks (checked_by self.old)).said) }
        ensures score { OnOk result (score_of self.new.scoring ≡ (places_if looks (checked_by self.old)).after) }
        ensures same { looks ≡ false → score_of self.new.scoring ≡ score_of self.old.scoring }
        ensures fault { IfErr result (λ fault. fault ≡ RunFault.Write) }
        ensures told { write_failed writer.new ≡ is_write result }
        ensures same_writer { writer.new.inner.ghost_name ≡ writer.old.inner.ghost_name }
        ensures number { self.new.number ≡ self.old.number }
        ensures place { self.new.place ≡ self.old.place }
        ensures debugger { self.new.debugger ≡ self.old.debugger }
    {
        if looks {
            self.look_at_caches(writer)?;
        }
        Ok(())
    }
}

impl Checking<'_> {
    ghost use Rattle.std.specs.Prelude.{◌≡◌, false, IfErr, OnOk};
    ghost use Rattle.std.specs.Io.KnownBytes.{Appends};
    ghost use Rattle.iom_reader.specs.Running.{is_write};
    ghost use Rattle.iom_reader.specs.Watching.{write_failed};
    ghost use Rattle.iom_debug.specs.Settling.{is_lost_in};
    ghost use Rattle.iom_check.specs.Checking.{TellsOwed, places_by};
    ghost use Rattle.iom_debug.specs.Desks.{desk_of};
    ghost use Rattle.iom_check.specs.Drives.{checked_by};
    ghost use Rattle.iom_check.specs.Owing.{IsOwedPut, TellsAll, TellsIf, TellsOne};
    ghost use Rattle.iom_debug.specs.Placed.{placed};
    ghost use Rattle.iom_check.specs.Scores.{score_of};

    // Puts a request that is owed on the page.
    fn put_owed(&mut self, owed: &Owed)
        ensures told { IsOwedPut (places_by (desk_of self.old.debugger)) self.old.debugger.reasons.now.last_invalidation (score_of self.old.scoring) (placed self.old.place) owed.now
            self.new.scoring.page.items (score_of self.new.scoring) }
        ensures number { self.new.number ≡ self.old.number }
        ensures place { self.new.place ≡ self.old.place }
        ensures debugger { self.new.debugger ≡ self.old.debugger }
    {
        let request = owed.made.request;
        let line = name_of(&self.debugger.marks, owed.made.number);
        let last = self.debugger.last_invalidation();
        self.elsewhere.clear();
        put_elsewhere_at(
            &mut self.elsewhere,
            &self.debugger.marks,
            last,
            &owed.unsettled,
            request.iova,
        );
        let elsewhere = self.elsewhere.as_slice();
        self.scoring.page.clear();
        self.scoring
            .owe(&self.place, &request, line.as_slice(), elsewhere);
    }

    // Reports a request that is owed.
    fn tell_one<W: Write>(
        &mut self,
        owed: &Owed,
        writer: &mut WatchedWriter<'_, W>,
    ) -> Result<(), RunFault>
        requires { write_failed writer.old ≡ false }
        ensures ok { OnOk result (TellsOne (places_by (desk_of self.old.debugger)) self.old.debugger.reasons.now.last_invalidation (score_of self.old.scoring) (placed self.old.place) owed.now
            (W.contents writer.old.inner.now) (W.contents writer.new.inner.now) (score_of self.new.scoring)) }
        ensures fault { IfErr result (λ fault. fault ≡ RunFault.Write) }
        ensures told { write_failed writer.new ≡ is_write result }
        ensures same_writer { writer.new.inner.ghost_name ≡ writer.old.inner.ghost_name }
        ensures number { self.new.number ≡ self.old.number }
        ensures place { self.new.place ≡ self.old.place }
        ensures debugger { self.new.debugger ≡ self.old.debugger }
    {
        self.put_owed(owed);
        write_told(writer, self.scoring.page.as_slice())
    }

    // Reports requests that are owed.
    fn tell_all<W: Write>(
        &mut self,
        owed: &[Owed],
        writer: &mut WatchedWriter<'_, W>,
    ) -> Result<(), RunFault>
        requires { write_failed writer.old ≡ false }
        ensures ok { OnOk result (TellsAll (places_by (desk_of self.old.debugger)) self.old.debugger.reasons.now.last_invalidation (score_of self.old.scoring) (placed self.old.place) owed.now
            (W.contents writer.old.inner.now) (W.contents writer.new.inner.now) (score_of self.new.scoring)) }
        ensures fault { IfErr result (λ fault. fault ≡ RunFault.Write) }
        ensures told { write_failed writer.new ≡ is_write result }
        ensures same_writer { writer.new.inner.ghost_name ≡ writer.old.inner.ghost_name }
        ensures number { self.new.number ≡ self.old.number }
        ensures place { self.new.place ≡ self.old.place }
        ensures debugger { self.new.debugger ≡ self.old.debugger }
    {
        for each in owed {
            self.tell_one(each, writer)?;
        }
        Ok(())
    }

    // Reports each owed request, if the rules ask for it.
    fn tell_if<W: Write>(
        &mut self,
        owed: &[Owed],
        writer: &mut WatchedWriter<'_, W>,
    ) -> Result<(), RunFault>
        requires { write_failed writer.old ≡ false }
        ensures ok { OnOk result (TellsIf (places_by (desk_of self.old.debugger)) self.old.debugger.reasons.now.last_invalidation (score_of self.old.scoring) (placed self.old.place) owed.now
            (W.contents writer.old.inner.now) (W.contents writer.new.inner.now) (score_of self.new.scoring)) }
        ensures fault { IfErr result (λ fault. fault ≡ RunFault.Write) }
        ensures told { write_failed writer.new ≡ is_write result }
        ensures same_writer { writer.new.inner.ghost_name ≡ writer.old.inner.ghost_name }
        ensures number { self.new.number ≡ self.old.number }
        ensures place { self.new.place ≡ self.old.place }
        ensures debugger { self.new.debugger ≡ self.old.debugger }
    {
        if self.scoring.rules.fails_if_unsettled {
            self.tell_all(owed, writer)?;
        }
        Ok(())
    }

    // Reports what is owed, if it is judged.
    fn tell_owed<W: Write>(&mut self, writer: &mut WatchedWriter<'_, W>) -> Result<(), RunFault>
        requires { write_failed writer.old ≡ false }
        ensures told { OnOk result (TellsOwed (checked_by self.old) (is_lost_in self.new.debugger.reasons.now.settling)
            (W.contents writer.old.inner.now) (W.contents writer.new.inner.now) (score_of self.new.scoring)) }
        ensures fault { IfErr result (λ fault. fault ≡ RunFault.Write) }
        ensures write_told { write_failed writer.new ≡ is_write result }
        ensures same_writer { writer.new.inner.ghost_name ≡ writer.old.inner.ghost_name }
        ensures marks { self.new.debugger.marks ≡ self.old.debugger.marks }
        ensures number { self.new.number ≡ self.old.number }
        ensures place { self.new.place ≡ self.old.place }
    {
        if let Some(owed) = self.debugger.owed() {
            self.tell_if(&owed, writer)?;
        }
        Ok(())
    }
}

impl Answerer for Checking<'_> {
    ghost use Rattle.iom_debug.specs.Desks.{names_of};
    ghost use Rattle.iom_check.specs.Checking.{by_check};
    ghost use Rattle.iom_check.specs.Drives.{checked_by};

    ghost answering = { by_check };

    ghost state = { checked_by };

    ghost names = { λ c. names_of c.debugger };

    fn answer<W: Write>(
        &mut self,
        line: &[u8],
        writer: &mut WatchedWriter<'_, W>,
    ) -> Result<(), RunFault> {
        let line = first_bytes(line);
        let looks = self.judge_line(line);
        write_told(writer, self.scoring.page.as_slice())?;
        self.look_if(looks, writer)
    }
}

/// Checks the script that `reader` gives, and reports each line that fails, in the style of its rules, and at the end how many passed and how
/// many failed, which it answers. The faults are those of `run`, each only if it happened.
#[tactic(auto, using(crate::proofs::Telling::lawful, crate::proofs::Telling::checked))]
pub fn check<R: Read, W: Write>(
    checking: &mut Checking<'_>,
    reader: &mut WatchedReader<'_, R>,
    writer: &mut WatchedWriter<'_, W>,
) -> Result<Tally, RunFault>
    requires can_read { read_failed reader.old ≡ false }
    requires can_write { write_failed writer.old ≡ false }
    ensures checked { IfOk result (λ tally. IsChecked (checked_by checking.old)
        (R.remaining reader.old.inner.now) (R.remaining reader.new.inner.now)
        (W.contents writer.old.inner.now) (W.contents writer.new.inner.now)
        (is_lost_by (desk_of checking.new.debugger)) tally) }
    ensures stops { IfErr result (Stops by_check (R.remaining reader.old.inner.now) (R.remaining reader.new.inner.now)
        (progress (W.contents writer.old.inner.now) (checked_by checking.old))
        (progress (W.contents writer.new.inner.now) (checked_by checking.new))) }
    ensures read_told { read_failed reader.new ≡ is_read result }
    ensures write_told { write_failed writer.new ≡ is_write result }
    ensures same_reader { reader.new.inner.ghost_name ≡ reader.old.inner.ghost_name }
    ensures same_writer { writer.new.inner.ghost_name ≡ writer.old.inner.ghost_name }
{
    answer_all(checking, reader, writer)?;
    checking.look_at_caches(writer)?;
    checking.tell_owed(writer)?;
    checking.scoring.page.clear();
    checking.scoring.end(&checking.place);
    write_told(writer, checking.scoring.page.as_slice())?;
    Ok(checking.scoring.tally)
}
