//! How a checked script goes.

use crate::judging::{fails, message, passes, remark, title};
use crate::looking::{Cache, is_current, place_message, place_title};
use crate::owing::owed_message;
use crate::pages::ReportPage;
use crate::points::{Point, push_failure, push_note, push_pass, push_tally};
use crate::reported::{DevicePage, is_known_page, is_told_of, page_of};
use crate::rules::{Rules, Style, Tally};
use arrayvec::ArrayVec;
use iom_core::Request;
use iom_debug::{Place, request_line};

/// What was found in a script up to a line, and the report of that line.
#[derive(Drop)]
pub struct Scoring<'a> {
    /// What it is judged by.
    pub rules: Rules,
    /// Its file, if it has one.
    pub name: Option<&'a str>,
    /// How many test points there were, in scripts before it too.
    pub points: u64,
    /// How many of its own passed and failed.
    pub tally: Tally,
    /// Whether a line had a wish.
    pub has_wish: bool,
    /// The first pages that failures were about.
    pub pages: ArrayVec<DevicePage, 64>,
    /// The report.
    pub page: ReportPage,
}

impl<'a> Scoring<'a> {
    ghost use Rattle.iom_tool.specs.Room.{answer_room};
    ghost use Rattle.std.specs.Prelude.{◌≡◌, ◌+◌, ◌++◌, ◌*◌, ◌<◌, ◌≤◌, [], length};
    ghost use Rattle.std.specs.Option.{option_map};
    ghost use Rattle.iom_check.specs.Scores.{begun, score_of};
    ghost use Rattle.iom_check.specs.Scoring.{ended, failed, judged, more, noted, noted_as, noted_at, noted_beside, passed, remarked, with_page, with_wish};
    ghost use Rattle.iom_check.specs.Checking.{closing};
    ghost use Rattle.iom_check.specs.Judging.{message, remark, title};
    ghost use Rattle.iom_check.specs.Looking.{looked_at};
    ghost use Rattle.iom_check.specs.Owing.{owed_by};
    ghost use Rattle.iom_debug.specs.Placed.{placed};
    ghost use Rattle.iom_check.specs.Wanted.{wanted};

    /// A script of this file, if it has one, of which no line was judged yet; there were `points` test points before it.
    pub fn new(rules: Rules, name: Option<&'a str>, points: u64) -> Scoring<'a>
        ensures score { score_of result ≡ begun rules (option_map (λ name. name.now) name.entry) points }
        ensures empty { result.page.items ≡ [] }
    {
        Scoring {
            rules,
            name,
            points,
            tally: Tally {
                passed: 0,
                failed: 0,
            },
            has_wish: false,
            pages: ArrayVec::new(),
            page: ReportPage::new(),
        }
    }

    // The next test point, at a line.
    fn point<'p>(&self, place: &'p Place) -> Point<'a, 'p>
        ensures name { result.name ≡ self.now.name }
        ensures place { result.place.now ≡ place.now }
        ensures number { result.number ≡ more self.now.points }
    {
        Point {
            name: self.name,
            place,
            number: self.points.saturating_add(1),
        }
    }

    // A test point of a line passes.
    fn pass(&mut self, place: &Place, title: &[u8])
        requires short { length title.now ≤ 2052 }
        requires room { length self.old.page.items + 40000 ≤ 204800 }
        ensures text { self.new.page.items ≡ self.old.page.items ++ (passed (score_of self.old) (placed place.now) title.now).said }
        ensures room { length self.new.page.items ≤ length self.old.page.items + 40000 }
        ensures score { score_of self.new ≡ (passed (score_of self.old) (placed place.now) title.now).after }
    {
        let point = self.point(place);
        push_pass(&mut self.page, self.rules.style, point, title);
        self.points = self.points.saturating_add(1);
        self.tally.passed = self.tally.passed.saturating_add(1);
    }

    // A test point passes, at a line; its title is reported.
    #[inline(never)]
    fn pass_titled(&mut self, place: &Place, line: &[u8])
        requires line { length line.now ≤ 513 }
        requires empty { length self.old.page.items ≡ 0 }
        ensures text { self.new.page.items ≡ self.old.page.items ++ (passed (score_of self.old) (placed place.now) (title line.now)).said }
        ensures room { length self.new.page.items ≤ 119000 }
        ensures score { score_of self.new ≡ (passed (score_of self.old) (placed place.now) (title line.now)).after }
    {
        self.pass(place, title(line).as_slice());
    }

    /// A test point passes, at a line. As text nothing is reported of it.
    #[inline(never)]
    pub fn pass_line(&mut self, place: &Place, line: &[u8])
        requires line { length line.now ≤ 513 }
        requires empty { length self.old.page.items ≡ 0 }
        ensures text { self.new.page.items ≡ self.old.page.items ++ (passed (score_of self.old) (placed place.now) (title line.now)).said }
        ensures room { length self.new.page.items ≤ 119000 }
        ensures score { score_of self.new ≡ (passed (score_of self.old) (placed place.now) (title line.now)).after }
    {
        match self.rules.style {
            Style::Text => self.pass(place, b""),
            Style::Tap | Style::Junit => self.pass_titled(place, line),
        }
    }

    /// A test point of a line fails.
    #[inline(never)]
    pub fn fail(&mut self, place: &Place, title: &[u8], message: &[u8])
        requires title { length title.now ≤ 2052 }
        requires message { length message.now ≤ 13460 }
        requires room { length self.old.page.items + 6 * length title.now + 6 * length message.now + 25300 ≤ 204800 }
        ensures text { self.new.page.items ≡ self.old.page.items ++ (failed (score_of self.old) (placed place.now) title.now message.now).said }
        ensures room { length self.new.page.items ≤ length self.old.page.items + 6 * length title.now + 6 * length message.now + 25300 }
        ensures score { score_of self.new ≡ (failed (score_of self.old) (placed place.now) title.now message.now).after }
    {
        let point = self.point(place);
        push_failure(&mut self.page, self.rules.style, point, title, message);
        self.points = self.points.saturating_add(1);
        self.tally.failed = self.tally.failed.saturating_add(1);
    }

    // A test point fails, at a line.
    #[inline(never)]
    fn fail_line(
        &mut self,
        place: &Place,
        line: &[u8],
        answer: &[u8],
        slip: &[u8],
        tables: &[u8],
        elsewhere: &[u8],
    )
        requires line { length line.now ≤ 513 }
        requires answer { length answer.now ≤ answer_room }
        requires slip { length slip.now ≤ answer_room }
        requires tables { length tables.now ≤ 2620 }
        requires elsewhere { length elsewhere.now ≤ 5080 }
        requires empty { length self.old.page.items ≡ 0 }
        ensures text { self.new.page.items ≡ self.old.page.items ++ (failed (score_of self.old) (placed place.now) (title line.now)
            (message self.old.rules line.now answer.now slip.now tables.now elsewhere.now)).said }
        ensures room { length self.new.page.items ≤ 119000 }
        ensures score { score_of self.new ≡ (failed (score_of self.old) (placed place.now) (title line.now)
            (message self.old.rules line.now answer.now slip.now tables.now elsewhere.now)).after }
    {
        let rules = self.rules;
        self.fail(
            place,
            title(line).as_slice(),
            message(rules, line, answer, slip, tables, elsewhere).as_slice(),
        );
    }

    // Notes what would go unnoticed: it fails by this title where the rules are strict.
    #[inline(never)]
    fn note_as(&mut self, place: &Place, title: &[u8], text: &[u8])
        requires title { length title.now ≤ 2052 }
        requires short { length text.now ≤ 2620 }
        requires room { length self.old.page.items + 6 * length title.now + 6 * length text.now + 25300 ≤ 204800 }
        ensures text { self.new.page.items ≡ self.old.page.items ++ (noted_as (score_of self.old) (placed place.now) title.now text.now).said }
        ensures room { length self.new.page.items ≤ length self.old.page.items + 6 * length title.now + 6 * length text.now + 25300 }
        ensures score { score_of self.new ≡ (noted_as (score_of self.old) (placed place.now) title.now text.now).after }
    {
        if self.rules.is_strict {
            self.fail(place, title, text);
        } else {
            push_note(&mut self.page, self.rules.style, self.name, place, text);
        }
    }

    /// Notes what would go unnoticed, by itself: it fails where the rules are strict.
    pub fn note(&mut self, place: &Place, text: &[u8])
        requires short { length text.now ≤ 64 }
        requires room { length self.old.page.items ≤ 119000 }
        ensures text { self.new.page.items ≡ self.old.page.items ++ (noted (score_of self.old) (placed place.now) text.now).said }
        ensures room { length self.new.page.items ≤ length self.old.page.items + 26100 }
        ensures score { score_of self.new ≡ (noted (score_of self.old) (placed place.now) text.now).after }
    {
        self.note_as(place, text, text);
    }

    // Notes what a line has that would go unnoticed.
    #[tactic(auto, unfolding(crate::specs::Judging::remark))]
    fn note_line(
        &mut self,
        place: &Place,
        line: &[u8],
        wish: Option<&[u8]>,
        answer: &[u8],
        ignored: bool,
    )
        requires wish { option_map (λ wish. wish.now) wish ≡ wanted line.now }
        requires room { length self.old.page.items ≤ 119000 }
        ensures text { self.new.page.items ≡ self.old.page.items ++ (noted_at (score_of self.old) (placed place.now) (remark line.now answer.now ignored)).said }
        ensures room { length self.new.page.items ≤ 145100 }
        ensures score { score_of self.new ≡ (noted_at (score_of self.old) (placed place.now) (remark line.now answer.now ignored)).after }
    {
        let text = remark(wish, line, answer, ignored);
        if !text.is_empty() {
            self.note(place, text);
        }
    }

    // Notes an access of a line that may be led by another way, if `beside` isn't empty.
    fn note_beside(&mut self, place: &Place, line: &[u8], beside: &[u8])
        requires line { length line.now ≤ 513 }
        requires beside { length beside.now ≤ 2620 }
        requires room { length self.old.page.items ≤ 145100 }
        ensures text { self.new.page.items ≡ self.old.page.items ++ (noted_beside (score_of self.old) (placed place.now) line.now beside.now).said }
        ensures score { score_of self.new ≡ (noted_beside (score_of self.old) (placed place.now) line.now beside.now).after }
    {
        if !beside.is_empty() {
            self.note_other_way(place, line, beside);
        }
    }

    // Notes an access of a line that may be led by another way. Not inlined: its page would be cleared for each line.
    #[inline(never)]
    fn note_other_way(&mut self, place: &Place, line: &[u8], beside: &[u8])
        requires line { length line.now ≤ 513 }
        requires some { 0 < length beside.now }
        requires beside { length beside.now ≤ 2620 }
        requires room { length self.old.page.items ≤ 145100 }
        ensures text { self.new.page.items ≡ self.old.page.items ++ (noted_beside (score_of self.old) (placed place.now) line.now beside.now).said }
        ensures score { score_of self.new ≡ (noted_beside (score_of self.old) (placed place.now) line.now beside.now).after }
    {
        self.note_as(place, title(line).as_slice(), beside);
    }

    // A failure is about the page of this request, if there is one and 64 aren't kept yet.
    fn note_page(&mut self, request: Option<Request>)
        ensures page { self.new.page ≡ self.old.page }
        ensures score { score_of self.new ≡ with_page (score_of self.old) request }
    {
        if let Some(request) = request
            && self.pages.len() < 64
        {
            let _fits = self.pages.try_push(page_of(&request));
        }
    }

    /// Judges a line, which stands at `place` and has this wish, by its answer. `slip` is why it is bad, and empty if it isn't; `tables` is
    /// empty if no stale access is reported, and `elsewhere` if no unsettled one is; a failure is about the pages of the requests `stale` and `told`.
    pub fn judge(
        &mut self,
        place: &Place,
        line: &[u8],
        wish: Option<&[u8]>,
        answer: &[u8],
        slip: &[u8],
        tables: &[u8],
        elsewhere: &[u8],
        stale: Option<Request>,
        told: Option<Request>,
    )
        requires line { length line.now ≤ 513 }
        requires wish { option_map (λ wish. wish.now) wish ≡ wanted line.now }
        requires answer { length answer.now ≤ answer_room }
        requires slip { length slip.now ≤ answer_room }
        requires tables { length tables.now ≤ 2620 }
        requires elsewhere { length elsewhere.now ≤ 5080 }
        requires empty { length self.old.page.items ≡ 0 }
        ensures text { self.new.page.items ≡ self.old.page.items ++ (judged (score_of self.old) (placed place.now) line.now answer.now slip.now tables.now elsewhere.now stale told).said }
        ensures room { length self.new.page.items ≤ 119000 }
        ensures score { score_of self.new ≡ (judged (score_of self.old) (placed place.now) line.now answer.now slip.now tables.now elsewhere.now stale told).after }
    {
        let rules = self.rules;
        if fails(rules, wish, answer, tables, elsewhere) {
            self.fail_line(place, line, answer, slip, tables, elsewhere);
            self.note_page(stale);
            self.note_page(told);
        } else if passes(rules, wish, answer, tables, elsewhere) {
            self.pass_line(place, line);
        }
    }

    /// Notes what a line at `place` has that would go unnoticed, what is told of an access of it that may be led by another way, whether a write of it
    /// was ignored, and whether it has a wish. `beside` is empty if no such access is told.
    pub fn remark(
        &mut self,
        place: &Place,
        line: &[u8],
        wish: Option<&[u8]>,
        answer: &[u8],
        beside: &[u8],
        ignored: bool,
    )
        requires line { length line.now ≤ 513 }
        requires wish { option_map (λ wish. wish.now) wish ≡ wanted line.now }
        requires beside { length beside.now ≤ 2620 }
        requires room { length self.old.page.items ≤ 119000 }
        ensures text { self.new.page.items ≡ self.old.page.items ++ (remarked (score_of self.old) (placed place.now) line.now answer.now beside.now ignored).said }
        ensures score { score_of self.new ≡ with_wish (remarked (score_of self.old) (placed place.now) line.now answer.now beside.now ignored).after line.now }
    {
        self.note_line(place, line, wish, answer, ignored);
        self.note_beside(place, line, beside);
        self.has_wish = self.has_wish || wish.is_some();
    }

    /// Judges place `i` of a cache by its answer and the request that it is found by, behind the line at `place`.
    pub fn look(
        &mut self,
        place: &Place,
        cache: Cache,
        i: u64,
        answer: &[u8],
        asked: Option<Request>,
    )
        requires answer { length answer.now ≤ answer_room }
        requires empty { length self.old.page.items ≡ 0 }
        ensures text { self.new.page.items ≡ self.old.page.items ++ (looked_at (score_of self.old) (placed place.now) cache i answer.now asked).said }
        ensures score { score_of self.new ≡ (looked_at (score_of self.old) (placed place.now) cache i answer.now asked).after }
    {
        if !(is_current(answer) || is_known_page(self.pages.as_slice(), asked)) {
            let title = place_title(cache, i);
            self.fail(
                place,
                title.as_slice(),
                place_message(title.as_slice(), answer).as_slice(),
            );
            self.note_page(asked);
        }
    }

    /// Reports a request that is owed, behind the line at `place`, unless a failure was about its page. `line` is the name of the line that made it,
    /// `elsewhere` where it may be led.
    pub fn owe(&mut self, place: &Place, request: &Request, line: &[u8], elsewhere: &[u8])
        requires empty { length self.old.page.items ≡ 0 }
        requires line { length line.now ≤ 2080 }
        requires elsewhere { length elsewhere.now ≤ 5080 }
        ensures text { self.new.page.items ≡ self.old.page.items ++ (owed_by (score_of self.old) (placed place.now) request.now line.now elsewhere.now).said }
        ensures score { score_of self.new ≡ (owed_by (score_of self.old) (placed place.now) request.now line.now elsewhere.now).after }
    {
        if !is_told_of(self.pages.as_slice(), request) {
            let title = request_line(request);
            self.fail(
                place,
                title.as_slice(),
                owed_message(title.as_slice(), line, elsewhere).as_slice(),
            );
        }
    }

    // Notes at a script's end that no line had a wish. `place` is that of the last one.
    fn note_end(&mut self, place: &Place)
        requires { length self.old.page.items ≡ 0 }
        ensures text { self.new.page.items ≡ self.old.page.items ++ (ended (score_of self.old) (placed place.now)).said }
        ensures room { length self.new.page.items ≤ 120000 }
        ensures score { score_of self.new ≡ (ended (score_of self.old) (placed place.now)).after }
    {
        if !self.has_wish {
            self.note(place, b"no line has a wish");
        }
    }

    /// Notes at a script's end that no line had a wish, and reports its sum. `place` is that of the last line.
    pub fn end(&mut self, place: &Place)
        requires { length self.old.page.items ≡ 0 }
        ensures text { self.new.page.items ≡ self.old.page.items ++ closing (ended (score_of self.old) (placed place.now)) }
        ensures score { score_of self.new ≡ (ended (score_of self.old) (placed place.now)).after }
    {
        self.note_end(place);
        push_tally(&mut self.page, self.rules.style, self.name, self.tally);
    }
}
