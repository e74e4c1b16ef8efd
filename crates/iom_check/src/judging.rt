//! Which lines pass and which fail, and what is said of them.

ghost use Rattle.iom_tool.specs.Room.{answer_room};
ghost use Rattle.std.specs.Prelude.{◌≡◌, ◌+◌, ◌++◌, ◌≤◌, length, codes, IfSome};
ghost use Rattle.std.specs.Option.{option_map};
ghost use Rattle.iom_debug.specs.Escaping.{escaped};
ghost use Rattle.iom_check.specs.Judging.{allows_stale, allows_unsettled, elsewhere_text, fails, ignored_text, meets, message, passes, refusal, remark_by, tables_text, title, wish_text};

use crate::rules::Rules;
use crate::wanting::{has_arrow, is_wanted, wants_stale, wants_unsettled, wish_of};
use iom_debug::{OutputPage, before_comment, put, put_escaped, put_slip};

// Whether an answer is the wanted one, with an access that is stale, or isn't settled, where that is wanted and judged; or isn't `bad` where
// nothing is wanted.
fn meets(rules: Rules, wish: Option<&[u8]>, answer: &[u8], tables: &[u8], elsewhere: &[u8]) -> bool
    ensures { result ≡ meets rules (option_map (λ wish. wish.now) wish.entry) answer.now tables.now elsewhere.now }
{
    match wish {
        Some(wish) => is_wanted(wish, answer)
            && (!tables.is_empty() || !(rules.fails_if_stale && wants_stale(wish)))
            && (!elsewhere.is_empty() || !(rules.fails_if_unsettled && wants_unsettled(wish))),
        None => answer != b"bad".as_slice(),
    }
}

// Whether a stale access is allowed: it is wanted, or one that isn't settled.
fn allows_stale(wish: Option<&[u8]>) -> bool
    ensures { result ≡ allows_stale (option_map (λ wish. wish.now) wish.entry) }
{
    match wish {
        Some(wish) => wants_stale(wish) || wants_unsettled(wish),
        None => false,
    }
}

// Whether an access is allowed that isn't settled.
fn allows_unsettled(wish: Option<&[u8]>) -> bool
    ensures { result ≡ allows_unsettled (option_map (λ wish. wish.now) wish.entry) }
{
    match wish {
        Some(wish) => wants_unsettled(wish),
        None => false,
    }
}

/// Whether a line with this wish fails. `tables` is empty if no stale access is reported, and `elsewhere` if no unsettled one is.
pub fn fails(
    rules: Rules,
    wish: Option<&[u8]>,
    answer: &[u8],
    tables: &[u8],
    elsewhere: &[u8],
) -> bool
    ensures { result ≡ fails rules (option_map (λ wish. wish.now) wish.entry) answer.now tables.now elsewhere.now }
{
    !answer.is_empty()
        && (!meets(rules, wish, answer, tables, elsewhere)
            || (!tables.is_empty() && !allows_stale(wish))
            || (!elsewhere.is_empty() && !allows_unsettled(wish)))
}

/// Whether it passes.
pub fn passes(
    rules: Rules,
    wish: Option<&[u8]>,
    answer: &[u8],
    tables: &[u8],
    elsewhere: &[u8],
) -> bool
    ensures { result ≡ passes rules (option_map (λ wish. wish.now) wish.entry) answer.now tables.now elsewhere.now }
{
    !answer.is_empty() && wish.is_some() && !fails(rules, wish, answer, tables, elsewhere)
}

// Puts the wish that isn't met.
fn put_wish(
    out: &mut OutputPage,
    rules: Rules,
    wish: Option<&[u8]>,
    answer: &[u8],
    tables: &[u8],
    elsewhere: &[u8],
)
    requires short { IfSome wish (λ wish. length wish.now ≤ 513) }
    requires room { length out.old.items ≤ 4096 }
    ensures text { out.new.items ≡ out.old.items
        ++ wish_text rules (option_map (λ wish. wish.now) wish.entry) answer.now tables.now elsewhere.now }
    ensures room { length out.new.items ≤ length out.old.items + 2062 }
{
    if let Some(wanted) = wish
        && !meets(rules, wish, answer, tables, elsewhere)
    {
        put_wanted(out, wanted);
    }
}

// Puts a wish.
fn put_wanted(out: &mut OutputPage, wish: &[u8])
    requires short { length wish.now ≤ 513 }
    requires room { length out.old.items ≤ 8192 }
    ensures text { out.new.items ≡ out.old.items ++ (codes ", wanted " ++ escaped wish.now) }
    ensures room { length out.new.items ≤ length out.old.items + 2062 }
{
    put(out, b", wanted ");
    put_escaped(out, wish);
}

// Puts what the tables said of an access that was stale.
fn put_tables(out: &mut OutputPage, tables: &[u8])
    requires short { length tables.now ≤ 2620 }
    requires room { length out.old.items ≤ 9000 }
    ensures text { out.new.items ≡ out.old.items ++ tables_text tables.now }
    ensures room { length out.new.items ≤ length out.old.items + 2640 }
{
    if !tables.is_empty() {
        put_stale(out, tables);
    }
}

// Puts what the tables say now.
fn put_stale(out: &mut OutputPage, tables: &[u8])
    requires short { length tables.now ≤ 2620 }
    requires room { length out.old.items ≤ 9000 }
    ensures text { out.new.items ≡ out.old.items ++ (codes ", stale: " ++ tables.now) }
    ensures room { length out.new.items ≤ length out.old.items + 2640 }
{
    put(out, b", stale: ");
    put(out, tables);
}

// Puts where an access may still be led that isn't settled.
fn put_elsewhere(out: &mut OutputPage, elsewhere: &[u8])
    requires short { length elsewhere.now ≤ 5080 }
    requires room { length out.old.items ≤ 9000 }
    ensures text { out.new.items ≡ out.old.items ++ elsewhere_text elsewhere.now }
    ensures room { length out.new.items ≤ length out.old.items + 5100 }
{
    if !elsewhere.is_empty() {
        put_unsettled(out, elsewhere);
    }
}

// Puts it where there is one.
fn put_unsettled(out: &mut OutputPage, elsewhere: &[u8])
    requires short { length elsewhere.now ≤ 5080 }
    requires room { length out.old.items ≤ 9000 }
    ensures text { out.new.items ≡ out.old.items ++ (codes ", unsettled: " ++ elsewhere.now) }
    ensures room { length out.new.items ≤ length out.old.items + 5100 }
{
    put(out, b", unsettled: ");
    put(out, elsewhere);
}

/// A line as a report shows it: without its comment, escaped.
pub fn title(line: &[u8]) -> OutputPage
    requires { length line.now ≤ 513 }
    ensures text { result.items ≡ title line.now }
    ensures room { length result.items ≤ 2052 }
{
    let mut out = OutputPage::new();
    put_escaped(&mut out, before_comment(line));
    out
}

/// What is said of a line that fails. `slip` is why it is bad, and empty if it isn't.
#[tactic(auto, unfolding(crate::specs::Judging::message))]
pub fn message(
    rules: Rules,
    line: &[u8],
    answer: &[u8],
    slip: &[u8],
    tables: &[u8],
    elsewhere: &[u8],
) -> OutputPage
    requires line { length line.now ≤ 513 }
    requires answer { length answer.now ≤ answer_room }
    requires slip { length slip.now ≤ answer_room }
    requires tables { length tables.now ≤ 2620 }
    requires elsewhere { length elsewhere.now ≤ 5080 }
    ensures text { result.items ≡ message rules line.now answer.now slip.now tables.now elsewhere.now }
    ensures room { length result.items ≤ 13460 }
{
    let mut out = title(line);
    put(&mut out, b" -> ");
    put_escaped(&mut out, answer);
    put_slip(&mut out, slip);
    put_wish(&mut out, rules, wish_of(line), answer, tables, elsewhere);
    put_tables(&mut out, tables);
    put_elsewhere(&mut out, elsewhere);
    out
}

// What is noted of a write that the IOMMU ignored; empty: there was none.
fn ignored_text(ignored: bool) -> &'static [u8]
    ensures text { result.now ≡ ignored_text ignored }
    ensures short { length result.now ≤ 64 }
{
    if ignored {
        b"the register is busy, and ignores the write"
    } else {
        b""
    }
}

// What is noted of the answer of a step that was refused, or ignored; empty: of any other.
fn refusal(answer: &[u8], ignored: bool) -> &'static [u8]
    ensures text { result.now ≡ refusal answer.now ignored }
    ensures short { length result.now ≤ 64 }
{
    if answer == b"misuse".as_slice() {
        b"the answer is misuse, and no wish expects it"
    } else if answer == b"bad access".as_slice() {
        b"the answer is bad access, and no wish expects it"
    } else if answer == b"bus error".as_slice() {
        b"the answer is bus error, and no wish expects it"
    } else if answer == b"no device".as_slice() {
        b"the answer is no device, and no wish expects it"
    } else {
        ignored_text(ignored)
    }
}

/// What a line with this wish has that would go unnoticed: a wish, but no answer; a comment that looks like a wish and is none; no wish, and
/// a step that was refused; or a write that was ignored. Empty: none of these.
pub fn remark(wish: Option<&[u8]>, line: &[u8], answer: &[u8], ignored: bool) -> &'static [u8]
    ensures text { result.now ≡ remark_by (option_map (λ wish. wish.now) wish.entry) line.now answer.now ignored }
    ensures short { length result.now ≤ 64 }
{
    match wish {
        Some(_) if answer.is_empty() => b"the wish is on a line without an answer",
        Some(_) => ignored_text(ignored),
        None if has_arrow(line) => b"the comment isn't a wish, which is # => ANSWER",
        None => refusal(answer, ignored),
    }
}
