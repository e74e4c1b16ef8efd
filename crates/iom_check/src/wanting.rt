ghost use Rattle.std.specs.Prelude.{◌≡◌, ◌≤◌, ◌<◌, true, length, take, codes, bytes_eq, IfSome};
ghost use Rattle.std.specs.Option.{option_map};
ghost use Rattle.iom_check.specs.Wanted.{answer_in, answer_of, has_arrow, is_arrow, is_pattern, is_wanted, serves, takes_any, wanted, wants_stale, wants_unsettled};

use iom_debug::{comment_of, is_blank, without_blanks};
use iom_text::past_blanks;

// Whether a comment begins with `=>`.
fn is_wish(comment: &[u8]) -> bool
    ensures same { result ≡ bytes_eq (take 2 comment.now) (codes "=>") }
    ensures long { result ≡ true → 2 ≤ length comment.now }
{
    matches!(comment, [b'=', b'>', ..])
}

// What follows `=>` in a comment that begins with it.
fn answer_in(comment: &[u8]) -> Option<&[u8]>
    ensures answer { option_map (λ answer. answer.now) result ≡ answer_in comment.now }
    ensures short { IfSome result (λ answer. length answer.now ≤ length comment.now) }
{
    if is_wish(comment) {
        Some(without_blanks(&comment[2..]))
    } else {
        None
    }
}

/// What a line's comment expects: the text of a comment `# => ANSWER`, `# => ANSWER stale`, `# => ANSWER unsettled` or `# => any unsettled`
/// behind its arrow, without the blanks (spaces, tabs, CRs) around it. It may be empty. None if the line has no comment of this form. The
/// comment begins after the first `#`.
#[tactic(auto, unfolding(crate::specs::Wanted::wanted))]
pub fn wish_of(line: &[u8]) -> Option<&[u8]>
    ensures wish { option_map (λ wish. wish.now) result ≡ wanted line.now }
    ensures short { IfSome result (λ wish. length wish.now ≤ length line.now) }
{
    match comment_of(line) {
        Some(comment) => answer_in(past_blanks(comment)),
        None => None,
    }
}

/// Whether a wish wants an access of its line to be stale: its last word is `stale`, and something stands before that.
pub fn wants_stale(wish: &[u8]) -> bool
    ensures same { result ≡ wants_stale wish.now }
    ensures long { result ≡ true → 5 < length wish.now }
{
    let count = wish.len();
    count > 5 && is_blank(wish[count - 6]) && &wish[count - 5..] == b"stale".as_slice()
}

/// Whether a wish wants an access of its line not to be settled: its last word is `unsettled`, and something stands before that.
pub fn wants_unsettled(wish: &[u8]) -> bool
    ensures same { result ≡ wants_unsettled wish.now }
    ensures long { result ≡ true → 9 < length wish.now }
{
    let count = wish.len();
    count > 9 && is_blank(wish[count - 10]) && &wish[count - 9..] == b"unsettled".as_slice()
}

/// The answer that a wish wants: without the last word where that wants a stale access, or one that isn't settled.
pub fn answer_of(wish: &[u8]) -> &[u8]
    ensures { result.now ≡ answer_of wish.now }
{
    if wants_stale(wish) {
        without_blanks(&wish[..wish.len() - 6])
    } else if wants_unsettled(wish) {
        without_blanks(&wish[..wish.len() - 10])
    } else {
        wish
    }
}

/// Whether each answer but `bad` serves a wish: it is `any unsettled`.
pub fn takes_any(wish: &[u8]) -> bool
    ensures { result ≡ takes_any wish.now }
{
    wants_unsettled(wish) && answer_of(wish) == b"any".as_slice()
}

// Whether a wanted answer is a pattern: its last byte is `*`.
fn is_pattern(wanted: &[u8]) -> bool
    ensures same { result ≡ is_pattern wanted.now }
    ensures long { result ≡ true → 0 < length wanted.now }
{
    let count = wanted.len();
    count > 0 && wanted[count - 1] == b'*'
}

// Whether an answer is the wanted one, or begins with what stands before the `*` of a pattern.
#[tactic(auto, unfolding(crate::specs::Wanted::serves))]
fn serves(wanted: &[u8], answer: &[u8]) -> bool
    ensures { result ≡ serves wanted.now answer.now }
{
    if is_pattern(wanted) {
        answer.starts_with(&wanted[..wanted.len() - 1])
    } else {
        wanted == answer
    }
}

/// Whether a wish wants this answer. If the answer of the wish ends with `*`, it wants each that begins with what stands before that.
pub fn is_wanted(wish: &[u8], answer: &[u8]) -> bool
    ensures { result ≡ is_wanted wish.now answer.now }
{
    if takes_any(wish) {
        answer != b"bad".as_slice()
    } else {
        serves(answer_of(wish), answer)
    }
}

// Whether a text begins with `>`, perhaps behind blanks, `=` and `-`.
fn is_arrow(text: &[u8]) -> bool
    ensures { result ≡ is_arrow text.now }
{
    for byte in text {
        match byte {
            b'>' => return true,
            b' ' | b'\t' | b'\r' | b'=' | b'-' => {}
            _ => return false,
        }
    }
    false
}

/// Whether some `#` of a line is followed by what looks like the arrow of a wish: `>`, perhaps behind blanks, `=` and `-`.
pub fn has_arrow(line: &[u8]) -> bool
    ensures { result ≡ has_arrow line.now }
{
    for i in 0..line.len() {
        if line[i] == b'#' && is_arrow(&line[i + 1..]) {
            return true;
        }
    }
    false
}
