ghost use Rattle.std.specs.Prelude.{◌≡◌, ◌<◌, ◌≤◌, length, IfSome};
ghost use Rattle.std.specs.Option.{option_map};
ghost use Rattle.iom_text.specs.Words.{is_blank};
ghost use Rattle.iom_debug.specs.Comments.{before_blanks, comment_at, comment_of, without_blanks};
ghost use Rattle.iom_debug.specs.Telling.{before_comment};

use iom_text::past_blanks;

/// Whether a byte parts words: a space, a tab or a CR.
pub fn is_blank(c: u8) -> bool
    ensures { result ≡ is_blank c }
{
    matches!(c, b' ' | b'\t' | b'\r')
}

// What stands before the blanks that a text ends with.
#[tactic(auto, using(crate::proofs::Blanks::one_less, crate::proofs::Blanks::cut_at))]
fn before_blanks(text: &[u8]) -> &[u8]
    ensures text { result.now ≡ before_blanks text.now }
    ensures short { length result.now ≤ length text.now }
{
    let mut end = text.len();
    while end > 0 && is_blank(text[end - 1]) {
        end -= 1;
    }
    &text[..end]
}

/// A text without the blanks (spaces, tabs, CRs) around it.
pub fn without_blanks(text: &[u8]) -> &[u8]
    ensures text { result.now ≡ without_blanks text.now }
    ensures short { length result.now ≤ length text.now }
{
    before_blanks(past_blanks(text))
}

// Where the first `#` stands.
fn comment_at(text: &[u8]) -> Option<usize>
    ensures place { result ≡ comment_at text.now }
    ensures inside { IfSome result (λ at. at < length text.now) }
{
    text.iter().position(|c| *c == b'#')
}

/// A line's comment: what stands behind the first `#`. None where there is none.
pub fn comment_of(line: &[u8]) -> Option<&[u8]>
    ensures comment { option_map (λ comment. comment.now) result ≡ comment_of line.now }
    ensures short { IfSome result (λ comment. length comment.now ≤ length line.now) }
{
    match comment_at(line) {
        Some(at) => Some(&line[at + 1..]),
        None => None,
    }
}

/// What stands before a line's comment, without the blanks (spaces, tabs, CRs) around it.
pub fn before_comment(line: &[u8]) -> &[u8]
    ensures text { result.now ≡ before_comment line.now }
    ensures short { length result.now ≤ length line.now }
{
    match comment_at(line) {
        Some(at) => without_blanks(&line[..at]),
        None => without_blanks(line),
    }
}
