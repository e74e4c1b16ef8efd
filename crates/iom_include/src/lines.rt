//! The line `include FILE`.

ghost use Rattle.std.specs.Prelude.{◌≡◌, ◌==◌, ◌<◌, ◌∷◌, ◌+◌, ◌++◌, ℕ, List, [], drop, take, length, false, IfNone, IfSome};
ghost use Rattle.std.specs.List.{list_any, position};
ghost use Rattle.std.specs.Option.{option_map};
ghost use Rattle.iom_include.specs.Including.{comment_of, file_of};
ghost use Rattle.iom_reader.specs.Lines.{ended_lines, lines_of};

use iom_text::{is_over, line_end, take_word};

/// The most bytes of a line that says something.
const MOST_BYTES_OF_A_LINE: usize = 512;

/// The file that a line includes; None if the line isn't `include FILE`. A `#` begins a comment, so no name of a file has it, nor a blank.
#[tactic(auto, unfolding(crate::specs::Including::file_of))]
pub fn file_of(line: &[u8]) -> Option<&[u8]>
    ensures { option_map (λ file. file.now) result ≡ file_of line.now }
{
    if line.len() > MOST_BYTES_OF_A_LINE {
        return None;
    }
    let (word, rest) = take_word(line)?;
    let (file, more) = take_word(rest)?;
    if word != b"include".as_slice() {
        return None;
    }
    if is_over(more) { Some(file) } else { None }
}

// Where the first `#` stands.
fn comment_at(line: &[u8]) -> Option<usize>
    ensures place { result ≡ position (λ c. c == 35) line.now }
    ensures inside { IfSome result (λ at. at < length line.now) }
{
    line.iter().position(|c| *c == b'#')
}

/// A line's comment, from `#` on.
pub fn comment_of(line: &[u8]) -> &[u8]
    ensures { result.now ≡ comment_of line.now }
{
    match comment_at(line) {
        Some(at) => &line[at..],
        None => &line[line.len()..],
    }
}

/// The first line of a text that has its end, and the text after it.
pub fn cut(text: &[u8]) -> Option<(&[u8], &[u8])>
    ensures none { IfNone result (list_any (λ c. c == 10) text.now ≡ false) }
    ensures ended { IfSome result (λ cut. ended_lines text.now ≡ cut.0.now ∷ ended_lines cut.1.now) }
    ensures lines { IfSome result (λ cut. (more : List ℕ) → lines_of (text.now ++ more) ≡ cut.0.now ∷ lines_of (cut.1.now ++ more)) }
    ensures front { IfSome result (λ cut. take (length cut.0.now + 1) text.now ≡ cut.0.now ++ 10 ∷ []) }
    ensures after { IfSome result (λ cut. cut.1.now ≡ drop (length cut.0.now + 1) text.now) }
    ensures shorter { IfSome result (λ cut. length cut.0.now + 1 + length cut.1.now ≡ length text.now) }
{
    match line_end(text) {
        Some(at) => Some((&text[..at], &text[at + 1..])),
        None => None,
    }
}
