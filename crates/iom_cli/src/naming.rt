//! The image that a script names itself.

ghost use Rattle.std.specs.Prelude.{◌≡◌, ◌==◌, ◌≤◌, IfSome, length};
ghost use Rattle.std.specs.List.{position};
ghost use Rattle.std.specs.Option.{option_map};
ghost use Rattle.iom_cli.specs.Naming.{first_end, first_line, image_by, image_named, without_image};

use iom_text::{is_over, line_end, take_word};

/// The most bytes of a line that says something.
const MOST_BYTES_OF_A_LINE: usize = 512;

// Where the first line has its end.
fn first_end(script: &[u8]) -> usize
    ensures place { result ≡ first_end script.now }
    ensures inside { result ≤ length script.now }
{
    match line_end(script) {
        Some(at) => at,
        None => script.len(),
    }
}

// Where the first `#` stands.
fn comment_at(line: &[u8]) -> Option<usize>
    ensures place { result ≡ position (λ c. c == 35) line.now }
    ensures inside { IfSome result (λ at. at ≤ length line.now) }
{
    line.iter().position(|c| *c == b'#')
}

// The file that a line names.
#[tactic(auto, using(crate::proofs::Names::long_line, crate::proofs::Names::other_line), unfolding(crate::specs::Naming::image_by))]
fn image_by(line: &[u8]) -> Option<&[u8]>
    ensures { option_map (λ file. file.now) result ≡ image_by line.now }
{
    if line.len() > MOST_BYTES_OF_A_LINE {
        return None;
    }
    let (word, rest) = take_word(line)?;
    let (file, more) = take_word(rest)?;
    if word != b"image".as_slice() {
        return None;
    }
    if is_over(more) { Some(file) } else { None }
}

/// The file of the image that a script names, where its first line is `image FILE`; None if that is any other line. A `#` begins a comment, so no
/// name of a file has it, nor a blank.
#[tactic(auto, unfolding(crate::specs::Naming::image_named))]
pub fn image_named(script: &[u8]) -> Option<&[u8]>
    ensures { option_map (λ file. file.now) result ≡ image_named script.now }
{
    image_by(&script[..first_end(script)])
}

/// What is left of a script whose first line names its image: that line's comment, and all behind it, so that each line keeps its number.
#[tactic(auto, using(crate::proofs::Names::from_comment), unfolding(crate::specs::Naming::without_image))]
pub fn without_image(script: &[u8]) -> &[u8]
    ensures { result.now ≡ without_image script.now }
{
    let end = first_end(script);
    match comment_at(&script[..end]) {
        Some(at) => &script[at..],
        None => &script[end..],
    }
}
