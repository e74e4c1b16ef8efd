//! The assembler.

ghost use Rattle.std.specs.Prelude.{◌≡◌, ◌≢◌, ◌∷◌, ◌<◌, [], length, IfOk};
ghost use Rattle.iom_image.specs.Image.{IsImage};
ghost use Rattle.iom_asm.specs.Assembly.{lines_of, described, assembled, Makes};
ghost use Rattle.iom_asm.specs.Drafts.{draft_seen};

use crate::asm_fault::AsmFault;
use crate::draft::ImageDraft;
use crate::statements::after_line;
use iom_image::image_bytes;
use iom_text::line_end;
use std::alloc::Global;

// The first line, and the text after it.
fn cut(text: &[u8]) -> (&[u8], &[u8])
    requires { text.now ≢ [] }
    ensures lines { lines_of text.now ≡ result.0.now ∷ lines_of result.1.now }
    ensures shorter { length result.1.now < length text.now }
{
    match line_end(text) {
        Some(at) => (&text[..at], &text[at + 1..]),
        None => (text, &[]),
    }
}

// What a whole text describes, line by line.
fn described(alloc: Global, text: &[u8]) -> Result<ImageDraft, AsmFault>
    ensures made { Makes (λ draft. (draft_seen draft).image) result (described text.now) }
    ensures good { IfOk result (λ draft. IsImage (draft_seen draft).image) }
{
    let mut draft = None;
    let mut line = 0;
    let mut rest = text;
    while !rest.is_empty() {
        let (first, others) = cut(rest);
        line += 1;
        draft = after_line(alloc, line, draft, first)?;
        rest = others;
    }
    match draft {
        Some(draft) => Ok(draft),
        None => Err(AsmFault::BadLine(0)),
    }
}

/// The bytes of the image that a text describes, or the first line with a fault. `OutOfMemory` may stand in place of any answer.
#[tactic(auto, unfolding(crate::specs::Assembly::assembled))]
pub fn assemble(alloc: Global, text: &[u8]) -> Result<Vec<u8>, AsmFault>
    ensures { Makes (λ image. image.items) result (assembled text.now) }
{
    let draft = described(alloc, text)?;
    Ok(image_bytes(alloc, &draft.image)?)
}
