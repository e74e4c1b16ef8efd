//! The lines of a text.

ghost use Rattle.std.specs.Prelude.{◌≡◌, ◌==◌};
ghost use Rattle.std.specs.List.{position};

/// The index of the first line end of a text, a line feed; None if there is none.
#[tactic(auto, using(crate::proofs::Searches::first_is))]
pub fn line_end(text: &[u8]) -> Option<usize>
    ensures { result ≡ position (λ c. c == 10) text.now }
{
    memchr::memchr(b'\n', text)
}
