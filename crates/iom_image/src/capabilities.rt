//! The version of an image, and the words in which one of version 3 or 4 states what its machine offers, and its window.

ghost use Rattle.std.specs.Prelude.{◌≡◌, ◌+◌, ◌<◌, ◌^◌, ◌↔◌, IsTrue, IsSome, IfSome};
ghost use Rattle.iom_image.specs.Reading.{Reads, third_at, fourth_at, version_of, version_at};
ghost use Rattle.iom_image.specs.Versions.{is_flagged, flagged, features_of, window_of, window_bit, stating, choices_of, features_in, are_words, is_third, is_third_word, third_features, third_word, StatesCapabilities};

use crate::fault::LoadFault;
use crate::fields::{front, u64_of};
use crate::version::Version;
use crate::window::{window_bit, window_of};
use iom_bits::{Features, Interrupts, NL, ROWS, S, SV57, SV57X4, SVPBMT, shown_bits};
use iom_messages::Window;

impl Version {
    /// Whether disks have flags: not in version 1.
    pub fn is_flagged(self) -> bool
        ensures { result ≡ is_flagged self }
    {
        match self {
            Version::First => false,
            Version::Second | Version::Third(_) | Version::Fourth(..) => true,
        }
    }

    /// This version, or if flags of disks are asked for at least the first that has them.
    pub fn flagged(self, asked: bool) -> Version
        ensures { result ≡ flagged self asked }
    {
        match self {
            Version::First if asked => Version::Second,
            other => other,
        }
    }

    /// What the machine offers: in version 3 and 4 what the image states, else nothing.
    pub fn features(self) -> Features
        ensures { result ≡ features_of self }
    {
        match self {
            Version::First | Version::Second => Features::none(),
            Version::Third(features) | Version::Fourth(features, _) => features,
        }
    }

    /// The window beside memory, if there is one: only version 4 can state it.
    pub fn window(self) -> Option<Window>
        ensures { result ≡ window_of self }
    {
        match self {
            Version::First | Version::Second | Version::Third(_) => None,
            Version::Fourth(_, window) => window,
        }
    }

    /// The lowest version that can state these features and this window: version 3, or version 4 if it can't.
    pub fn stating(features: Features, window: Option<Window>) -> Version
        ensures { result ≡ stating features window }
    {
        match window {
            None if is_third(features) => Version::Third(features),
            _ => Version::Fourth(features, window),
        }
    }
}

// What the word of version 3 has bits for: Sv57, Svpbmt, Sv57x4, NL, S, Svnapot left out, and how many vectors there are.
const THIRD_BITS: u64 = (1 << SV57)
    + (1 << SVPBMT)
    + (1 << SV57X4)
    + (1 << NL)
    + (1 << S)
    + (7 << CHOICES);

// IGS, which register capabilities has at the same bits as a word of features.
const IGS: u64 = 3 << 28;

// The lowest bit of a word of features that the second word of version 4 has; it has eight.
const CHOICES: u32 = 56;

/// The word of version 3 for these features: of theirs the bits that it has.
pub fn third_word(features: Features) -> u64
    ensures word { result ≡ third_word features }
    ensures low { result < 2 ^ 59 }
{
    features.word() & THIRD_BITS
}

// Whether the word of version 3 says all of these features: IGS 1, interrupts by wire, has no bit there.
fn is_third(features: Features) -> bool
    ensures { result ≡ is_third features }
{
    third_word(features) + Interrupts::Wires.word() == features.word()
}

// The features that the word of version 3 states; None if no machine has this word.
fn third_features(word: u64) -> Option<Features>
    ensures stated { IsSome result ↔ IsTrue (is_third_word word) }
    ensures features { IfSome result (λ features. features ≡ third_features word) }
{
    if word & THIRD_BITS != word {
        return None;
    }
    Features::of_word(word + Interrupts::Wires.word())
}

/// Of features what register capabilities doesn't show, below 256: bit 0 where Svnapot is left out, bit 1 for two interrupt vectors, bit 2
/// for four, and above them those of the rows that the register doesn't have. Bit 8 is set if there is a window.
pub fn choices(features: Features, window: Option<Window>) -> u64
    ensures { result ≡ choices_of features + window_bit window }
{
    (features.word() >> CHOICES) + window_bit(window)
}

// The word of the features that the two words of version 4 state, if they do.
#[tactic(auto, unfolding(iom_bits::specs::Features::rows), using(crate::proofs::Stated::below_choices))]
fn word_in(capabilities: u64, choices: u64) -> u64
    ensures { result ≡ features_in capabilities choices }
{
    (capabilities & (IGS | shown_bits(&ROWS))) + (choices % 256 << CHOICES)
}

// The features that the two words of version 4 state; None if no machine has these words.
fn features_in(capabilities: u64, choices: u64) -> Option<Features>
    ensures stated { IsSome result ↔ IsTrue (are_words capabilities choices) }
    ensures features { IfSome result (λ features. features ≡ features_in capabilities choices) }
{
    if choices >= 1 << 9 {
        return None;
    }
    let features = Features::of_word(word_in(capabilities, choices))?;
    if iom_regs::capabilities(features) == capabilities {
        Some(features)
    } else {
        None
    }
}

// The version 3 that the first eight bytes state, and the bytes after them.
#[tactic(auto, unfolding(crate::specs::Reading::third_at))]
fn third_of(bytes: &[u8]) -> Result<(Version, &[u8]), LoadFault>
    ensures { Reads (λ x. (x.0, x.1.now)) result (third_at bytes.now) }
{
    let (word, rest) = u64_of(bytes)?;
    match third_features(word) {
        Some(features) => Ok((Version::Third(features), rest)),
        None => Err(LoadFault::BadCapabilities),
    }
}

// The version 4 that the first bytes state, 16, or 32 with a window, and the bytes after them.
#[tactic(auto, unfolding(crate::specs::Reading::fourth_at))]
fn fourth_of(bytes: &[u8]) -> Result<(Version, &[u8]), LoadFault>
    ensures { Reads (λ x. (x.0, x.1.now)) result (fourth_at bytes.now) }
{
    let (capabilities, rest) = u64_of(bytes)?;
    let (choices, rest) = u64_of(rest)?;
    let Some(features) = features_in(capabilities, choices) else {
        return Err(LoadFault::BadCapabilities);
    };
    let (window, rest) = window_of(choices >= 1 << 8, rest)?;
    Ok((Version::Fourth(features, window), rest))
}

// The version that eight bytes name, and the bytes after it.
#[tactic(auto, unfolding(crate::specs::Reading::version_of))]
fn version_named<'a>(magic: &[u8], bytes: &'a [u8]) -> Result<(Version, &'a [u8]), LoadFault>
    ensures { Reads (λ x. (x.0, x.1.now)) result (version_of magic.now bytes.now) }
{
    if magic == b"RVIOMMU1".as_slice() {
        Ok((Version::First, bytes))
    } else if magic == b"RVIOMMU2".as_slice() {
        Ok((Version::Second, bytes))
    } else if magic == b"RVIOMMU3".as_slice() {
        third_of(bytes)
    } else if magic == b"RVIOMMU4".as_slice() {
        fourth_of(bytes)
    } else {
        Err(LoadFault::BadMagic)
    }
}

/// The version of an image, and the bytes after it: 8 bytes, in version 3 16, in version 4 24, or 40 with a window. The refusals are
/// `Truncated`, `BadMagic`, `BadCapabilities` and `BadWindow`.
#[tactic(auto, unfolding(crate::specs::Reading::version_at))]
pub fn version_of(bytes: &[u8]) -> Result<(Version, &[u8]), LoadFault>
    ensures { Reads (λ x. (x.0, x.1.now)) result (version_at bytes.now) }
{
    let (magic, rest) = front(8, bytes)?;
    version_named(magic, rest)
}

/// A law of the words that `load` reads and `image_bytes` writes, and of register capabilities ("IOMMU capabilities"), which cite these
/// definitions: a capability has the same bit in a word of features, which an image of version 3 states, as in the register.
pub fn words_state_capabilities()
    ensures { StatesCapabilities }
{}
