ghost use Rattle.std.specs.Prelude.{◌≡◌};
ghost use Rattle.iom_cache.specs.Keys.{pscid_of, gscid_of, key_of, same_key};

use iom_bits::Kind;
use iom_ddt::Context;

/// What a translation is found by in the translation cache, the IOTLB ("Caching in-memory data structures").
#[derive(Clone, Copy, PartialEq)]
pub struct Key {
    /// The device id, 24 bits.
    pub did: u32,
    /// The process soft-context id, 20 bits; None under a Bare first stage.
    pub pscid: Option<u32>,
    /// The guest soft-context id, 16 bits; None under a Bare second stage.
    pub gscid: Option<u16>,
    /// The IOVA divided by 4096, 52 bits.
    pub page: u64,
    /// What the access does: that a page may be read says nothing of a write to it.
    pub kind: Kind,
}

/// The key of an access of device `did`, 24 bits, to an IOVA, under the device's context.
#[tactic(auto, unfolding(crate::specs::Keys::key_of))]
pub fn key_of(context: &Context, did: u32, iova: u64, kind: Kind) -> Key
    ensures { result ≡ key_of context.now did iova kind }
{
    Key {
        did,
        pscid: pscid_of(context),
        gscid: gscid_of(context),
        page: iova / 4096,
        kind,
    }
}

// The process soft-context id that tags an entry: that of a context with a first stage.
fn pscid_of(context: &Context) -> Option<u32>
    ensures { result ≡ pscid_of context.now }
{
    if context.fields.mode == 0 {
        None
    } else {
        Some(context.fields.pscid)
    }
}

/// The guest soft-context id that tags an entry: that of a context with a second stage.
pub fn gscid_of(context: &Context) -> Option<u16>
    ensures { result ≡ gscid_of context.now }
{
    if context.fields.gmode == 0 {
        None
    } else {
        Some(context.fields.gscid)
    }
}

/// Whether an entry's own key is the one looked for, in each of its parts.
pub fn is_same(key: &Key, own: &Key) -> bool
    ensures { result ≡ same_key key.now own.now }
{
    key == own
}
