ghost use Rattle.std.specs.Prelude.{◌≡◌};
ghost use Rattle.iom_c.specs.Looks.{context_of, page_of};

use iom_bits::Kind;
use iom_cache::Key;
use iom_ddt::Context;
use iom_nested::Hit;

/// A place of the translation cache, in C `struct rviommu_page_place`.
#[repr(C)]
#[derive(Drop)]
pub struct PagePlace {
    /// The IOVA divided by 4096, 52 bits.
    pub page: u64,
    /// The PPN of the page's frame: its physical address divided by 4096. 44 bits; 52 if both stages are Bare.
    pub frame: u64,
    /// The device id, 24 bits.
    pub did: u32,
    /// The process soft-context id, 20 bits; 0 if there is none.
    pub pscid: u32,
    /// The guest soft-context id, 16 bits; 0 if there is none.
    pub gscid: u32,
    /// The level of the first stage's leaf, 0 to 4; 0 if that stage is Bare.
    pub level: u32,
    /// Whether there is a process soft-context id: the first stage isn't Bare.
    pub has_pscid: bool,
    /// Whether there is a guest soft-context id: the second stage isn't Bare.
    pub has_gscid: bool,
    /// Whether it serves writes; else it serves reads.
    pub is_write: bool,
    /// Whether the first stage's mapping is global.
    pub is_global: bool,
    /// Whether the first stage's leaf maps 64 KiB ("Svnapot").
    pub is_napot: bool,
    /// Room for more; 0.
    pub reserved: [u64; 2],
}

/// A place of the context cache, in C `struct rviommu_context_place`: the device id and the fields of its context ("Device-context
/// fields").
#[repr(C)]
#[derive(Drop)]
pub struct ContextPlace {
    /// iohgatp.PPN, 44 bits.
    pub gppn: u64,
    /// fsc.PPN, 44 bits.
    pub ppn: u64,
    /// The device id, 24 bits.
    pub did: u32,
    /// ta.PSCID, 20 bits.
    pub pscid: u32,
    /// iohgatp.GSCID, 16 bits.
    pub gscid: u32,
    /// iohgatp.MODE: 0 Bare, 8 Sv39x4, 9 Sv48x4, 10 Sv57x4.
    pub gmode: u32,
    /// fsc.MODE: 0 Bare, 8 Sv39, 9 Sv48, 10 Sv57.
    pub mode: u32,
    /// tc bits 31:24.
    pub custom: u32,
    /// tc.DTF.
    pub dtf: bool,
    /// Bit 0 of ta.
    pub tav: bool,
    /// Room for more; 0.
    pub reserved: [u64; 2],
}

/// An entry of the translation cache for C.
pub fn page_of(key: Key, hit: Hit) -> PagePlace
    ensures { result ≡ page_of key hit }
{
    PagePlace {
        page: key.page,
        frame: hit.frame,
        did: key.did,
        pscid: key.pscid.unwrap_or(0),
        gscid: u32::from(key.gscid.unwrap_or(0)),
        level: u32::from(hit.level),
        has_pscid: key.pscid.is_some(),
        has_gscid: key.gscid.is_some(),
        is_write: matches!(key.kind, Kind::Write),
        is_global: hit.global,
        is_napot: hit.napot,
        reserved: [0; 2],
    }
}

/// An entry of the context cache for C.
pub fn context_of(did: u32, context: Context) -> ContextPlace
    ensures { result ≡ context_of did context }
{
    ContextPlace {
        gppn: context.fields.gppn,
        ppn: context.fields.ppn,
        did,
        pscid: context.fields.pscid,
        gscid: u32::from(context.fields.gscid),
        gmode: u32::from(context.fields.gmode),
        mode: u32::from(context.fields.mode),
        custom: u32::from(context.fields.custom),
        dtf: context.fields.dtf,
        tav: context.fields.tav,
        reserved: [0; 2],
    }
}
