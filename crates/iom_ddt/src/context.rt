ghost use Rattle.std.specs.Prelude.{◌≡◌, ◌↔◌, true, IsSome, IfSome, IsTrue};

use iom_bits::{Features, SV57, SV57X4};
use std::marker::Model;

/// The MSI page table of a device context (extended format, "Device-context fields"). Each field fits the bits that are named at it.
#[derive(Clone, Copy, PartialEq)]
pub struct MsiTable {
    /// msiptp.PPN, 44 bits: the table's physical address divided by 4096.
    pub ppn: u64,
    /// msi_addr_mask, 52 bits: the bits of a page's number that tell an interrupt file.
    pub mask: u64,
    /// msi_addr_pattern, 52 bits: the other bits of the page numbers of interrupt files.
    pub pattern: u64,
    /// msiptp.MODE: Flat, else Off.
    pub flat: bool,
}

impl MsiTable {
    ghost use Rattle.iom_ddt.specs.Contexts.{IsMsiFitting};

    // Whether each field fits its bits.
    fn fits(self) -> bool
        ensures { result ≡ true ↔ IsMsiFitting self }
    {
        self.ppn >> 44 == 0 && self.mask >> 52 == 0 && self.pattern >> 52 == 0
    }
}

/// The fields of a device context ("Device-context fields"). Each fits the bits that are named at it.
#[derive(Clone, Copy, PartialEq)]
pub struct ContextFields {
    /// iohgatp.PPN, 44 bits: the second stage's root table, its physical address divided by 4096.
    pub gppn: u64,
    /// fsc.PPN, 44 bits: the first stage's root table, its address divided by 4096; guest-physical under a second
    /// stage, else physical.
    pub ppn: u64,
    /// ta.PSCID, 20 bits: the process's soft-context id.
    pub pscid: u32,
    /// iohgatp.GSCID, 16 bits: the guest's soft-context id.
    pub gscid: u16,
    /// iohgatp.MODE, the second stage: 0 Bare, 8 Sv39x4, 9 Sv48x4, 10 Sv57x4.
    pub gmode: u8,
    /// fsc.MODE, the first stage: 0 Bare, 8 Sv39, 9 Sv48, 10 Sv57.
    pub mode: u8,
    /// tc bits 31:24, for custom use. They change nothing.
    pub custom: u8,
    /// tc.DTF: page faults and access faults of the device make no record.
    pub dtf: bool,
    /// Bit 0 of ta. It is kept and changes nothing.
    pub tav: bool,
    /// The MSI page table: msiptp, msi_addr_mask and msi_addr_pattern. In base format all of it is 0.
    pub msi: MsiTable,
}

/// What the directory says of one device: fields that are well formed, as `Context::new` tests it.
#[derive(Clone, Copy, PartialEq)]
pub struct Context {
    /// Its fields.
    pub fields: ContextFields,
}

impl Model for Context {
    ghost use Rattle.iom_ddt.specs.declared.context.ContextFields.{ContextFields};
    ghost use Rattle.iom_ddt.specs.Contexts.{IsWellFormed};

    ghost Value = { ContextFields };

    ghost view = { λ context. context.fields };

    ghost inverse = { λ fields. record { fields = fields } };

    ghost invariant = { λ context. IsWellFormed context.fields };
}

impl Context {
    ghost use Rattle.iom_ddt.specs.Contexts.{has_modes, is_bare, IsWellFormed};

    /// The context of these fields, if they are well formed: both modes are 0, 8, 9 or 10, the second stage's root is aligned to 16 KiB
    /// unless that stage is Bare, and each field fits its bits ("Device-context configuration checks").
    pub fn new(fields: ContextFields) -> Option<Context>
        ensures formed { IsSome result ↔ IsWellFormed fields }
        ensures same { IfSome result (λ context. context ≡ fields) }
    {
        let fits = fields.gppn >> 44 == 0 && fields.pscid >> 20 == 0 && fields.ppn >> 44 == 0;
        let msi_fits = fields.msi.fits();
        let aligned = fields.gmode == 0 || fields.gppn % 4 == 0;
        if fits
            && msi_fits
            && aligned
            && matches!(fields.gmode, 0 | 8 | 9 | 10)
            && matches!(fields.mode, 0 | 8 | 9 | 10)
        {
            Some(Context { fields })
        } else {
            None
        }
    }

    /// Whether two contexts are equal in each field.
    pub fn is_same(&self, other: &Context) -> bool
        ensures { IsTrue result ↔ (self.now ≡ other.now) }
    {
        self == other
    }

    /// Whether an IOMMU with these features has both modes: 10 only as Sv57 in the first stage, as Sv57x4 in the second ("IOMMU
    /// capabilities").
    pub fn has_modes(self, features: Features) -> bool
        ensures { result ≡ has_modes features self }
    {
        (features.has(SV57) || self.fields.mode != 10)
            && (features.has(SV57X4) || self.fields.gmode != 10)
    }

    /// Whether nothing translates: iohgatp.MODE and fsc.MODE are Bare, msiptp.MODE is Off, and the IOVA is the physical address.
    pub fn is_bare(self) -> bool
        ensures { result ≡ is_bare self }
    {
        self.fields.mode == 0 && self.fields.gmode == 0 && !self.fields.msi.flat
    }
}
