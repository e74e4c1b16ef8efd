ghost use Rattle.std.specs.Prelude.{◌≡◌};

/// Whether an access reads or writes: its transaction type, TTYP of a fault record (RISC-V IOMMU Architecture 1.0,
/// "Fault/Event-Queue (FQ)").
#[derive(Clone, Copy, PartialEq)]
pub enum Kind {
    /// It reads memory: TTYP 2, an untranslated read.
    Read,
    /// It writes memory: TTYP 3, an untranslated write.
    Write,
}

/// Why a device's access is denied (RISC-V IOMMU Architecture 1.0, "Fault/Event-Queue", CAUSE).
#[derive(Clone, Copy, PartialEq)]
pub enum Cause {
    /// Read or write access fault, 5 or 7: an entry of a page table of either stage lies outside memory.
    Access(Kind),
    /// Read or write page fault, 13 or 15: a fault of the first stage.
    Page(Kind),
    /// Read or write guest page fault, 21 or 23: a fault of the second stage.
    Guest(Kind),
    /// All inbound transactions disallowed, 256: ddtp.iommu_mode is Off.
    Off,
    /// DDT entry load access fault, 257: an entry of the device directory lies outside memory.
    DirAccess,
    /// DDT entry not valid, 258: an entry of the device directory has V = 0.
    DirInvalid,
    /// DDT entry misconfigured, 259: an entry of the device directory has a reserved bit set, or a field with a value that isn't allowed.
    DirBad,
    /// Transaction type disallowed, 260: the device id is wider than the directory's levels.
    TooWide,
    /// MSI PTE load access fault, 261: an entry of an MSI page table lies outside memory.
    MsiAccess,
    /// MSI PTE not valid, 262: an entry of an MSI page table has V = 0, or is of custom use, C = 1.
    MsiInvalid,
    /// MSI PTE misconfigured, 263: an entry of an MSI page table has a mode that isn't offered, or a reserved bit set.
    MsiBad,
}

impl Cause {
    ghost use Rattle.iom_bits.specs.Causes.{cause_number};

    /// Its number in a fault record, CAUSE, 12 bits: 5, 7, 13, 15, 21, 23 or 256 to 263.
    pub fn number(self) -> u16
        ensures { result ≡ cause_number self }
    {
        match self {
            Cause::Access(Kind::Read) => 5,
            Cause::Access(Kind::Write) => 7,
            Cause::Page(Kind::Read) => 13,
            Cause::Page(Kind::Write) => 15,
            Cause::Guest(Kind::Read) => 21,
            Cause::Guest(Kind::Write) => 23,
            Cause::Off => 256,
            Cause::DirAccess => 257,
            Cause::DirInvalid => 258,
            Cause::DirBad => 259,
            Cause::TooWide => 260,
            Cause::MsiAccess => 261,
            Cause::MsiInvalid => 262,
            Cause::MsiBad => 263,
        }
    }
}
