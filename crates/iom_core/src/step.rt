use arrayvec::ArrayVec;
use iom_bits::Kind;
use iom_regs::Busy;

/// One event of the platform. Every number is 64 bits wide; one that doesn't fit is answered `Misuse`.
#[derive(Drop)]
pub enum Step {
    /// The hart reads `size` bytes, 1, 2, 4 or 8, at physical address `addr`, a multiple of the size.
    Load {
        addr: u64,
        size: u64,
    },
    /// The hart writes the lowest `size` bytes, 1, 2, 4 or 8, of `value` at physical address `addr`, a multiple of the size.
    Store {
        addr: u64,
        size: u64,
        value: u64,
    },
    /// The hart reads `size` bytes, 4 or 8, of the IOMMU's registers at offset `off`, in bytes ("Memory-mapped register
    /// interface").
    RegRead {
        off: u64,
        size: u64,
    },
    /// The hart writes `size` bytes, 4 or 8, of the IOMMU's registers at offset `off`, in bytes ("Memory-mapped register
    /// interface").
    RegWrite {
        off: u64,
        size: u64,
        value: u64,
    },
    /// The IOMMU's command unit fetches one command and carries it out ("Command-Queue (CQ)").
    Command,
    /// The IOMMU ends a write that keeps a register busy, so that it acts ("Device-directory-table pointer (ddtp)", "Command-queue CSR
    /// (cqcsr)", "Fault queue CSR (fqcsr)": busy). It is idle where the register isn't busy.
    Settle(Busy),
    /// A device with id `did`, below 2^24, reads `len` bytes, 1 to 64, at IOVA `iova`, all in one page of 4096 bytes.
    DmaRead {
        did: u64,
        iova: u64,
        len: u64,
    },
    /// A device with id `did`, below 2^24, writes `bytes`, 1 to 64, at IOVA `iova`, all in one page of 4096 bytes.
    DmaWrite {
        did: u64,
        iova: u64,
        bytes: ArrayVec<u8, 64>,
    },
    /// A device with id `did`, below 2^24, asks for the translation of IOVA `iova`, any of 64 bits, and accesses no memory. It fills
    /// the caches and leaves a fault record as an access of this kind does.
    Translate {
        did: u64,
        iova: u64,
        kind: Kind,
    },
    /// The hart reads `size` bytes, 1, 2 or 4, of the registers of block device `dev`, counted from 0, at offset `off`, in bytes
    /// (VIRTIO 1.2, "MMIO Device Register Layout").
    DevRead {
        dev: u64,
        off: u64,
        size: u64,
    },
    /// The hart writes `size` bytes, 1, 2 or 4, of the registers of block device `dev`, counted from 0, at offset `off`, in bytes
    /// (VIRTIO 1.2, "MMIO Device Register Layout").
    DevWrite {
        dev: u64,
        off: u64,
        size: u64,
        value: u64,
    },
    /// Block device `dev`, counted from 0, goes on by one access.
    Device {
        dev: u64,
    },
}

/// What a step answers.
#[derive(Drop, PartialEq)]
pub enum Answer {
    /// The number that was read, the lowest byte first; of `Translate` the physical address, also if it lies outside memory.
    Value(u64),
    /// The step was carried out.
    Done,
    /// The bytes that a device read, 1 to 64.
    Bytes(ArrayVec<u8, 64>),
    /// There was nothing to do.
    Idle,
    /// The IOMMU denied the device's access; the number is its cause (RISC-V IOMMU Architecture 1.0,
    /// "Fault/Event-Queue", CAUSE).
    Denied(u16),
    /// A byte lies outside memory: at a physical address of a hart's access, or where a device's access leads.
    BusError,
    /// Not an access that the registers take.
    BadAccess,
    /// No such block device.
    NoDevice,
    /// No step of this platform: the size, the alignment, the device id or the length isn't one that a step has, or a value doesn't
    /// fit its size.
    Misuse,
}
