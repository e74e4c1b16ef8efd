/// The mode in which devices reach memory, ddtp.iommu_mode ("Device-directory-table pointer (ddtp)").
#[derive(Clone, Copy, PartialEq)]
pub enum Mode {
    /// Off, 0: all inbound transactions are disallowed.
    Off,
    /// Bare, 1: no access is translated; its IOVA is the physical address.
    Bare,
    /// 1LVL, 2LVL or 3LVL, 2 to 4: a device directory (DDT) with this number of levels, 1 to 3.
    Levels(u8),
}

/// One of the two queues of this model ("In-memory queue interface").
#[derive(Clone, Copy)]
pub enum Which {
    /// The command queue, CQ: software writes it, and the IOMMU reads it.
    Commands,
    /// The fault queue, FQ: the IOMMU writes it, and software reads it.
    Faults,
}

/// A queue, by its registers ("In-memory queue interface").
#[derive(Clone, Copy, PartialEq)]
pub struct Queue {
    /// Whether it is on: cqon or fqon.
    pub on: bool,
    /// The PPN of its first byte, 44 bits: its physical address divided by 4096.
    pub base: u64,
    /// How many entries it has: a power of two from 2 to 2^32.
    pub entries: u64,
    /// The index of the first entry, below `entries`.
    pub head: u64,
    /// The index after the last entry, below `entries`.
    pub tail: u64,
}

/// The errors that stop the command queue ("Command-queue CSR (cqcsr)").
#[derive(Clone, Copy)]
pub struct CommandErrors {
    /// cqmf: a command couldn't be read, or a fence couldn't store.
    pub memory_fault: bool,
    /// cmd_ill: the command at the head is illegal or unsupported.
    pub illegal: bool,
}

/// The errors that stop the fault queue ("Fault queue CSR (fqcsr)").
#[derive(Clone, Copy)]
pub struct FaultErrors {
    /// fqmf: a record couldn't be stored.
    pub memory_fault: bool,
    /// fqof: a record was lost because the queue was full.
    pub overflow: bool,
}
