/// A register that may be busy: a write of it acts only when it settles.
#[derive(Clone, Copy)]
pub enum Busy {
    /// ddtp, busy by its bit 4 ("Device-directory-table pointer (ddtp)").
    Directory,
    /// cqcsr, busy by its bit 17 ("Command-queue CSR (cqcsr)").
    Commands,
    /// fqcsr, busy by its bit 17 ("Fault queue CSR (fqcsr)").
    Faults,
}
