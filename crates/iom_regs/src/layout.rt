//! The offsets of the registers, in bytes from the first one ("Register layout"), and bits of the control and status registers.

ghost use Rattle.std.specs.Prelude.{◌≡◌, ◌&&◌, nat_le, nat_lt};
ghost use Rattle.iom_bits.specs.Features.{Features, has_messages};
ghost use Rattle.iom_regs.specs.Table.{slot_at, Whole, Low, Capabilities, Fctl, Ddtp, Cqb, Cqh, Cqt, Fqb, Fqh, Fqt, Cqcsr, Fqcsr, Ipsr, Icvec};

use iom_bits::Features;

/// capabilities, 8 bytes.
pub const CAPABILITIES: u64 = 0;

/// fctl, 4 bytes.
pub const FCTL: u64 = 8;

/// ddtp, 8 bytes.
pub const DDTP: u64 = 16;

/// cqb, 8 bytes.
pub const CQB: u64 = 24;

/// cqh, 4 bytes.
pub const CQH: u64 = 32;

/// cqt, 4 bytes.
pub const CQT: u64 = 36;

/// fqb, 8 bytes.
pub const FQB: u64 = 40;

/// fqh, 4 bytes.
pub const FQH: u64 = 48;

/// fqt, 4 bytes.
pub const FQT: u64 = 52;

/// cqcsr, 4 bytes.
pub const CQCSR: u64 = 72;

/// fqcsr, 4 bytes.
pub const FQCSR: u64 = 76;

/// ipsr, 4 bytes.
pub const IPSR: u64 = 84;

/// icvec, 8 bytes.
pub const ICVEC: u64 = 760;

/// msi_cfg_tbl: for each vector msi_addr, 8 bytes, msi_data, 4, and msi_vec_ctl, 4.
pub const MSI_CFG_TBL: u64 = 768;

// The upper halves of registers of eight bytes.

/// The upper half of capabilities.
pub const CAPABILITIES_HIGH: u64 = 4;

/// The upper half of ddtp.
pub const DDTP_HIGH: u64 = 20;

/// The upper half of cqb.
pub const CQB_HIGH: u64 = 28;

/// The upper half of fqb.
pub const FQB_HIGH: u64 = 44;

/// The upper half of icvec.
pub const ICVEC_HIGH: u64 = 764;

/// The four bytes before ipsr, which are no register.
pub const BEFORE_IPSR: u64 = 80;

/// fctl: WSI, interrupts go by wire ("Features-control register (fctl)").
pub const WSI: u64 = 2;

// Bits of ddtp ("Device-directory-table pointer (ddtp)").

/// busy: a write of ddtp isn't carried out yet.
pub const DDTP_BUSY: u32 = 4;

// Bits of cqcsr and fqcsr alike ("Command-queue CSR (cqcsr)", "Fault queue CSR (fqcsr)").

/// cqon or fqon: the queue is on.
pub const ON: u32 = 16;

/// busy: a write of the register isn't carried out yet.
pub const BUSY: u32 = 17;

// Bits of cqcsr ("Command-queue CSR (cqcsr)").

/// cqmf, a command-queue memory fault.
pub const CQMF: u32 = 8;

/// cmd_ill, an illegal command.
pub const CMD_ILL: u32 = 10;

/// fence_w_ip, an interrupt that a fence asked for.
pub const FENCE_W_IP: u32 = 11;

// Bits of fqcsr ("Fault queue CSR (fqcsr)").

/// fqmf, a fault-queue memory fault.
pub const FQMF: u32 = 8;

/// fqof, a fault-queue overflow.
pub const FQOF: u32 = 9;

/// Whether an offset is one of the table of vectors, which is there where interrupts may be messages.
pub fn is_in_table(features: Features, off: u64) -> bool
    ensures there { result ≡ (has_messages features && nat_le 768 off && nat_lt off 1024) }
{
    features.has_messages() && off >= MSI_CFG_TBL && off < 1024
}

/// A law: the register table has each register at the offset that this crate exports.
pub fn register_layout()
    ensures capabilities { (features : Features) → slot_at features CAPABILITIES ≡ Low Capabilities }
    ensures fctl { (features : Features) → slot_at features FCTL ≡ Whole Fctl }
    ensures ddtp { (features : Features) → slot_at features DDTP ≡ Low Ddtp }
    ensures cqb { (features : Features) → slot_at features CQB ≡ Low Cqb }
    ensures cqh { (features : Features) → slot_at features CQH ≡ Whole Cqh }
    ensures cqt { (features : Features) → slot_at features CQT ≡ Whole Cqt }
    ensures fqb { (features : Features) → slot_at features FQB ≡ Low Fqb }
    ensures fqh { (features : Features) → slot_at features FQH ≡ Whole Fqh }
    ensures fqt { (features : Features) → slot_at features FQT ≡ Whole Fqt }
    ensures cqcsr { (features : Features) → slot_at features CQCSR ≡ Whole Cqcsr }
    ensures fqcsr { (features : Features) → slot_at features FQCSR ≡ Whole Fqcsr }
    ensures ipsr { (features : Features) → slot_at features IPSR ≡ Whole Ipsr }
    ensures icvec { (features : Features) → slot_at features ICVEC ≡ Low Icvec }
{}
