ghost use Rattle.std.specs.Prelude.{◌≡◌, ◌<◌, ◌^◌, Some, IfSome, IfNone};
ghost use Rattle.iom_queue.specs.Records.{RecordFits, IsRecordEncoding, record_words, record_of};
ghost use Rattle.iom_queue.specs.Denials.{is_reported, is_silenced};

use crate::fields::{flag_at, operand};
use iom_bits::{Cause, Kind, field, has_bit};

/// A fault record, 32 bytes in memory (RISC-V IOMMU Architecture 1.0, "Fault/Event-Queue (FQ)").
#[derive(Clone, Copy, PartialEq)]
pub struct Record {
    /// CAUSE, 12 bits.
    pub cause: u16,
    /// PID, the process id, 20 bits.
    pub pid: u32,
    /// PV: `pid` is valid.
    pub pv: bool,
    /// PRIV: the access was privileged.
    pub privileged: bool,
    /// TTYP, the type of the transaction, 6 bits: 2 is an untranslated read, 3 an untranslated write.
    pub ttyp: u8,
    /// DID, the device id, 24 bits.
    pub did: u32,
    /// The IOVA of the access.
    pub iotval: u64,
    /// Of a guest page fault: bits 63:2 of the guest-physical address, and bit 0 set if an entry of a first-stage table was to be read
    /// there. Of every other fault: 0.
    pub iotval2: u64,
}

impl Record {
    ghost use Rattle.iom_queue.specs.Denials.{denial_record};

    /// The record of a denied access of the device with id `did`, below 2^24, at IOVA `iova`. `iotval2` is the field of that name
    /// of a guest page fault, a guest-physical address; of every other cause that field is 0.
    #[tactic(auto, unfolding(crate::specs::Denials::denial_record))]
    pub fn of_denial(cause: Cause, kind: Kind, did: u32, iova: u64, iotval2: u64) -> Self
        ensures value { result ≡ denial_record cause kind did iova iotval2 }
        ensures fits { did < 2 ^ 24 → RecordFits result }
    {
        Record {
            cause: cause.number(),
            pid: 0,
            pv: false,
            privileged: false,
            ttyp: match kind {
                Kind::Read => 2,
                Kind::Write => 3,
            },
            did,
            iotval: iova,
            iotval2: match cause {
                Cause::Guest(_) => iotval2,
                _ => 0,
            },
        }
    }
}

/// Whether an access that is denied for this cause makes a record, if DTF of the device context is `dtf` ("Device-context fields"). DTF = 1
/// silences faults of the two stages and of the MSI page table; the causes that come before a device context is found are always recorded.
#[tactic(auto, unfolding(crate::specs::Denials::is_reported))]
pub fn is_reported(cause: Cause, dtf: bool) -> bool
    ensures { result ≡ is_reported cause dtf }
{
    !dtf || !is_silenced(cause)
}

// Whether it is a fault of a stage of translation or of the MSI page table.
fn is_silenced(cause: Cause) -> bool
    ensures { result ≡ is_silenced cause }
{
    match cause {
        Cause::Access(_) | Cause::Page(_) | Cause::Guest(_) => true,
        Cause::MsiAccess | Cause::MsiInvalid | Cause::MsiBad => true,
        Cause::Off | Cause::DirAccess | Cause::DirInvalid | Cause::DirBad | Cause::TooWide => false,
    }
}

/// The four words of 8 bytes that stand for a record, the first at the lowest address. Each field fits its bits.
#[tactic(auto, unfolding(crate::specs::Records::record_of, iom_bits::specs::Bits::has_bit))]
pub fn encode_record(fault: &Record) -> [u64; 4]
    requires { RecordFits fault.now }
    ensures words { result ≡ record_words fault.now }
    ensures decodes { record_of result ≡ Some fault.now }
{
    let first = operand(fault.cause as u64, 0)
        + operand(fault.pid as u64, 12)
        + flag_at(fault.pv, 32)
        + flag_at(fault.privileged, 33)
        + operand(fault.ttyp as u64, 34)
        + operand(fault.did as u64, 40);
    [first, 0, fault.iotval, fault.iotval2]
}

/// The record that four words of 8 bytes stand for; None if the second, which is reserved, is not 0.
#[tactic(auto, unfolding(crate::specs::Records::record_of, iom_bits::specs::Bits::has_bit))]
pub fn decode_record(words: [u64; 4]) -> Option<Record>
    ensures value { result ≡ record_of words }
    ensures found { IfSome result (λ fault. IsRecordEncoding fault words) }
    ensures only { (fault : Record) → IsRecordEncoding fault words → result ≡ Some fault }
    ensures nothing { IfNone result ((fault : Record) → IsRecordEncoding fault words → ⊥) }
{
    let [first, second, iotval, iotval2] = words;
    if second != 0 {
        return None;
    }
    Some(Record {
        cause: field(first, 0, 12) as u16,
        pid: field(first, 12, 20) as u32,
        pv: has_bit(first, 32),
        privileged: has_bit(first, 33),
        ttyp: field(first, 34, 6) as u8,
        did: field(first, 40, 24) as u32,
        iotval,
        iotval2,
    })
}
