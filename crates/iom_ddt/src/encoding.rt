ghost use Rattle.std.specs.Prelude.{◌≡◌, IfOk, IfErr, Ok, Err, get_or, if◌then◌else◌};
ghost use Rattle.iom_bits.specs.Bits.{has_bit};
ghost use Rattle.iom_ddt.specs.Contexts.{IsMsiFitting};
ghost use Rattle.iom_ddt.specs.Words.{words_of, fields_in, context_in, msi_in, msiptp, IsEncoding};

use crate::{Context, ContextFields, MsiTable};
use iom_bits::{Cause, field, flag, has_bit};

/// The context that the eight words tc, iohgatp, ta, fsc, msiptp, msi_addr_mask, msi_addr_pattern and the reserved one encode
/// ("Device-context fields"). In base format the last four are 0.
///
/// `DirInvalid` if V is 0, whatever else the words hold; `DirBad` if V is 1 and they encode no well-formed context ("Device-context
/// configuration checks"): a reserved bit is set, the mode of a stage is none of 0, 8, 9 and 10, that of msiptp none of 0 and 1, or the
/// root of the second stage isn't aligned.
#[tactic(auto, unfolding(crate::specs::Words::context_in, iom_bits::specs::Bits::has_bit))]
pub fn context_of(words: [u64; 8]) -> Result<Context, Cause>
    ensures value { result ≡ context_in words }
    ensures found { IfOk result (λ context. IsEncoding context words) }
    ensures only { (context : ContextFields) → IsEncoding context words → result ≡ Ok context }
    ensures refused { IfErr result (λ cause. cause
        ≡ (if has_bit (get_or words 0 0) 0 then Cause.DirBad else Cause.DirInvalid)) }
{
    if !has_bit(words[0], 0) {
        return Err(Cause::DirInvalid);
    }
    match Context::new(fields_in(words)) {
        Some(context) if encode_context(&context) == words => Ok(context),
        _ => Err(Cause::DirBad),
    }
}

/// The eight words of a context: tc with V = 1, iohgatp, ta, fsc, msiptp, msi_addr_mask, msi_addr_pattern and 0.
pub fn encode_context(context: &Context) -> [u64; 8]
    ensures { result ≡ words_of context.now }
{
    let fields = &context.fields;
    [
        1 + (flag(fields.dtf) << 4) + ((fields.custom as u64) << 24),
        fields.gppn + ((fields.gscid as u64) << 44) + ((fields.gmode as u64) << 60),
        flag(fields.tav) + ((fields.pscid as u64) << 12),
        fields.ppn + ((fields.mode as u64) << 60),
        fields.msi.ppn + (flag(fields.msi.flat) << 60),
        fields.msi.mask,
        fields.msi.pattern,
        0,
    ]
}

// The fields in the words, whatever their other bits are.
#[tactic(auto, unfolding(iom_bits::specs::Bits::has_bit))]
fn fields_in(words: [u64; 8]) -> ContextFields
    ensures value { result ≡ fields_in words }
    ensures only { (context : ContextFields) → IsEncoding context words → result ≡ context }
{
    let [tc, iohgatp, ta, fsc, msiptp, mask, pattern, _] = words;
    ContextFields {
        dtf: has_bit(tc, 4),
        custom: field(tc, 24, 8) as u8,
        gmode: field(iohgatp, 60, 4) as u8,
        gppn: field(iohgatp, 0, 44),
        gscid: field(iohgatp, 44, 16) as u16,
        tav: has_bit(ta, 0),
        pscid: field(ta, 12, 20) as u32,
        mode: field(fsc, 60, 4) as u8,
        ppn: field(fsc, 0, 44),
        msi: msi_in(msiptp, mask, pattern),
    }
}

// The MSI page table in its three words, whatever their other bits are.
#[tactic(auto, unfolding(iom_bits::specs::Bits::has_bit))]
fn msi_in(pointer: u64, mask: u64, pattern: u64) -> MsiTable
    ensures value { result ≡ msi_in pointer mask pattern }
    ensures only { (msi : MsiTable) → IsMsiFitting msi → pointer ≡ msiptp msi → mask ≡ msi.mask → pattern ≡ msi.pattern → result ≡ msi }
{
    MsiTable {
        flat: has_bit(pointer, 60),
        ppn: field(pointer, 0, 44),
        mask: field(mask, 0, 52),
        pattern: field(pattern, 0, 52),
    }
}
