ghost use Rattle.std.specs.Prelude.{◌≡◌, ◌+◌, ◌*◌, ◌^◌, ◌<◌, [], ◌∷◌, Some, IfSome, IfNone};
ghost use Rattle.iom_bits.specs.Bits.{flag, field_of};
ghost use Rattle.iom_queue.specs.Commands.{CommandFits, IsCommandEncoding, is_offered, first_word, second_word, command_words, command_of, operands_of};

use crate::fields::{flag_at, operand};
use iom_bits::{Features, NL, S, field, has_bit};

/// A command of the command queue, 16 bytes in memory (RISC-V IOMMU Architecture 1.0, "Command-Queue (CQ)"). An operand whose valid
/// bit is 0 is kept and means nothing.
#[derive(Clone, Copy, PartialEq)]
pub enum Command {
    /// IOTINVAL.VMA ("IOTINVAL"): drops first-stage translations.
    Vma {
        /// `page` is valid.
        av: bool,
        /// The IOVA divided by 4096, 52 bits. With `s` it stands for a range of pages.
        page: u64,
        /// `pscid` is valid.
        pscv: bool,
        /// The process soft-context id, 20 bits.
        pscid: u32,
        /// `gscid` is valid.
        gv: bool,
        /// The guest soft-context id.
        gscid: u16,
        /// NL: entries that aren't leaves are dropped too. Reserved without the capability NL.
        nl: bool,
        /// S: `page` stands for the aligned 2^(X+1) pages around it, where bit X is its lowest 0. Reserved without the capability S.
        s: bool,
    },
    /// IOTINVAL.GVMA ("IOTINVAL"): drops second-stage translations.
    Gvma {
        /// `page` is valid.
        av: bool,
        /// The guest-physical address divided by 4096, 52 bits. With `s` it stands for a range of pages.
        page: u64,
        /// Bits 31:12 of the first word; they mean nothing, since PSCV is 0.
        pscid: u32,
        /// `gscid` is valid.
        gv: bool,
        /// The guest soft-context id.
        gscid: u16,
        /// NL: entries that aren't leaves are dropped too. Reserved without the capability NL.
        nl: bool,
        /// S: `page` stands for the aligned 2^(X+1) pages around it, where bit X is its lowest 0. Reserved without the capability S.
        s: bool,
    },
    /// IOFENCE.C ("IOFENCE.C"): all commands before it are done.
    Fence {
        /// `value` is to be stored at `addr`.
        av: bool,
        /// An interrupt is asked for, by fence_w_ip.
        wsi: bool,
        /// Earlier reads of devices are done before it.
        pr: bool,
        /// Earlier writes of devices are done before it.
        pw: bool,
        /// DATA: what is stored, in four bytes.
        value: u32,
        /// A physical byte address, a multiple of 4.
        addr: u64,
    },
    /// IODIR.INVAL_DDT ("IODIR"): drops device contexts.
    Iodir {
        /// `did` is valid.
        dv: bool,
        /// The device id, 24 bits.
        did: u32,
    },
}

// Opcodes, bits 6:0 of the first word.
const IOTINVAL: u64 = 1;

const IOFENCE: u64 = 2;

const IODIR: u64 = 3;

// func3 of IOTINVAL, bits 9:7; that of the others is 0.
const VMA: u64 = 0;

const GVMA: u64 = 1;

/// The two words of 8 bytes that stand for a command, the first at the lower address. Each operand fits its field.
#[tactic(auto, using(crate::proofs::Encodings::command_of_words))]
pub fn encode_command(command: &Command) -> [u64; 2]
    requires { CommandFits command.now }
    ensures words { result ≡ command_words command.now }
    ensures decodes { command_of result ≡ Some command.now }
{
    [first_word(command), second_word(command)]
}

// The first word of a command: opcode, func3 and operands.
fn first_word(command: &Command) -> u64
    requires { CommandFits command.now }
    ensures { result ≡ first_word command.now }
{
    match *command {
        Command::Vma {
            av,
            pscv,
            pscid,
            gv,
            gscid,
            nl,
            ..
        } => invalidation(VMA, av, pscid, gv, gscid) + flag_at(pscv, 32) + flag_at(nl, 34),
        Command::Gvma {
            av,
            pscid,
            gv,
            gscid,
            nl,
            ..
        } => invalidation(GVMA, av, pscid, gv, gscid) + flag_at(nl, 34),
        Command::Fence {
            av,
            wsi,
            pr,
            pw,
            value,
            ..
        } => {
            IOFENCE
                + flag_at(av, 10)
                + flag_at(wsi, 11)
                + flag_at(pr, 12)
                + flag_at(pw, 13)
                + operand(value as u64, 32)
        }
        Command::Iodir { dv, did } => IODIR + flag_at(dv, 33) + operand(did as u64, 40),
    }
}

// What the first words of VMA and GVMA have in common.
fn invalidation(func3: u64, av: bool, pscid: u32, gv: bool, gscid: u16) -> u64
    requires func3 { func3 < 2 ^ 3 }
    requires pscid { pscid < 2 ^ 20 }
    ensures { result
        ≡ 1 + 2 ^ 7 * func3 + 2 ^ 10 * flag av + 2 ^ 12 * pscid + 2 ^ 33 * flag gv + 2 ^ 44 * gscid }
{
    IOTINVAL
        + operand(func3, 7)
        + flag_at(av, 10)
        + operand(pscid as u64, 12)
        + flag_at(gv, 33)
        + operand(gscid as u64, 44)
}

// The second word of a command: an address divided by 4, a page's number and S, or 0.
fn second_word(command: &Command) -> u64
    requires { CommandFits command.now }
    ensures { result ≡ second_word command.now }
{
    match *command {
        Command::Vma { page, s, .. } | Command::Gvma { page, s, .. } => {
            flag_at(s, 9) + operand(page, 10)
        }
        Command::Fence { addr, .. } => addr / 4,
        Command::Iodir { .. } => 0,
    }
}

/// The command that two words of 8 bytes stand for, whatever an IOMMU offers of it; None if they stand for no command: the opcode or func3
/// is none of this model, or a bit is set that is reserved with all capabilities.
#[tactic(auto, unfolding(crate::specs::Commands::command_of))]
pub fn decode_command(words: [u64; 2]) -> Option<Command>
    ensures value { result ≡ command_of words }
    ensures found { IfSome result (λ command. IsCommandEncoding command words) }
    ensures only { (command : Command) → IsCommandEncoding command words
        → result ≡ Some command }
    ensures nothing { IfNone result ((command : Command) → IsCommandEncoding command words → ⊥) }
{
    let [first, second] = words;
    let command = operands(first, second)?;
    if encode_command(&command) == words {
        Some(command)
    } else {
        None
    }
}

/// Whether an IOMMU with these features offers a command: NL and S only if it has the capability ("IOMMU capabilities").
pub fn is_offered(features: Features, command: &Command) -> bool
    ensures { result ≡ is_offered features command.now }
{
    match *command {
        Command::Vma { nl, s, .. } | Command::Gvma { nl, s, .. } => {
            (features.has(NL) || !nl) && (features.has(S) || !s)
        }
        Command::Fence { .. } | Command::Iodir { .. } => true,
    }
}

// The command whose operands stand in two words, whatever their other bits are.
#[tactic(auto, unfolding(iom_bits::specs::Bits::has_bit))]
fn operands(first: u64, second: u64) -> Option<Command>
    ensures value { result ≡ operands_of (field_of first 0 7) (field_of first 7 3) first second }
    ensures fits { IfSome result CommandFits }
    ensures only { (command : Command) → IsCommandEncoding command (first ∷ second ∷ [])
        → result ≡ Some command }
{
    match (field(first, 0, 7), field(first, 7, 3)) {
        (IOTINVAL, VMA) => Some(Command::Vma {
            av: has_bit(first, 10),
            page: field(second, 10, 52),
            pscv: has_bit(first, 32),
            pscid: field(first, 12, 20) as u32,
            gv: has_bit(first, 33),
            gscid: field(first, 44, 16) as u16,
            nl: has_bit(first, 34),
            s: has_bit(second, 9),
        }),
        (IOTINVAL, GVMA) => Some(Command::Gvma {
            av: has_bit(first, 10),
            page: field(second, 10, 52),
            pscid: field(first, 12, 20) as u32,
            gv: has_bit(first, 33),
            gscid: field(first, 44, 16) as u16,
            nl: has_bit(first, 34),
            s: has_bit(second, 9),
        }),
        (IOFENCE, 0) => Some(Command::Fence {
            av: has_bit(first, 10),
            wsi: has_bit(first, 11),
            pr: has_bit(first, 12),
            pw: has_bit(first, 13),
            value: field(first, 32, 32) as u32,
            addr: 4 * field(second, 0, 62),
        }),
        (IODIR, 0) => Some(Command::Iodir {
            dv: has_bit(first, 33),
            did: field(first, 40, 24) as u32,
        }),
        _ => None,
    }
}
