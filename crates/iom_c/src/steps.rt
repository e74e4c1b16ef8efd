//! Steps by numbers. Each takes the words that the platform is lent for it, and none if its memory is its own; else nothing happens.

ghost use Rattle.std.specs.Prelude.{◌≡◌, ◌≤◌, ◌<◌, ◌^◌, length, Some, None, IsSome, IfSome, IsSomeAnd};
ghost use Rattle.iom_core.specs.declared.step.Step.TheVariants as step;
ghost use Rattle.iom_c.specs.Answers.{busy_of, bytes_in, code_of, HasLength, IsOneStep, misuse, number_in, other_memory, writing};
ghost use Rattle.iom_c.specs.Handles.{answer_in, count_of, IsItsMemory, Stepped};
ghost use Rattle.iom_c.specs.Reasons.{kind_of};
ghost use Rattle.iom_c.specs.declared.owned.Owned.{Owned};

use crate::answers::{code_of, put_bytes, put_number};
use crate::handle::Handle;
use crate::owned::{Owned, carry_out};
use arrayvec::ArrayVec;
use iom_bits::Kind;
use iom_core::Step;
use iom_regs::Busy;
use std::alloc::Global;

// The number of an answer to a step whose memory isn't that of the handle.
const OTHER_MEMORY: u32 = 9;

// Carries out a step on what a handle owns, and keeps it; puts the number that is answered.
#[inline(always)]
fn take_on(own: &mut Owned, words: &mut [u64], step: Step, number: &mut u64) -> u32
    requires { IsItsMemory own.old words.old }
    ensures answer { result ≡ code_of (answer_in own.old words.old step) }
    ensures number { number.new ≡ number_in (answer_in own.old words.old step) number.old }
    ensures after { Stepped own.old words.old step words.new own.new }
{
    let answer = carry_out(own, words, &step);
    let code = code_of(&answer);
    put_number(&answer, number);
    own.trace.keep(step, answer);
    code
}

// Carries out a device's read; puts the bytes too.
#[inline(always)]
fn read_on(own: &mut Owned, words: &mut [u64], step: Step, bytes: &mut [u8], cause: &mut u64) -> u32
    requires memory { IsItsMemory own.old words.old }
    requires fills { HasLength (answer_in own.old words.old step) (length bytes.old) }
    ensures answer { result ≡ code_of (answer_in own.old words.old step) }
    ensures bytes { bytes.new ≡ bytes_in (answer_in own.old words.old step) bytes.old }
    ensures cause { cause.new ≡ number_in (answer_in own.old words.old step) cause.old }
    ensures after { Stepped own.old words.old step words.new own.new }
{
    let answer = carry_out(own, words, &step);
    let code = code_of(&answer);
    put_number(&answer, cause);
    put_bytes(&answer, bytes);
    own.trace.keep(step, answer);
    code
}

// Carries out a step on what a handle owns, if these words are its memory.
#[inline(always)]
fn take_step(
    handle: &mut Handle,
    alloc: Global,
    words: &mut [u64],
    step: Step,
    number: &mut u64,
) -> u32
    requires open { IsSome handle.old.held }
    ensures answer { IfSome handle.old.held (λ own. IsItsMemory own words.old → result ≡ code_of (answer_in own words.old step)) }
    ensures number { IfSome handle.old.held (λ own. IsItsMemory own words.old →
        number.new ≡ number_in (answer_in own words.old step) number.old) }
    ensures after { IfSome handle.old.held (λ own. IsItsMemory own words.old →
        IsSomeAnd handle.new.held (Stepped own words.old step words.new)) }
    ensures other { IfSome handle.old.held (λ own. ¬ IsItsMemory own words.old →
        (result ≡ other_memory) × (number.new ≡ number.old) × (words.new ≡ words.old) × (handle.new.held ≡ handle.old.held)) }
{
    let mut owned = handle.take(alloc);
    if !owned.held.takes(words) {
        *handle = Handle::of(owned);
        return OTHER_MEMORY;
    }
    let code = take_on(&mut owned, words, step, number);
    *handle = Handle::of(owned);
    code
}

// Carries out a step that is answered no number.
#[inline(always)]
fn give_step(handle: &mut Handle, alloc: Global, words: &mut [u64], step: Step) -> u32
    requires open { IsSome handle.old.held }
    ensures answer { IfSome handle.old.held (λ own. IsItsMemory own words.old → result ≡ code_of (answer_in own words.old step)) }
    ensures after { IfSome handle.old.held (λ own. IsItsMemory own words.old →
        IsSomeAnd handle.new.held (Stepped own words.old step words.new)) }
    ensures other { IfSome handle.old.held (λ own. ¬ IsItsMemory own words.old →
        (result ≡ other_memory) × (words.new ≡ words.old) × (handle.new.held ≡ handle.old.held)) }
{
    let mut number = 0;
    take_step(handle, alloc, words, step, &mut number)
}

/// The hart reads `size` bytes, 1, 2, 4 or 8, at physical address `addr`, a multiple of the size: value, bus error or misuse.
#[unsafe(no_mangle)]
pub extern "C" fn rviommu_load(
    alloc: Global,
    handle: &mut Handle,
    words: &mut [u64],
    addr: u64,
    size: u64,
    value: &mut u64,
) -> u32
    ghost own: { Owned }
    requires open { handle.old.held ≡ Some own }
    ensures answer { IsItsMemory own words.old → result ≡ code_of (answer_in own words.old (step.Load addr size)) }
    ensures value { IsItsMemory own words.old → value.new ≡ number_in (answer_in own words.old (step.Load addr size)) value.old }
    ensures after { IsItsMemory own words.old → IsSomeAnd handle.new.held (Stepped own words.old (step.Load addr size) words.new) }
    ensures other { ¬ IsItsMemory own words.old →
        (result ≡ other_memory) × (value.new ≡ value.old) × (words.new ≡ words.old) × (handle.new.held ≡ Some own) }
{
    take_step(handle, alloc, words, Step::Load { addr, size }, value)
}

/// The hart writes the lowest `size` bytes, 1, 2, 4 or 8, of `value` at physical address `addr`, a multiple of the size: done, bus
/// error or misuse.
#[unsafe(no_mangle)]
pub extern "C" fn rviommu_store(
    alloc: Global,
    handle: &mut Handle,
    words: &mut [u64],
    addr: u64,
    size: u64,
    value: u64,
) -> u32
    ghost own: { Owned }
    requires open { handle.old.held ≡ Some own }
    ensures answer { IsItsMemory own words.old → result ≡ code_of (answer_in own words.old (step.Store addr size value)) }
    ensures after { IsItsMemory own words.old → IsSomeAnd handle.new.held (Stepped own words.old (step.Store addr size value) words.new) }
    ensures other { ¬ IsItsMemory own words.old →
        (result ≡ other_memory) × (words.new ≡ words.old) × (handle.new.held ≡ Some own) }
{
    give_step(handle, alloc, words, Step::Store { addr, size, value })
}

/// The hart reads `size` bytes, 4 or 8, of the IOMMU's registers at offset `off`, in bytes ("Memory-mapped register interface"):
/// value or bad access.
#[unsafe(no_mangle)]
pub extern "C" fn rviommu_reg_read(
    alloc: Global,
    handle: &mut Handle,
    words: &mut [u64],
    off: u64,
    size: u64,
    value: &mut u64,
) -> u32
    ghost own: { Owned }
    requires open { handle.old.held ≡ Some own }
    ensures answer { IsItsMemory own words.old → result ≡ code_of (answer_in own words.old (step.RegRead off size)) }
    ensures value { IsItsMemory own words.old → value.new ≡ number_in (answer_in own words.old (step.RegRead off size)) value.old }
    ensures after { IsItsMemory own words.old → IsSomeAnd handle.new.held (Stepped own words.old (step.RegRead off size) words.new) }
    ensures other { ¬ IsItsMemory own words.old →
        (result ≡ other_memory) × (value.new ≡ value.old) × (words.new ≡ words.old) × (handle.new.held ≡ Some own) }
{
    take_step(handle, alloc, words, Step::RegRead { off, size }, value)
}

/// The hart writes `size` bytes, 4 or 8, of the IOMMU's registers at offset `off`, in bytes: done, bad access or misuse.
#[unsafe(no_mangle)]
pub extern "C" fn rviommu_reg_write(
    alloc: Global,
    handle: &mut Handle,
    words: &mut [u64],
    off: u64,
    size: u64,
    value: u64,
) -> u32
    ghost own: { Owned }
    requires open { handle.old.held ≡ Some own }
    ensures answer { IsItsMemory own words.old → result ≡ code_of (answer_in own words.old (step.RegWrite off size value)) }
    ensures after { IsItsMemory own words.old → IsSomeAnd handle.new.held (Stepped own words.old (step.RegWrite off size value) words.new) }
    ensures other { ¬ IsItsMemory own words.old →
        (result ≡ other_memory) × (words.new ≡ words.old) × (handle.new.held ≡ Some own) }
{
    give_step(handle, alloc, words, Step::RegWrite { off, size, value })
}

/// Device `did`, below 2^24, reads as many bytes as there is room for in `bytes`, 1 to 64, at IOVA `iova`, all in one page of 4096
/// bytes: bytes, denied, bus error or misuse. No byte and more than 64 are no step, and are answered misuse.
#[unsafe(no_mangle)]
#[tactic(auto, using(crate::proofs::Lengths::fills))]
pub extern "C" fn rviommu_dma_read(
    alloc: Global,
    handle: &mut Handle,
    words: &mut [u64],
    did: u64,
    iova: u64,
    bytes: &mut [u8],
    cause: &mut u64,
) -> u32
    ghost own: { Owned }
    requires open { handle.old.held ≡ Some own }
    ensures answer { IsOneStep (length bytes.old) → IsItsMemory own words.old →
        result ≡ code_of (answer_in own words.old (step.DmaRead did iova (length bytes.old))) }
    ensures bytes { IsOneStep (length bytes.old) → IsItsMemory own words.old →
        bytes.new ≡ bytes_in (answer_in own words.old (step.DmaRead did iova (length bytes.old))) bytes.old }
    ensures cause { IsOneStep (length bytes.old) → IsItsMemory own words.old →
        cause.new ≡ number_in (answer_in own words.old (step.DmaRead did iova (length bytes.old))) cause.old }
    ensures after { IsOneStep (length bytes.old) → IsItsMemory own words.old →
        IsSomeAnd handle.new.held (Stepped own words.old (step.DmaRead did iova (length bytes.old)) words.new) }
    ensures none { ¬ IsOneStep (length bytes.old) → (result ≡ misuse) × (bytes.new ≡ bytes.old) × (cause.new ≡ cause.old)
        × (words.new ≡ words.old) × (handle.new.held ≡ Some own) }
    ensures other { IsOneStep (length bytes.old) → ¬ IsItsMemory own words.old → (result ≡ other_memory) × (bytes.new ≡ bytes.old)
        × (cause.new ≡ cause.old) × (words.new ≡ words.old) × (handle.new.held ≡ Some own) }
{
    if bytes.is_empty() || bytes.len() > 64 {
        return 8;
    }
    let step = Step::DmaRead {
        did,
        iova,
        len: bytes.len() as u64,
    };
    let mut owned = handle.take(alloc);
    if !owned.held.takes(words) {
        *handle = Handle::of(owned);
        return OTHER_MEMORY;
    }
    let code = read_on(&mut owned, words, step, bytes, cause);
    *handle = Handle::of(owned);
    code
}

/// Device `did`, below 2^24, writes `bytes`, 1 to 64, at IOVA `iova`, all in one page of 4096 bytes: done, denied, bus error or
/// misuse. No byte and more than 64 are no step, and are answered misuse.
#[unsafe(no_mangle)]
pub extern "C" fn rviommu_dma_write(
    alloc: Global,
    handle: &mut Handle,
    words: &mut [u64],
    did: u64,
    iova: u64,
    bytes: &[u8],
    cause: &mut u64,
) -> u32
    ghost own: { Owned }
    requires open { handle.old.held ≡ Some own }
    ensures answer { IsOneStep (length bytes.now) → IsItsMemory own words.old →
        result ≡ code_of (answer_in own words.old (writing did iova bytes.now)) }
    ensures cause { IsOneStep (length bytes.now) → IsItsMemory own words.old →
        cause.new ≡ number_in (answer_in own words.old (writing did iova bytes.now)) cause.old }
    ensures after { IsOneStep (length bytes.now) → IsItsMemory own words.old →
        IsSomeAnd handle.new.held (Stepped own words.old (writing did iova bytes.now) words.new) }
    ensures none { ¬ IsOneStep (length bytes.now) →
        (result ≡ misuse) × (cause.new ≡ cause.old) × (words.new ≡ words.old) × (handle.new.held ≡ Some own) }
    ensures other { IsOneStep (length bytes.now) → ¬ IsItsMemory own words.old →
        (result ≡ other_memory) × (cause.new ≡ cause.old) × (words.new ≡ words.old) × (handle.new.held ≡ Some own) }
{
    if bytes.is_empty() {
        return 8;
    }
    let mut given = ArrayVec::new();
    if given.try_extend_from_slice(bytes).is_err() {
        return 8;
    }
    take_step(
        handle,
        alloc,
        words,
        Step::DmaWrite {
            did,
            iova,
            bytes: given,
        },
        cause,
    )
}

/// Device `did`, below 2^24, asks for the translation of IOVA `iova`, any of 64 bits, for a write or a read, and accesses no memory. It
/// fills the caches and leaves a fault record as an access does ("Process to translate an IOVA"). Value, the physical address, also if it
/// is outside memory; denied or misuse. `number` is the address or the cause.
#[unsafe(no_mangle)]
pub extern "C" fn rviommu_translate(
    alloc: Global,
    handle: &mut Handle,
    words: &mut [u64],
    did: u64,
    iova: u64,
    is_write: bool,
    number: &mut u64,
) -> u32
    ghost own: { Owned }
    requires open { handle.old.held ≡ Some own }
    ensures answer { IsItsMemory own words.old → result ≡ code_of (answer_in own words.old (step.Translate did iova (kind_of is_write))) }
    ensures number { IsItsMemory own words.old → number.new ≡ number_in (answer_in own words.old (step.Translate did iova (kind_of is_write))) number.old }
    ensures after { IsItsMemory own words.old → IsSomeAnd handle.new.held (Stepped own words.old (step.Translate did iova (kind_of is_write)) words.new) }
    ensures other { ¬ IsItsMemory own words.old →
        (result ≡ other_memory) × (number.new ≡ number.old) × (words.new ≡ words.old) × (handle.new.held ≡ Some own) }
{
    let kind = if is_write { Kind::Write } else { Kind::Read };
    take_step(
        handle,
        alloc,
        words,
        Step::Translate { did, iova, kind },
        number,
    )
}

/// The command unit takes one command and carries it out ("Command-Queue (CQ)"): done or idle.
#[unsafe(no_mangle)]
pub extern "C" fn rviommu_command(alloc: Global, handle: &mut Handle, words: &mut [u64]) -> u32
    ghost own: { Owned }
    requires open { handle.old.held ≡ Some own }
    ensures answer { IsItsMemory own words.old → result ≡ code_of (answer_in own words.old step.Command) }
    ensures after { IsItsMemory own words.old → IsSomeAnd handle.new.held (Stepped own words.old step.Command words.new) }
    ensures other { ¬ IsItsMemory own words.old →
        (result ≡ other_memory) × (words.new ≡ words.old) × (handle.new.held ≡ Some own) }
{
    give_step(handle, alloc, words, Step::Command)
}

// The register that may be busy with this number.
fn busy_of(register: u32) -> Option<Busy>
    ensures { result ≡ busy_of register }
{
    match register {
        0 => Some(Busy::Directory),
        1 => Some(Busy::Commands),
        2 => Some(Busy::Faults),
        _ => None,
    }
}

/// The IOMMU ends a write that keeps a register busy, so that it acts: ddtp (0), cqcsr (1) or fqcsr (2) ("Device-directory-table pointer
/// (ddtp)", "Command-queue CSR (cqcsr)", "Fault queue CSR (fqcsr)": busy). Done; idle if it isn't busy. Another number is no step, and is
/// answered misuse.
#[unsafe(no_mangle)]
pub extern "C" fn rviommu_settle(
    alloc: Global,
    handle: &mut Handle,
    words: &mut [u64],
    register: u32,
) -> u32
    ghost own: { Owned }
    requires open { handle.old.held ≡ Some own }
    ensures answer { IfSome (busy_of register) (λ busy. IsItsMemory own words.old →
        result ≡ code_of (answer_in own words.old (step.Settle busy))) }
    ensures after { IfSome (busy_of register) (λ busy. IsItsMemory own words.old →
        IsSomeAnd handle.new.held (Stepped own words.old (step.Settle busy) words.new)) }
    ensures none { busy_of register ≡ None → (result ≡ misuse) × (words.new ≡ words.old) × (handle.new.held ≡ Some own) }
    ensures other { IsSome (busy_of register) → ¬ IsItsMemory own words.old →
        (result ≡ other_memory) × (words.new ≡ words.old) × (handle.new.held ≡ Some own) }
{
    let Some(register) = busy_of(register) else {
        return 8;
    };
    give_step(handle, alloc, words, Step::Settle(register))
}

/// The hart reads `size` bytes, 1, 2 or 4, of the registers of block device `dev`, counted from 0, at offset `off`, in bytes: value,
/// bad access or no device.
#[unsafe(no_mangle)]
pub extern "C" fn rviommu_dev_read(
    alloc: Global,
    handle: &mut Handle,
    words: &mut [u64],
    dev: u64,
    off: u64,
    size: u64,
    value: &mut u64,
) -> u32
    ghost own: { Owned }
    requires open { handle.old.held ≡ Some own }
    ensures answer { IsItsMemory own words.old → result ≡ code_of (answer_in own words.old (step.DevRead dev off size)) }
    ensures value { IsItsMemory own words.old → value.new ≡ number_in (answer_in own words.old (step.DevRead dev off size)) value.old }
    ensures after { IsItsMemory own words.old → IsSomeAnd handle.new.held (Stepped own words.old (step.DevRead dev off size) words.new) }
    ensures other { ¬ IsItsMemory own words.old →
        (result ≡ other_memory) × (value.new ≡ value.old) × (words.new ≡ words.old) × (handle.new.held ≡ Some own) }
{
    take_step(
        handle,
        alloc,
        words,
        Step::DevRead { dev, off, size },
        value,
    )
}

/// The hart writes `size` bytes, 1, 2 or 4, of the registers of block device `dev` at offset `off`, in bytes: done, bad access, no
/// device or misuse.
#[unsafe(no_mangle)]
pub extern "C" fn rviommu_dev_write(
    alloc: Global,
    handle: &mut Handle,
    words: &mut [u64],
    dev: u64,
    off: u64,
    size: u64,
    value: u64,
) -> u32
    ghost own: { Owned }
    requires open { handle.old.held ≡ Some own }
    ensures answer { IsItsMemory own words.old → result ≡ code_of (answer_in own words.old (step.DevWrite dev off size value)) }
    ensures after { IsItsMemory own words.old → IsSomeAnd handle.new.held (Stepped own words.old (step.DevWrite dev off size value) words.new) }
    ensures other { ¬ IsItsMemory own words.old →
        (result ≡ other_memory) × (words.new ≡ words.old) × (handle.new.held ≡ Some own) }
{
    let step = Step::DevWrite {
        dev,
        off,
        size,
        value,
    };
    give_step(handle, alloc, words, step)
}

/// Block device `dev`, counted from 0, goes on by one access: done, idle, denied, bus error or no device.
#[unsafe(no_mangle)]
pub extern "C" fn rviommu_dev_step(
    alloc: Global,
    handle: &mut Handle,
    words: &mut [u64],
    dev: u64,
    cause: &mut u64,
) -> u32
    ghost own: { Owned }
    requires open { handle.old.held ≡ Some own }
    ensures answer { IsItsMemory own words.old → result ≡ code_of (answer_in own words.old (step.Device dev)) }
    ensures cause { IsItsMemory own words.old → cause.new ≡ number_in (answer_in own words.old (step.Device dev)) cause.old }
    ensures after { IsItsMemory own words.old → IsSomeAnd handle.new.held (Stepped own words.old (step.Device dev) words.new) }
    ensures other { ¬ IsItsMemory own words.old →
        (result ≡ other_memory) × (cause.new ≡ cause.old) × (words.new ≡ words.old) × (handle.new.held ≡ Some own) }
{
    take_step(handle, alloc, words, Step::Device { dev }, cause)
}
