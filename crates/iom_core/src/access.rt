//! A device's access: where it leads, and what it leaves in the caches (RISC-V IOMMU Architecture 1.0, "Process to translate
//! an IOVA", "Caching in-memory data structures").

ghost use Rattle.std.specs.Prelude.{◌≡◌, ◌<◌, ◌≤◌, ◌+◌, ◌*◌, ◌%◌, [], false, length, None, Ok, Err};
ghost use Rattle.std.specs.Bool.{OnFalse};
ghost use Rattle.iom_regs.specs.Views.{mode_of};
ghost use Rattle.iom_ddt.specs.Contexts.{is_bare};
ghost use Rattle.iom_ddt.specs.Directory.{levels_of, located};
ghost use Rattle.iom_cache.specs.Keys.{same_did, same_key};
ghost use Rattle.iom_cache.specs.Places.{find, look};
ghost use Rattle.iom_virtq.specs.Bus.{Read, Write, is_granted, reply_of};
ghost use Rattle.iom_core.specs.Access.{address_on, after_request, context_look, filled_where, led, led_by_context, led_under, machine_of, page_told, plain, record_left, request_key, request_of, served, witness_after, told_of, translating, under_told, with_delivery, with_fills};
ghost use Rattle.iom_core.specs.State.{context_room, device_id_end, in_front_of, page_room};
ghost use Rattle.iom_core.specs.declared.way.Way.TheVariants as way;
ghost use Rattle.iom_core.specs.declared.witness.Event.TheVariants as event;

use crate::caches::Caches;
use crate::iommu::Iommu;
use crate::way::Way;
use crate::witness::{Event, Source, Witness};
use iom_bits::{Cause, Features, Kind};
use iom_cache::{Key, key_of};
use iom_ddt::{Context, is_too_wide, locate};
use iom_mem::{Region, WritableRegion};
use iom_messages::Messages;
use iom_nested::{Fault, Hit, translate};
use iom_queue::{Record, deliver, is_reported};
use iom_regs::{Mode, Regs};
use iom_virtq::Access;

/// What a device asks of the IOMMU: an untranslated request (RISC-V IOMMU Architecture 1.0, "Process to translate an IOVA").
#[derive(Clone, Copy)]
pub struct Request {
    /// The IOVA of its first byte, any of 64 bits.
    pub iova: u64,
    /// The device's id, below 2^24.
    pub did: u32,
    /// Whether it reads or writes.
    pub kind: Kind,
}

impl Request {
    ghost use Rattle.std.specs.Prelude.{◌≡◌};
    ghost use Rattle.iom_core.specs.Access.{access_to};

    /// What device `did`, below 2^24, asks for IOVA `iova`.
    pub fn of(did: u32, iova: u64, kind: Kind) -> Request
        ensures { result ≡ access_to did iova kind }
    {
        Request { iova, did, kind }
    }
}

/// Why a request is denied.
#[derive(Clone, Copy, PartialEq)]
pub struct Denial {
    /// The cause of the fault ("Fault/Event-Queue (FQ)", CAUSE).
    pub cause: Cause,
    /// Of a guest page fault the guest-physical address, in the form of a fault record's iotval2; else 0.
    pub iotval2: u64,
    /// Whether it makes a fault record: always, but for a fault of a stage under a context with DTF = 1.
    pub reported: bool,
}

impl Denial {
    ghost use Rattle.iom_core.specs.Access.{plain, translating};

    /// A fault before any page table is read: it has no guest-physical address, and always makes a record.
    pub fn plain(cause: Cause) -> Denial
        ensures { result ≡ plain cause }
    {
        Denial {
            cause,
            iotval2: 0,
            reported: true,
        }
    }

    /// A fault of a translation under a context, whose DTF may silence it.
    pub fn translating(context: &Context, fault: Fault) -> Denial
        ensures { result ≡ translating context.now fault }
    {
        Denial {
            cause: fault.cause,
            iotval2: fault.iotval2,
            reported: is_reported(fault.cause, context.fields.dtf),
        }
    }
}

impl Iommu {
    /// Reads the bytes from IOVA `iova` on, within one page of 4096 bytes, for device `did`, below 2^24, into `out`, which is unchanged
    /// unless the answer is Ok. `Denied` if the IOMMU denies it, which may leave a fault record; `Outside` if a byte of it lies outside
    /// memory. A witness notices what leads it.
    #[tactic(auto, unfolding(crate::specs::Access::effect))]
    pub fn read<M: WritableRegion, W: Witness>(
        &mut self,
        ram: &mut M,
        messages: &Messages,
        did: u32,
        iova: u64,
        out: &mut [u8],
        witness: &mut W,
    ) -> Access
        requires { did < device_id_end }
        ensures reply { reply_of result out.new
            ≡ (served (in_front_of (M.memory ram.old) self.old) messages.now did (Read iova (length out.old))).reply }
        ensures left { in_front_of (M.memory ram.new) self.new
            ≡ (served (in_front_of (M.memory ram.old) self.old) messages.now did (Read iova (length out.old))).machine }
        ensures messages { messages.now ≡ (served (in_front_of (M.memory ram.old) self.old) messages.now did (Read iova (length out.old))).messages }
        ensures unchanged { OnFalse (is_granted result) (out.new ≡ out.old) }
        ensures told { witness.new ≡ told_of W.next witness.old (in_front_of (M.memory ram.old) self.old)
            (request_of did (Read iova (length out.old))) }
        ensures borrow { M.name ram.new ≡ M.name ram.old }
    {
        let request = Request::of(did, iova, Kind::Read);
        match self.address(ram, &request, witness) {
            Err(denial) => self.deny(ram, &request, denial),
            Ok(addr) if ram.read(addr, out) => Access::Ok,
            Ok(_) => Access::Outside,
        }
    }

    /// Writes `bytes` from IOVA `iova` on, within one page of 4096 bytes, for device `did`, below 2^24: to memory, or, if they are four at
    /// a multiple of 4 in the window beside it, as a message. The answers are those of `read`; unless it is Ok none of the bytes is
    /// written or sent. A witness notices what leads it.
    #[tactic(auto, unfolding(crate::specs::Access::effect))]
    pub fn write<M: WritableRegion, W: Witness>(
        &mut self,
        ram: &mut M,
        messages: &mut Messages,
        did: u32,
        iova: u64,
        bytes: &[u8],
        witness: &mut W,
    ) -> Access
        requires { did < device_id_end }
        ensures reply { reply_of result []
            ≡ (served (in_front_of (M.memory ram.old) self.old) messages.old did (Write iova bytes.now)).reply }
        ensures left { in_front_of (M.memory ram.new) self.new
            ≡ (served (in_front_of (M.memory ram.old) self.old) messages.old did (Write iova bytes.now)).machine }
        ensures messages { messages.new
            ≡ (served (in_front_of (M.memory ram.old) self.old) messages.old did (Write iova bytes.now)).messages }
        ensures told { witness.new ≡ told_of W.next witness.old (in_front_of (M.memory ram.old) self.old)
            (request_of did (Write iova bytes.now)) }
        ensures borrow { M.name ram.new ≡ M.name ram.old }
    {
        let request = Request::of(did, iova, Kind::Write);
        match self.address(ram, &request, witness) {
            Err(denial) => self.deny(ram, &request, denial),
            Ok(addr) if messages.put(ram, addr, bytes) => Access::Ok,
            Ok(_) => Access::Outside,
        }
    }

    /// The physical address that a request is led to, also if it lies outside memory; or why it is denied, which may leave a fault record.
    /// No byte is accessed. A witness notices what leads it.
    pub fn translate<M: WritableRegion, W: Witness>(
        &mut self,
        ram: &mut M,
        request: &Request,
        witness: &mut W,
    ) -> Result<u64, Denial>
        requires { request.now.did < device_id_end }
        ensures address { result ≡ address_on (led (in_front_of (M.memory ram.old) self.old) request.now).way request.now.iova }
        ensures left { in_front_of (M.memory ram.new) self.new ≡ after_request (in_front_of (M.memory ram.old) self.old) request.now
            (address_on (led (in_front_of (M.memory ram.old) self.old) request.now).way request.now.iova) }
        ensures told { witness.new ≡ told_of W.next witness.old (in_front_of (M.memory ram.old) self.old) request.now }
        ensures borrow { M.name ram.new ≡ M.name ram.old }
    {
        let led = self.address(ram, request, witness);
        if let Err(denial) = led {
            let _ = self.deny(ram, request, denial);
        }
        led
    }

    // The physical address that a request leads to. What is read on the way is cached.
    #[inline(always)]
    fn address<M: Region, W: Witness>(
        &mut self,
        ram: &M,
        request: &Request,
        witness: &mut W,
    ) -> Result<u64, Denial>
        ensures address { result
            ≡ address_on (led (in_front_of (M.memory ram.now) self.old) request.now).way request.now.iova }
        ensures filled { in_front_of (M.memory ram.now) self.new
            ≡ with_fills (in_front_of (M.memory ram.now) self.old) (led (in_front_of (M.memory ram.now) self.old) request.now) }
        ensures told { witness.new ≡ told_of W.next witness.old (in_front_of (M.memory ram.now) self.old) request.now }
    {
        lead(ram, &self.registers, &mut self.lines, request, witness)
    }

    // Denies a request, and delivers its record where it makes one.
    #[tactic(auto, unfolding(crate::specs::Access::record_left))]
    pub(crate) fn deny<M: WritableRegion>(
        &mut self,
        ram: &mut M,
        request: &Request,
        denial: Denial,
    ) -> Access
        requires { request.now.did < device_id_end }
        ensures answer { result ≡ Access.Denied denial.cause }
        ensures left { in_front_of (M.memory ram.new) self.new ≡ with_delivery (in_front_of (M.memory ram.old) self.old)
            (record_left self.old.registers (M.memory ram.old) request.now denial) }
        ensures borrow { M.name ram.new ≡ M.name ram.old }
    {
        if denial.reported {
            let Request { did, iova, kind } = *request;
            let record = Record::of_denial(denial.cause, kind, did, iova, denial.iotval2);
            deliver(&mut self.registers, ram, &record);
        }
        Access::Denied(denial.cause)
    }
}

/// The physical address that a request leads to, in these caches, which are filled with what is read for it. A witness notices what leads
/// it ("Process to translate an IOVA").
#[inline(always)]
#[tactic(auto, unfolding(crate::specs::Access::led))]
pub(crate) fn lead<M: Region, C: Caches, W: Witness>(
    ram: &M,
    registers: &Regs,
    caches: &mut C,
    request: &Request,
    witness: &mut W,
) -> Result<u64, Denial>
    ensures address { result ≡ address_on
        (led (machine_of (M.memory ram.now) registers.now (C.contexts caches.old) (C.pages caches.old)) request.now).way request.now.iova }
    ensures contexts { C.contexts caches.new ≡ filled_where C.fills context_room
        (led (machine_of (M.memory ram.now) registers.now (C.contexts caches.old) (C.pages caches.old)) request.now).context (C.contexts caches.old) }
    ensures pages { C.pages caches.new ≡ filled_where C.fills page_room
        (led (machine_of (M.memory ram.now) registers.now (C.contexts caches.old) (C.pages caches.old)) request.now).page (C.pages caches.old) }
    ensures told { witness.new ≡ witness_after W.next witness.old request.now
        (led (machine_of (M.memory ram.now) registers.now (C.contexts caches.old) (C.pages caches.old)) request.now) }
{
    match registers.mode() {
        Mode::Off => refuse(Denial::plain(Cause::Off), witness),
        Mode::Bare => {
            witness.notice(Event::Way(Way::Register));
            Ok(request.iova)
        }
        Mode::Levels(_) => by_directory(ram, registers, caches, request, witness),
    }
}

// Leads a request in a mode with a directory: by the context of its device, from the live place or else from the directory.
#[inline(always)]
#[tactic(auto, unfolding(crate::specs::Access::context_look), using(crate::proofs::Wide::too_wide_located))]
fn by_directory<M: Region, C: Caches, W: Witness>(
    ram: &M,
    registers: &Regs,
    caches: &mut C,
    request: &Request,
    witness: &mut W,
) -> Result<u64, Denial>
    requires directory { 1 ≤ levels_of (mode_of registers.now) }
    ensures address { let m = machine_of (M.memory ram.now) registers.now (C.contexts caches.old) (C.pages caches.old) in
        result ≡ address_on (led_by_context m request.now
        (context_look m request.now.did).filled (context_look m request.now.did).used).way request.now.iova }
    ensures contexts { let m = machine_of (M.memory ram.now) registers.now (C.contexts caches.old) (C.pages caches.old) in
        C.contexts caches.new ≡ filled_where C.fills context_room (context_look m request.now.did).filled (C.contexts caches.old) }
    ensures pages { let m = machine_of (M.memory ram.now) registers.now (C.contexts caches.old) (C.pages caches.old) in
        C.pages caches.new ≡ filled_where C.fills page_room (led_by_context m request.now
        (context_look m request.now.did).filled (context_look m request.now.did).used).page (C.pages caches.old) }
    ensures told { let m = machine_of (M.memory ram.now) registers.now (C.contexts caches.old) (C.pages caches.old) in
        witness.new ≡ witness_after W.next witness.old request.now (led_by_context m request.now
        (context_look m request.now.did).filled (context_look m request.now.did).used) }
{
    if is_too_wide(registers, request.did) {
        return refuse(Denial::plain(Cause::TooWide), witness);
    }
    match caches.context(request.did) {
        Some(context) => {
            witness.notice(Event::Context(Source::Found, request.did, context));
            by_context(
                ram,
                registers.features(),
                caches,
                request,
                &context,
                witness,
            )
        }
        None => by_new_context(ram, registers, caches, request, witness),
    }
}

// Leads a request whose device has no live context, by the one in the directory. That is filled also if the walk fails.
#[inline(never)]
fn by_new_context<M: Region, C: Caches, W: Witness>(
    ram: &M,
    registers: &Regs,
    caches: &mut C,
    request: &Request,
    witness: &mut W,
) -> Result<u64, Denial>
    requires directory { 1 ≤ levels_of (mode_of registers.now) }
    requires new { find (same_did request.now.did) (C.contexts caches.old) ≡ None }
    ensures address { result ≡ address_on (led_by_context
        (machine_of (M.memory ram.now) registers.now (C.contexts caches.old) (C.pages caches.old)) request.now
        (look request.now.did None (located (M.memory ram.now) registers.now request.now.did)).filled
        (located (M.memory ram.now) registers.now request.now.did)).way request.now.iova }
    ensures contexts { C.contexts caches.new ≡ filled_where C.fills context_room
        (look request.now.did None (located (M.memory ram.now) registers.now request.now.did)).filled (C.contexts caches.old) }
    ensures pages { C.pages caches.new ≡ filled_where C.fills page_room (led_by_context
        (machine_of (M.memory ram.now) registers.now (C.contexts caches.old) (C.pages caches.old)) request.now
        (look request.now.did None (located (M.memory ram.now) registers.now request.now.did)).filled
        (located (M.memory ram.now) registers.now request.now.did)).page (C.pages caches.old) }
    ensures told { witness.new ≡ witness_after W.next witness.old request.now (led_by_context
        (machine_of (M.memory ram.now) registers.now (C.contexts caches.old) (C.pages caches.old)) request.now
        (look request.now.did None (located (M.memory ram.now) registers.now request.now.did)).filled
        (located (M.memory ram.now) registers.now request.now.did)) }
{
    match locate(ram, registers, request.did) {
        Ok(context) => {
            witness.notice(Event::Context(Source::Read, request.did, context));
            let reached = by_context(
                ram,
                registers.features(),
                caches,
                request,
                &context,
                witness,
            );
            caches.fill_context(request.did, context);
            reached
        }
        Err(cause) => refuse(Denial::plain(cause), witness),
    }
}

// Leads a request under a context: by the page's live place, or else by the stages.
#[inline(always)]
#[tactic(auto, unfolding(crate::specs::Access::page_look))]
pub(crate) fn by_context<M: Region, C: Caches, W: Witness>(
    ram: &M,
    features: Features,
    caches: &mut C,
    request: &Request,
    context: &Context,
    witness: &mut W,
) -> Result<u64, Denial>
    ensures address { result ≡ address_on (led_under (M.memory ram.now) features (C.pages caches.old) request.now context.now).way request.now.iova }
    ensures contexts { C.contexts caches.new ≡ C.contexts caches.old }
    ensures pages { C.pages caches.new ≡ filled_where C.fills page_room
        (led_under (M.memory ram.now) features (C.pages caches.old) request.now context.now).page (C.pages caches.old) }
    ensures told { witness.new ≡ under_told W.next witness.old request.now (led_under (M.memory ram.now) features (C.pages caches.old) request.now context.now) }
{
    if context.is_bare() {
        witness.notice(Event::Way(Way::Context(*context)));
        return Ok(request.iova);
    }
    let key = key_of(context, request.did, request.iova, request.kind);
    match caches.page(&key) {
        Some(hit) => {
            witness.notice(Event::Page(Source::Found, key, hit));
            witness.notice(Event::Way(Way::Walked(*context, hit)));
            Ok(in_frame(&hit, request.iova))
        }
        None => by_walk(ram, features, caches, request, context, key, witness),
    }
}

// Leads a request under a context by its stages, if no live place has the page.
#[inline(never)]
#[tactic(auto, unfolding(crate::specs::Access::page_look))]
fn by_walk<M: Region, C: Caches, W: Witness>(
    ram: &M,
    features: Features,
    caches: &mut C,
    request: &Request,
    context: &Context,
    key: Key,
    witness: &mut W,
) -> Result<u64, Denial>
    requires staged { is_bare context.now ≡ false }
    requires key { key ≡ request_key request.now context.now }
    requires new { find (same_key key) (C.pages caches.old) ≡ None }
    ensures address { result ≡ address_on (led_under (M.memory ram.now) features (C.pages caches.old) request.now context.now).way request.now.iova }
    ensures contexts { C.contexts caches.new ≡ C.contexts caches.old }
    ensures pages { C.pages caches.new ≡ filled_where C.fills page_room
        (led_under (M.memory ram.now) features (C.pages caches.old) request.now context.now).page (C.pages caches.old) }
    ensures told { witness.new ≡ under_told W.next witness.old request.now (led_under (M.memory ram.now) features (C.pages caches.old) request.now context.now) }
{
    match translate(ram, features, context, request.iova, request.kind) {
        Ok(hit) => {
            caches.fill_page(key, hit);
            witness.notice(Event::Page(Source::Read, key, hit));
            witness.notice(Event::Way(Way::Walked(*context, hit)));
            Ok(in_frame(&hit, request.iova))
        }
        Err(fault) => refuse(Denial::translating(context, fault), witness),
    }
}

// Denies a request.
#[inline(always)]
fn refuse<W: Witness>(denial: Denial, witness: &mut W) -> Result<u64, Denial>
    ensures denied { result ≡ Err denial }
    ensures told { witness.new ≡ W.next witness.old (event.Way (way.Denied denial)) }
{
    witness.notice(Event::Way(Way::Denied(denial)));
    Err(denial)
}

/// The physical address of an IOVA in the frame that its page leads to.
#[inline(always)]
pub(crate) fn in_frame(hit: &Hit, iova: u64) -> u64
    ensures { result ≡ hit.now.frame * 4096 + iova % 4096 }
{
    hit.frame * 4096 + iova % 4096
}
