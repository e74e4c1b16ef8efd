ghost use Rattle.std.specs.Prelude.{ℕ, ◌≡◌, ◌+◌, length, Some, IfOk, slice_get};
ghost use Rattle.std.specs.Option.{option_map};

use crate::access::Denial;
use crate::board::Board;
use crate::step::{Answer, Step};
use crate::witness::Witness;
use iom_bits::Features;
use iom_blk::Blk;
use iom_cache::{ContextCache, TransCache};
use iom_mem::Ram;
use iom_messages::Window;
use iom_regs::Regs;
use std::alloc::{AllocError, Global};
use std::marker::Model;

/// One memory, one IOMMU, and up to eight block devices whose accesses it translates.
#[derive(Drop)]
pub struct Platform {
    /// Memory, at physical addresses.
    pub ram: Ram,
    /// The IOMMU in front of it, and the block devices.
    pub board: Board,
}

impl Model for Platform {
    ghost use Rattle.iom_core.specs.State.{State, state_on};

    ghost Value = { State };

    ghost view = { λ p. state_on p.ram p.board };
}

impl Platform {
    ghost use Rattle.iom_core.specs.State.{AreDevices, disk_of, opening, opening_with};
    ghost use Rattle.iom_core.specs.Table.{asked, next, told_by_step};
    ghost use Rattle.iom_core.specs.declared.access.Request.{Request};
    ghost use Rattle.iom_core.specs.Reach.{Reaches, Refuses};
    ghost use Rattle.iom_core.specs.Rows.{row};
    ghost use Rattle.iom_core.specs.Run.{answers, states, end_of};
    ghost use Rattle.iom_core.specs.Warrants.{AreWarranted, IsExplained, IsUncached, IsUpToDate, IsWarrant, moment};
    ghost use Rattle.iom_core.specs.declared.step.Step.{Step};
    ghost use Rattle.iom_core.specs.declared.warrant.Warrant.{Warrant};

    /// A platform with this memory and these block devices, at most 8, each with an id below 2^24 that no other has. Its IOMMU
    /// offers none of the features that `Features` names. Its registers are at reset and both caches empty. The fault is a refused
    /// allocation for the caches or the messages; all that was handed in is dropped then.
    pub fn new(alloc: Global, ram: Ram, devices: Vec<(u32, Blk)>) -> Result<Platform, AllocError>
        requires { AreDevices devices.items }
        ensures { IfOk result (λ platform. platform ≡ opening ram devices.items) }
    {
        Platform::with_features(alloc, ram, devices, Features::none(), None)
    }

    /// As `new`, with an IOMMU that offers these features, and with this window beside memory, if there is one.
    pub fn with_features(
        alloc: Global,
        ram: Ram,
        devices: Vec<(u32, Blk)>,
        features: Features,
        window: Option<Window>,
    ) -> Result<Platform, AllocError>
        requires { AreDevices devices.items }
        ensures { IfOk result (λ platform. platform ≡ opening_with features window ram devices.items) }
    {
        let board = Board::new(alloc, devices, features, window)?;
        Ok(Platform { ram, board })
    }

    /// An equal platform, which goes its own way from here. The fault is a refused allocation, and then this one is as it was.
    pub fn try_clone(&self, alloc: Global) -> Result<Platform, AllocError>
        ensures { IfOk result (λ copy. copy ≡ self.now) }
    {
        let ram = self.ram.try_clone(alloc)?;
        let board = self.board.try_clone(alloc)?;
        Ok(Platform { ram, board })
    }

    /// The memory, at physical addresses.
    pub fn ram(&self) -> &Ram
        ensures { result.now ≡ self.now.machine.memory }
    {
        &self.ram
    }

    /// The IOMMU's registers ("Memory-mapped register interface").
    pub fn registers(&self) -> &Regs
        ensures { result.now ≡ self.now.machine.registers }
    {
        self.board.registers()
    }

    /// The translation cache: in the standard the IOTLB.
    pub fn trans(&self) -> &TransCache
        ensures { result.now ≡ self.now.machine.pages }
    {
        self.board.trans()
    }

    /// The context cache: in the standard the DDTC.
    pub fn contexts(&self) -> &ContextCache
        ensures { result.now ≡ self.now.machine.contexts }
    {
        self.board.contexts()
    }

    /// The bytes of the disk of block device `n`, counted from 0; None if there is no such device.
    pub fn disk(&self, n: usize) -> Option<&[u8]>
        ensures { option_map (λ disk. disk.now) result ≡ option_map disk_of (slice_get self.now.devices n) }
    {
        self.board.disk(n)
    }

    /// The device id and the block device of number `n`, counted from 0; None if there is no such device.
    pub fn block_device(&self, n: usize) -> Option<&(u32, Blk)>
        ensures { option_map (λ own. own.now) result ≡ slice_get self.now.devices n }
    {
        self.board.block_device(n)
    }

    /// Carries out one step, and answers what the step table says. It takes no memory.
    pub fn step(&mut self, step: &Step) -> Answer
        ensures answer { result ≡ (next self.old step.now).answer }
        ensures state { self.new ≡ (next self.old step.now).state }

        // What it may change of memory, what a device's read takes, and what stands after a refusal.
        ensures reach { Reaches self.old step.now result self.new }
        ensures refused { Refuses result self.old self.new }
    {
        let mut answer = Answer::Done;
        self.step_into(step, &mut answer, &mut ());
        answer
    }

    /// Carries out one step as `step` does, and writes its answer to `answer`. A witness notices the access that the step makes, if it
    /// makes one: its context and its page, each with its source, and its way.
    #[inline(always)]
    pub fn step_into<W: Witness>(&mut self, step: &Step, answer: &mut Answer, witness: &mut W)
        ensures answer { answer.new ≡ (next self.old step.now).answer }
        ensures state { self.new ≡ (next self.old step.now).state }
        ensures told { witness.new ≡ told_by_step W.next witness.old self.old.machine (asked self.old step.now) }
        ensures reach { Reaches self.old step.now answer.new self.new }
        ensures refused { Refuses answer.new self.old self.new }
    {
        self.board.step_into(&mut self.ram, step, answer, witness);
    }

    /// Carries out one step whose access, if it makes one, goes to this address, or is denied so, whatever the caches and the tables say: as
    /// `Board::step_led` has it.
    pub fn step_led(&mut self, step: &Step, goes: Option<Result<u64, Denial>>) -> Answer
        ensures answer { result ≡ (row self.old step.now goes).answer }
        ensures state { self.new ≡ (row self.old step.now goes).state }
    {
        self.board.step_led(&mut self.ram, step, goes)
    }

    /// Carries out steps in their order, and puts the answer to each at its place in `out`.
    pub fn run(&mut self, steps: &[Step], out: &mut [Answer])
        requires { length steps.now ≡ length out.old }
        ensures answers { out.new ≡ answers self.old steps.now }
        ensures last_state { slice_get (states self.old steps.now) (length steps.now)
            ≡ Some self.new }
        ensures end { self.new ≡ end_of self.old steps.now }

        // Where nothing is cached at the start, what each access used has a warrant; a warrant is no older than each full
        // invalidation that is complete, so that each access is denied or has one that is up to date; and each step reaches
        // no other memory than its own.
        ensures fresh { IsUncached self.old → (n : ℕ) → IsExplained self.old steps.now n }
        ensures invalidated { (n : ℕ) (request : Request) (warrant : Warrant) →
            IsWarrant self.old steps.now n request warrant → IsUpToDate self.old steps.now n request warrant }
        ensures accesses { IsUncached self.old → AreWarranted self.old steps.now }
        ensures reach { (n : ℕ) (taken : Step) → slice_get steps.now n ≡ Some taken →
            Reaches (moment self.old steps.now n) taken (next (moment self.old steps.now n) taken).answer
            (moment self.old steps.now (n + 1)) }
    {
        self.take_all(steps, out);
    }

    // Steps in their order, the answer to each put at its place.
    fn take_all(&mut self, steps: &[Step], out: &mut [Answer])
        requires { length steps.now ≡ length out.old }
        ensures answers { out.new ≡ answers self.old steps.now }
        ensures end { self.new ≡ end_of self.old steps.now }
    {
        for (i, step) in steps.iter().enumerate() {
            self.step_into(step, &mut out[i], &mut ());
        }
    }
}
