//! The command unit (RISC-V IOMMU Architecture 1.0, "Command-Queue (CQ)").

ghost use Rattle.std.specs.Prelude.{◌≡◌, Some};
ghost use Rattle.std.specs.Bool.{OnFalse, OnTrue};
ghost use Rattle.iom_queue.specs.declared.fetch.Fetch.TheVariants.{Ready};
ghost use Rattle.iom_bits.specs.Bytes.{bytes_of_number};
ghost use Rattle.iom_cache.specs.Drops.{drops_context, drops_page};
ghost use Rattle.iom_cache.specs.Places.{emptied_by};
ghost use Rattle.iom_core.specs.State.{in_front_of};
ghost use Rattle.iom_core.specs.Commands.{after_command, after_fence, can_execute, executed_of, fetched, is_for_contexts, is_for_pages, is_taken, left_by, messages_after, messages_after_command, messages_left, without_dropped};

use crate::iommu::Iommu;
use iom_cache::{ContextCache, TransCache};
use iom_mem::WritableRegion;
use iom_messages::Messages;
use iom_queue::{Command, Fetch, next_command};

impl Iommu {
    /// Takes one command of the command queue and carries it out whole; false if there is none to take. One that can't be fetched or
    /// carried out sets cqmf, an illegal one cmd_ill, and stays at the head ("Command-queue CSR (cqcsr)").
    #[tactic(auto, unfolding(crate::specs::Commands::after_command, crate::specs::Commands::messages_after_command, crate::specs::Commands::executed_by))]
    pub fn command<M: WritableRegion>(&mut self, ram: &mut M, messages: &mut Messages) -> bool
        ensures taken { result ≡ is_taken (fetched (in_front_of (M.memory ram.old) self.old)) }
        ensures left { in_front_of (M.memory ram.new) self.new ≡ after_command (in_front_of (M.memory ram.old) self.old) messages.old }
        ensures messages { messages.new ≡ messages_after_command (in_front_of (M.memory ram.old) self.old) messages.old }
        ensures borrow { M.name ram.new ≡ M.name ram.old }
    {
        match next_command(&self.registers, ram) {
            Fetch::Idle => return false,
            Fetch::Fault => self.registers.set_cqmf(),
            Fetch::Illegal => self.registers.set_cmd_ill(),
            Fetch::Ready(command) => self.carry_out(ram, messages, &command),
        }
        true
    }

    // Executes a command; a fence whose store can't be done is a fault of the queue.
    fn carry_out<M: WritableRegion>(
        &mut self,
        ram: &mut M,
        messages: &mut Messages,
        command: &Command,
    )
        ensures left { in_front_of (M.memory ram.new) self.new ≡ left_by (in_front_of (M.memory ram.old) self.old)
            (Ready command.now) (executed_of (M.memory ram.old) messages.old (Ready command.now)) }
        ensures messages { messages.new ≡ messages_left (M.memory ram.old) messages.old
            (executed_of (M.memory ram.old) messages.old (Ready command.now)) }
        ensures borrow { M.name ram.new ≡ M.name ram.old }
    {
        if !self.fence(ram, messages, command) {
            self.registers.set_cqmf();
            return;
        }
        self.invalidate(command);
        self.registers.pass_command();
    }

    // Stores a fence's data, or sends them, and notes its interrupt; false where neither can be done, and then nothing changes.
    fn fence<M: WritableRegion>(
        &mut self,
        ram: &mut M,
        messages: &mut Messages,
        command: &Command,
    ) -> bool
        ensures can { result ≡ can_execute (M.memory ram.old) messages.old command.now }
        ensures done { OnTrue result (in_front_of (M.memory ram.new) self.new
            ≡ after_fence (in_front_of (M.memory ram.old) self.old) command.now) }
        ensures sent { OnTrue result (messages.new ≡ messages_after command.now (M.memory ram.old) messages.old) }
        ensures unchanged { OnFalse result (self.new ≡ self.old) }
        ensures unsent { OnFalse result (messages.new ≡ messages.old) }
        ensures memory { OnFalse result (M.memory ram.new ≡ M.memory ram.old) }
        ensures borrow { M.name ram.new ≡ M.name ram.old }
    {
        if let Command::Fence {
            av,
            wsi,
            value,
            addr,
            ..
        } = *command
        {
            if av && !messages.put(ram, addr, &data_bytes(value)) {
                return false;
            }
            if wsi {
                self.registers.set_fence();
            }
        }
        true
    }

    // Empties the places that a command drops.
    fn invalidate(&mut self, command: &Command)
        ensures { self.new ≡ without_dropped self.old (Some command.now) }
    {
        drop_pages(&mut self.lines.pages, command);
        drop_contexts(&mut self.lines.contexts, command);
    }
}

// Empties the places of the translation cache that a command drops.
fn drop_pages(pages: &mut TransCache, command: &Command)
    ensures { pages.new ≡ emptied_by drops_page (Some command.now) pages.old }
{
    if is_for_pages(command) {
        pages.drop_matching(command);
    }
}

// Empties the places of the context cache that a command drops.
fn drop_contexts(contexts: &mut ContextCache, command: &Command)
    ensures { contexts.new ≡ emptied_by drops_context (Some command.now) contexts.old }
{
    if is_for_contexts(command) {
        contexts.drop_matching(command);
    }
}

fn is_for_pages(command: &Command) -> bool
    ensures { result ≡ is_for_pages command.now }
{
    matches!(command, Command::Vma { .. } | Command::Gvma { .. })
}

fn is_for_contexts(command: &Command) -> bool
    ensures { result ≡ is_for_contexts command.now }
{
    matches!(command, Command::Iodir { .. })
}

// A fence's data, the lowest byte first.
fn data_bytes(value: u32) -> [u8; 4]
    ensures { result ≡ bytes_of_number 4 value }
{
    value.to_le_bytes()
}
