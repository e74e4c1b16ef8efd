ghost use Rattle.iom_nested.specs.Stages.{ram_got};

use iom_mem::Region;
use iom_walk::{Got, Words};

/// Memory as a source of words, at physical addresses, for entries of tables that no stage translates.
#[derive(Drop)]
pub struct Physical<'a, M: Region> {
    /// The memory.
    pub ram: &'a M,
}

impl<M: Region> Words for Physical<'_, M> {
    ghost at = { λ source. ram_got (M.memory source.ram.now) };

    fn word(&self, addr: u64) -> Got {
        match self.ram.word(addr) {
            Some(word) => Got::Word(word),
            None => Got::Outside,
        }
    }
}
