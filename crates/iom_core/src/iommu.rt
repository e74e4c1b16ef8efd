use crate::caches::Lines;
use iom_regs::Regs;
use std::alloc::{AllocError, Global};
use std::marker::Model;

/// The IOMMU without the memory that it stands in front of, which is handed to it at each step.
#[derive(Drop)]
pub struct Iommu {
    /// Its registers.
    pub registers: Regs,
    /// Both caches.
    pub lines: Lines,
}

impl Model for Iommu {
    ghost use Rattle.iom_core.specs.State.{Iommu};

    ghost Value = { Iommu };

    ghost view = { λ m. record { registers = m.registers; contexts = m.lines.contexts; pages = m.lines.pages } };
}

impl Iommu {
    ghost use Rattle.std.specs.Prelude.{◌≡◌, IfOk};

    /// An equal IOMMU with caches of its own. The fault is a refused allocation, and then this one is as it was.
    pub fn try_clone(&self, alloc: Global) -> Result<Iommu, AllocError>
        ensures { IfOk result (λ copy. copy ≡ self.now) }
    {
        let contexts = self.lines.contexts.try_clone(alloc)?;
        let pages = self.lines.pages.try_clone(alloc)?;
        Ok(Iommu {
            registers: self.registers,
            lines: Lines { contexts, pages },
        })
    }
}
