//! A board put together from its parts.

ghost use Rattle.std.specs.Prelude.{◌≡◌, ◌↔◌, ◌≤◌, IsSome, IfSome, length};
ghost use Rattle.iom_core.specs.State.{EachFits, board_of, most_devices};

use crate::board::Board;
use crate::caches::Lines;
use crate::iommu::Iommu;
use iom_blk::Blk;
use iom_cache::{ContextCache, TransCache};
use iom_messages::Messages;
use iom_regs::Regs;

/// How many block devices there are at most.
const MOST_DEVICES: usize = 8;

impl Board {
    /// The board of these registers, these caches, these messages and these block devices, each with its id, which is below 2^24. None if there are more
    /// than 8 devices.
    pub fn of(
        registers: Regs,
        contexts: ContextCache,
        pages: TransCache,
        messages: Messages,
        devices: Vec<(u32, Blk)>,
    ) -> Option<Board>
        requires { EachFits devices.items }
        ensures few { IsSome result ↔ (length devices.items ≤ most_devices) }
        ensures board { IfSome result (λ board. board ≡ board_of registers contexts pages messages devices.items) }
    {
        if devices.len() > MOST_DEVICES {
            return None;
        }
        Some(Board {
            iommu: Iommu {
                registers,
                lines: Lines { contexts, pages },
            },
            messages,
            devices,
        })
    }

    /// How many block devices there are, at most 8. Each has an id below 2^24.
    pub fn device_count(&self) -> usize
        ensures count { result ≡ length self.now.devices }
        ensures few { result ≤ most_devices }
        ensures fit { EachFits self.now.devices }
    {
        self.devices.len()
    }
}
