ghost use Rattle.std.specs.Prelude.{◌≡◌, ◌<◌};
ghost use Rattle.iom_core.specs.State.{device_id_end};

use crate::iommu::Iommu;
use crate::witness::Witness;
use iom_mem::WritableRegion;
use iom_messages::Messages;
use iom_virtq::{Access, Bus};

/// A device's way to memory: memory, the window beside it and the IOMMU in front of both, lent to one device id, and the witness of its
/// accesses. Only a platform's
/// steps make one.
#[derive(Drop)]
pub struct Port<'m, 'i, 's, 'w, M: WritableRegion, W: Witness> {
    /// The memory.
    pub(crate) ram: &'m mut M,
    /// The IOMMU: its registers and caches.
    pub(crate) iommu: &'i mut Iommu,
    /// The messages that were sent, and the window into which they are.
    pub(crate) messages: &'s mut Messages,
    /// The device's id, 24 bits.
    pub(crate) did: u32,
    /// The witness of the accesses.
    pub(crate) witness: &'w mut W,
    /// The device's id is below 2^24.
    pub ghost did_fits: { did < device_id_end },
}

impl<M: WritableRegion, W: Witness> Bus for Port<'_, '_, '_, '_, M, W> {
    ghost use Rattle.std.specs.Prelude.{◌≡◌};
    ghost use Rattle.iom_core.specs.Access.{request_of, served, told_of};
    ghost use Rattle.iom_core.specs.State.{in_front_of};

    ghost answers = { λ old ask reply new. (new.ram.ghost_name ≡ old.ram.ghost_name)
        × (M.name new.ram.now ≡ M.name old.ram.now)
        × (new.iommu.ghost_name ≡ old.iommu.ghost_name)
        × (new.messages.ghost_name ≡ old.messages.ghost_name)
        × (new.did ≡ old.did)
        × (new.witness.ghost_name ≡ old.witness.ghost_name)
        × (reply ≡ (served (in_front_of (M.memory old.ram.now) old.iommu.now) old.messages.now old.did ask).reply)
        × (in_front_of (M.memory new.ram.now) new.iommu.now
        ≡ (served (in_front_of (M.memory old.ram.now) old.iommu.now) old.messages.now old.did ask).machine)
        × (new.messages.now ≡ (served (in_front_of (M.memory old.ram.now) old.iommu.now) old.messages.now old.did ask).messages)
        × (new.witness.now
        ≡ told_of W.next old.witness.now (in_front_of (M.memory old.ram.now) old.iommu.now) (request_of old.did ask)) };

    fn read(&mut self, iova: u64, out: &mut [u8]) -> Access {
        self.iommu
            .read(self.ram, self.messages, self.did, iova, out, self.witness)
    }

    fn write(&mut self, iova: u64, bytes: &[u8]) -> Access {
        self.iommu.write(self.ram, self.messages, self.did, iova, bytes, self.witness)
    }
}
