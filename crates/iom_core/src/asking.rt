//! What a step asks of the IOMMU.

ghost use Rattle.std.specs.Prelude.{◌≡◌, ◌<◌, IfSome};
ghost use Rattle.iom_core.specs.State.{device_id_end, state_on};
ghost use Rattle.iom_core.specs.Table.{request_of_step};
ghost use Rattle.iom_core.specs.declared.step.Step.TheVariants as step;

use crate::access::Request;
use crate::board::{Board, device_request, translation_request};
use crate::{Platform, Step};
use iom_bits::Kind;
use iom_blk::Want;
use iom_mem::Region;

impl Platform {
    /// The request that a step makes of the IOMMU if it is carried out next, a block device's too. Its device id is below 2^24. None if
    /// the step makes no access.
    pub fn request_of(&self, step: &Step) -> Option<Request>
        ensures request { result ≡ request_of_step self.now step.now }
        ensures fits { IfSome result (λ request. request.did < device_id_end) }
    {
        self.board.request_of(&self.ram, step)
    }
}

impl Board {
    /// What a step asks of the IOMMU, if it is the next one in front of this memory, of which nothing is read: a device's access, a block
    /// device's too. Its device id is below 2^24. None if it makes none.
    #[tactic(auto, unfolding(crate::specs::Table::asked))]
    pub fn request_of<M: Region>(&self, ram: &M, step: &Step) -> Option<Request>
        ensures request { result ≡ request_of_step (state_on (M.memory ram.now) self.now) step.now }
        ensures fits { IfSome result (λ request. request.did < device_id_end) }
    {
        match step {
            Step::DmaRead { did, iova, len } => device_request(*did, *iova, *len, Kind::Read),
            Step::DmaWrite { did, iova, bytes } => {
                device_request(*did, *iova, bytes.len() as u64, Kind::Write)
            }
            Step::Translate { did, iova, kind } => translation_request(*did, *iova, *kind),
            Step::Device { dev } => self.request_of_device(ram, *dev),
            _ => None,
        }
    }

    // What a block device asks of the IOMMU.
    #[tactic(auto, unfolding(crate::specs::Table::asked))]
    fn request_of_device<M: Region>(&self, _ram: &M, dev: u64) -> Option<Request>
        ensures request { result ≡ request_of_step (state_on (M.memory _ram.now) self.now) (step.Device dev) }
        ensures fits { IfSome result (λ request. request.did < device_id_end) }
    {
        let n = dev as usize;
        if n >= self.devices.len() {
            return None;
        }
        let (did, device) = &self.devices[n];
        let (iova, kind) = match device.want() {
            Want::Nothing => return None,
            Want::Read { iova, .. } => (iova, Kind::Read),
            Want::Write { iova, .. } => (iova, Kind::Write),
        };
        Some(Request::of(*did, iova, kind))
    }
}
