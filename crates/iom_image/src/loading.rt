//! The platform that an image starts.

ghost use Rattle.std.specs.Prelude.{◌≡◌, IfErr, IsOk};
ghost use Rattle.iom_image.specs.Loading.{state_from};
ghost use Rattle.iom_image.specs.Reading.{Gives, image_of, mapped};
ghost use Rattle.iom_image.specs.declared.fault.LoadFault.TheVariants as fault;

use crate::fault::LoadFault;
use crate::fields::header_of;
use crate::judging::judge;
use crate::opening::{fill, make_devices, zeros};
use iom_core::Platform;
use std::alloc::Global;

// The platform of an image that was judged. All memory that is taken is kept: that of the platform's memory, of the devices with
// their disks, and of the caches.
#[tactic(auto, unfolding(crate::specs::Reading::image_of))]
fn build(alloc: Global, bytes: &[u8]) -> Result<Platform, LoadFault>
    requires { IsOk (image_of bytes.now) }
    ensures { Gives (λ platform. platform) result (mapped state_from (image_of bytes.now)) }
{
    let (header, rest) = match header_of(bytes) {
        Ok(head) => head,
        Err(fault) => return Err(fault),
    };
    let mut ram = zeros(alloc, header.base, header.size)?;
    let rest = fill(&mut ram, &header, rest)?;
    let devices = make_devices(alloc, header.version.is_flagged(), header.disks, rest)?;
    Ok(Platform::with_features(
        alloc,
        ram,
        devices,
        header.version.features(),
        header.version.window(),
    )?)
}

/// The platform that an image starts: its memory, its window, if there is one, and its block devices, an IOMMU that offers what the
/// image states, with its registers at reset, and nothing cached. The whole image is judged first, so `OutOfMemory` is answered only for an image that would be accepted. No memory is taken beyond the
/// platform's own.
pub fn load(alloc: Global, bytes: &[u8]) -> Result<Platform, LoadFault>
    ensures exact { Gives (λ platform. platform) result (mapped state_from (image_of bytes.now)) }
    ensures memory { IfErr result (λ e. e ≡ fault.OutOfMemory → IsOk (image_of bytes.now)) }
{
    judge(bytes)?;
    build(alloc, bytes)
}
