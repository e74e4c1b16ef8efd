//! How far a device is with a request.

ghost use Rattle.std.specs.Prelude.{◌≡◌, ◌≤◌, length};

use crate::device::Blk;

impl Blk {
    /// How many descriptors it took of the chain of the request that is under way, else of the one before; at most as many as the queue
    /// has. A descriptor that the chain refuses isn't taken (VIRTIO 1.2, "The Virtqueue Descriptor Table").
    pub fn descriptors_taken(&self) -> usize
        ensures count { result ≡ length self.now.chain.parts }
        ensures few { result ≤ self.now.chain.limit }
    {
        self.request.chain.parts().len()
    }
}
