//! The image that the statements of a text make.

use iom_image::OwnImage;

/// What the statements so far make.
#[derive(Drop)]
pub struct ImageDraft {
    /// The image that they describe: memory, chunks, disks, features and window.
    pub image: OwnImage,
    /// The physical address of what is placed next, any of 64 bits.
    pub next_address: u64,
}
