//! Images: which bytes are one, and the platform that it starts.
#![tactic(auto)]

pub use capabilities::words_state_capabilities;
pub use fault::LoadFault;
pub use image::built_in;
pub use judging::{images_are_what_is_read, judge};
pub use loading::load;
pub use own::{OwnDisk, OwnImage};
pub use upgrading::upgrade;
pub use version::Version;
pub use writing::image_bytes;

mod capabilities;
mod fault;
mod fields;
mod image;
mod judging;
mod loading;
mod opening;
mod own;
mod upgrading;
mod version;
mod window;
mod writing;
