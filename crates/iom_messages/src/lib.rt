//! Messages: writes that go to no memory, but into a window of physical addresses beside it.
#![tactic(auto)]

pub use messages::{MESSAGES_ROOM, Message, Messages};
pub use window::Window;

mod messages;
mod window;
