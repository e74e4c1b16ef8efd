//! Windows beside memory, where a write is a message.

ghost use Rattle.std.specs.Prelude.{◌≡◌, ◌+◌, nat_le};
ghost use Rattle.iom_image.specs.Reading.{Reads, window_at};
ghost use Rattle.iom_image.specs.Versions.{is_beside, is_window, window_bit};

use crate::fault::LoadFault;
use crate::fields::u64_of;
use iom_mem::is_lendable;
use iom_messages::Window;

/// Bit 8 of the second word of version 4, if there is a window; its base and size follow.
pub fn window_bit(window: Option<Window>) -> u64
    ensures { result ≡ window_bit window }
{
    match window {
        None => 0,
        Some(_) => 1 << 8,
    }
}

/// Whether there may be such a window: its base and size are multiples of 4096, the size isn't 0, and the end is 2^56 or below.
pub fn is_window(window: Option<Window>) -> bool
    ensures { result ≡ is_window window }
{
    match window {
        None => true,
        Some(window) => is_lendable(window.base, window.size),
    }
}

// Whether so many bytes from a base on end at or below a limit.
fn ends_below(base: u64, size: u64, limit: u64) -> bool
    ensures { result ≡ nat_le (base + size) limit }
{
    limit >= base && limit - base >= size
}

/// Whether no byte of a window is one of the memory of this base and size.
pub fn is_beside(window: Option<Window>, base: u64, size: u64) -> bool
    ensures { result ≡ is_beside window base size }
{
    let Some(window) = window else {
        return true;
    };
    ends_below(window.base, window.size, base) || ends_below(base, size, window.base)
}

/// The window whose base and size follow, if they do, and the bytes after them. The refusals are `Truncated` and `BadWindow`.
#[tactic(auto, unfolding(crate::specs::Reading::window_at))]
pub fn window_of(follows: bool, bytes: &[u8]) -> Result<(Option<Window>, &[u8]), LoadFault>
    ensures { Reads (λ x. (x.0, x.1.now)) result (window_at follows bytes.now) }
{
    if !follows {
        return Ok((None, bytes));
    }
    let (base, rest) = u64_of(bytes)?;
    let (size, rest) = u64_of(rest)?;
    if !is_lendable(base, size) {
        return Err(LoadFault::BadWindow);
    }
    Ok((Some(Window { base, size }), rest))
}
