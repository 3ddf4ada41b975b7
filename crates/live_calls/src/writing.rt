//! Texts for a caller's buffer.

ghost use Rattle.caller_buffers.specs.Filled.{Fits};

use crate::statuses::{DONE, TOO_SMALL};
use caller_buffers::hand_out;

/// Hands a text out where the buffer has room for it, and says its size.
pub fn fit(made: &[u8], text: &mut [u8], size: &mut usize) -> u32
    ensures { Fits made.now text.old text.new size.new result }
{
    *size = made.len();
    if hand_out(made, text) {
        DONE
    } else {
        TOO_SMALL
    }
}
