//! A caller's buffers, to which texts are handed out where they have room.
#![tactic(auto)]

ghost use Rattle.std.specs.Prelude.{◌≡◌, ◌≤◌, ◌<◌, ◌⊎◌, length, false, IsTrue};
ghost use Rattle.caller_buffers.specs.Filled.{IsFilled};

/// Copies a text to the front of a buffer with room for it.
fn fill(text: &[u8], buffer: &mut [u8])
    requires { length text.now ≤ length buffer.old }
    ensures { IsFilled text.now buffer.old buffer.new }
{
    buffer[..text.len()].copy_from_slice(text);
}

/// Hands a text out where the buffer has room for it, and says whether it has.
pub fn hand_out(text: &[u8], buffer: &mut [u8]) -> bool
    ensures out { IsTrue result → IsFilled text.now buffer.old buffer.new }
    ensures small { result ≡ false → length buffer.old < length text.now }
    ensures kept { result ≡ false → buffer.new ≡ buffer.old }
{
    if text.len() > buffer.len() {
        return false;
    }
    fill(text, buffer);
    true
}

/// Hands two texts out where both buffers have room, and says whether they have.
pub fn hand_out_both(text: &[u8], buffer: &mut [u8], other: &[u8], other_buffer: &mut [u8]) -> bool
    ensures out { IsTrue result → IsFilled text.now buffer.old buffer.new }
    ensures other_out { IsTrue result → IsFilled other.now other_buffer.old other_buffer.new }
    ensures small { result ≡ false → (length buffer.old < length text.now)
        ⊎ (length other_buffer.old < length other.now) }
    ensures kept { result ≡ false → buffer.new ≡ buffer.old }
    ensures other_kept { result ≡ false → other_buffer.new ≡ other_buffer.old }
{
    if text.len() > buffer.len() || other.len() > other_buffer.len() {
        return false;
    }
    fill(text, buffer);
    fill(other, other_buffer);
    true
}
