// Storing the message bytes of a frame in the lent buffer.
ghost use Rattle.std.specs.Prelude.{◌≡◌, ◌++◌, ◌≤◌, length, take, drop};
ghost use Rattle.receiver.specs.Hear.{storing};

use crate::Buffer;
use frame::Frame;
use frame::count::carried;

// Copies the first `count` bytes; the rest of `to` stays. Document 01 asks for a copier that is lent a part of the buffer.
fn copy(to: &mut [u8], from: &[u8], count: usize)
    requires { (count ≤ length to.old) × (count ≤ length from.now) }
    ensures { to.new ≡ take count from.now ++ drop count to.old }
{
    to[..count].copy_from_slice(&from[..count]);
}

// The message bytes of frame `number` go to their place in the buffer, 7(i − 1), where the part that is lent starts.
#[tactic(auto, using(crate::proofs::Laws::stores))]
pub(crate) fn storing(f: Frame, number: u8, total: u16, buffer: &mut Buffer)
    ensures { buffer.new ≡ storing buffer.old number total (drop 1 f.bytes) }
{
    let from = 7 * usize::from(number.saturating_sub(1));
    copy(&mut buffer[from..], &f.bytes[1..], carried(number, total));
}
