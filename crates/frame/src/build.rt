// The frames of every kind. Bytes that a kind does not name are filler. What a frame carries
// goes as the numbers that its definition takes. A kind is document 01's number, as in `Frame`; each
// function is the name of one.
ghost use Rattle.std.specs.Prelude.{◌≡◌, get_or};
ghost use Rattle.frame.specs.Frames.{
  fill_to,
  blank_of,
  announcement_of,
  information_of,
  lm_ack_of,
  lm_nack_of,
  end_of_ack_of,
  sm_rm_of,
  sm_urm_of,
  sm_ack_of,
};

use crate::{FILLER, Frame};
use std::array;

// Stands where no frame is emitted: zeros by name, `blank_of` of the definitions.
#[tactic(auto, unfolding(crate::specs::Frames::blank_of))]
pub fn blank() -> Frame
    ensures { result ≡ blank_of }
{
    Frame {
        kind: 0,
        bytes: [0; 8],
    }
}

// The byte at a place, filler past the end.
fn byte_or_filler(s: &[u8], at: usize) -> u8
    ensures { result ≡ get_or s.now at 255 }
{
    s.get(at).copied().unwrap_or(FILLER)
}

// The first N bytes of what is given, filler where it has fewer.
fn filled<const N: usize>(given: &[u8]) -> [u8; N]
    ensures { result ≡ fill_to N given.now }
{
    array::from_fn(|at| byte_or_filler(given, at))
}

// A frame of a kind that names these bytes, or the first eight of them.
fn naming(kind: u8, named: &[u8]) -> Frame
    ensures kind { result.kind ≡ kind }
    ensures bytes { result.bytes ≡ fill_to 8 named.now }
{
    Frame {
        kind,
        bytes: filled(named),
    }
}

// Frame 0 of a long message.
#[tactic(auto, unfolding(crate::specs::Frames::fill_to, crate::specs::Frames::announcement_of))]
pub fn announcement(frames: u8, length: u16) -> Frame
    ensures { result ≡ announcement_of frames length }
{
    let [low, high] = length.to_le_bytes();
    naming(1, &[0, frames, low, high])
}

// A frame from number 1 on, with the first seven bytes of a part of the message. The seven are named one by one: an array is not put
// behind a byte.
#[tactic(auto, unfolding(crate::specs::Frames::information_of))]
pub fn information(number: u8, part: &[u8]) -> Frame
    ensures { result ≡ information_of number part.now }
{
    let [b0, b1, b2, b3, b4, b5, b6] = filled::<7>(part);
    Frame {
        kind: 1,
        bytes: [number, b0, b1, b2, b3, b4, b5, b6],
    }
}

// Asks for `count` frames from number `start` on.
#[tactic(auto, unfolding(crate::specs::Frames::fill_to, crate::specs::Frames::lm_ack_of))]
pub fn lm_ack(start: u8, count: u8) -> Frame
    ensures { result ≡ lm_ack_of start count }
{
    naming(2, &[start, count])
}

// Of any byte, not of a `Cause` alone: so its promise says, and C's frames have any. (Like `sm_ack` a line, of another kind; so are
// `sm_rm` and `sm_urm`, `announcement` and `end_of_ack`: each is a kind's layout.)
#[tactic(auto, unfolding(crate::specs::Frames::fill_to, crate::specs::Frames::lm_nack_of))]
pub fn lm_nack(cause: u8) -> Frame
    ensures { result ≡ lm_nack_of cause }
{
    naming(3, &[cause])
}

#[tactic(auto, unfolding(crate::specs::Frames::fill_to, crate::specs::Frames::end_of_ack_of))]
pub fn end_of_ack(frames: u8, length: u16) -> Frame
    ensures { result ≡ end_of_ack_of frames length }
{
    let [low, high] = length.to_le_bytes();
    naming(4, &[frames, low, high])
}

#[tactic(auto, unfolding(crate::specs::Frames::sm_rm_of))]
pub fn sm_rm(message: &[u8]) -> Frame
    ensures { result ≡ sm_rm_of message.now }
{
    naming(5, message)
}

#[tactic(auto, unfolding(crate::specs::Frames::sm_urm_of))]
pub fn sm_urm(message: &[u8]) -> Frame
    ensures { result ≡ sm_urm_of message.now }
{
    naming(7, message)
}

// Acknowledges the short message with this first byte.
#[tactic(auto, unfolding(crate::specs::Frames::fill_to, crate::specs::Frames::sm_ack_of))]
pub fn sm_ack(first: u8) -> Frame
    ensures { result ≡ sm_ack_of first }
{
    naming(6, &[first])
}
