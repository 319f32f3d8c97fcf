// Reading a frame: what is told of it for a message of a given length, or refusal 6. By the kind's number: document 01 asks for a
// match on it (Forms).
ghost use Rattle.std.specs.Prelude.{◌≡◌, drop};
ghost use Rattle.frame.specs.Reading.{named_of, all_filler, has_part, used_of, read_of};
ghost use Rattle.frame.specs.Result.{told_result};

use crate::count::carried;
use crate::{FILLER, Frame, Parsed, Refusal};

// How many bytes a kind names, from d0 on; those after them are filler.
#[tactic(auto, unfolding(crate::specs::Reading::named_of, crate::specs::Choice::pick))]
fn named(kind: u8, number: u8) -> usize
    ensures { result ≡ named_of kind number }
{
    match kind {
        1 => if number == 0 { 4 } else { 8 },
        2 => 2,
        3 | 6 => 1,
        4 => 3,
        _ => 8,
    }
}

// Every byte from a place on is filler.
pub fn all_filler(bytes: &[u8], from: usize) -> bool
    ensures { result ≡ all_filler (drop from bytes.now) }
{
    bytes.iter().skip(from).all(|byte| *byte == FILLER)
}

// An information frame from number 1 on.
fn has_part(f: Frame) -> bool
    ensures { result ≡ has_part f }
{
    (f.kind == 1) & (1 <= f.bytes[0])
}

// How many bytes of a frame are not filler, from d0 on, for a message of this length.
#[tactic(auto, unfolding(crate::specs::Reading::used_of, crate::specs::Choice::pick))]
fn used(f: Frame, length: u16) -> usize
    ensures { result ≡ used_of f length }
{
    let number = f.bytes[0];
    if has_part(f) {
        1 + carried(number, length)
    } else {
        named(f.kind, number)
    }
}

// What a frame is, if its kind is one of the seven and its filler is as it must be. The filler of an information frame from
// number 1 on is no reason to refuse it here; whether it is clean for a message of this length is told.
pub fn read(f: Frame, length: u16) -> Result<Parsed, Refusal>
    ensures { told_result result ≡ read_of f length }
{
    let kind = f.kind;
    let bytes = f.bytes;
    match kind {
        1..=7 => {
            let number = bytes[0];
            let from = used(f, length);
            let clean = all_filler(&bytes, from);
            if clean | has_part(f) {
                Ok(Parsed {
                    kind,
                    number,
                    clean,
                })
            } else {
                Err(Refusal::Unreadable)
            }
        }
        _ => Err(Refusal::Unreadable),
    }
}
