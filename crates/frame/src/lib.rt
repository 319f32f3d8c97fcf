// The frames that both ends hand about: what they are, how they are read and how they are built.
#![tactic(auto)]

pub mod build;
mod cause;
pub mod count;
pub mod read;
mod refusal;

pub use crate::cause::Cause;
pub use crate::refusal::Refusal;

// What stands in a byte that a kind does not name, and in a group's lent bytes after its own length.
pub const FILLER: u8 = 0xFF;

// The length of the longest message. A frame is read for it where no message is awaited: no frame has anything behind it.
pub const LONGEST: u16 = 1785;

// A frame: its kind and its eight data bytes, d0 to d7. It is passed and returned by value. The kind is a number, here and in
// `Parsed`: reading judges any number, and document 01 asks for a match on it (Forms).
#[derive(Clone, Copy)]
pub struct Frame {
    pub kind: u8,
    pub bytes: [u8; 8],
}

// What reading tells of a frame: its kind; d0, which is the number of an information frame; and whether what stands behind
// the message in an information frame is filler.
#[derive(Clone, Copy)]
pub struct Parsed {
    pub kind: u8,
    pub number: u8,
    pub clean: bool,
}
