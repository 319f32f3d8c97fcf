// The player: reads a run pack, plays its events on the transport, and writes what is printed of
// them into lent bytes. It knows of the transport what that promises, and of the ends nothing.
#![tactic(auto)]

mod call;
mod open;
mod parts;
mod run;
mod turn;

pub use crate::call::PAGE;
use pack::Bodies;
use transport::Ends;

// The ends, where the pack's bodies are, and how many events have been played.
#[derive(Clone, Copy)]
pub struct Player {
    pub ends: Ends,
    pub bodies: Bodies,
    pub played: u16,
}

// The player after a call, and how many bytes of the page are written: a length and no slice, since the page is lent.
#[derive(Clone, Copy)]
pub struct Progress {
    pub player: Player,
    pub written: usize,
}
