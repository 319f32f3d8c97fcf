// The receiving end: its settings, its state and its answers. State goes in and out by value.
#![tactic(auto)]

mod announce;
mod hear;
mod hold;
mod information;
mod make;
mod steps;
mod store;
mod tick;
mod window;

use frame::{Frame, LONGEST};

// Timeout T in ticks, window C in frames, capacity K in bytes.
#[derive(Clone, Copy)]
pub struct Settings {
    pub timeout: u16,
    pub window: u8,
    pub capacity: u16,
}

// The N and L of a message: those last delivered, and those that an announcement asks for.
#[derive(Clone, Copy)]
pub struct Delivery {
    pub frames: u8,
    pub length: u16,
}

// The timeouts in a row that a connection counts, all of one type: after an own LM_ACK, or after an accepted frame that
// drew none. Where none is counted, what the connection waits after; where some are, it waits after an LM_ACK.
#[derive(Clone, Copy)]
pub enum Misses {
    NoneAfterAck,
    OneAfterAck,
    TwoAfterAck,
    NoneAfterFrame,
    OneAfterFrame,
}

// An open connection: N and L as announced, the frame number expected (e) and the last of the window (w), the timeouts
// counted and the ticks waited; whether it is held, and how many timeouts it has had while held. In this order it is laid
// out without gaps.
#[derive(Clone, Copy)]
pub struct Connection {
    pub frames: u8,
    pub expected: u8,
    pub length: u16,
    pub last: u8,
    pub misses: Misses,
    pub wait: u16,
    pub held: bool,
    pub holds: u8,
}

// Idle with nothing delivered that is remembered, Idle with the last delivery (Done), or Open.
#[derive(Clone, Copy)]
pub enum Phase {
    Idle,
    Done(Delivery),
    Open(Connection),
}

// The buffer that a hearing is lent, once its length is known.
const BUFFER: usize = LONGEST as usize;

pub(crate) type Buffer = [u8; BUFFER];

#[derive(Clone, Copy)]
pub struct Receiver {
    pub settings: Settings,
    pub phase: Phase,
}

// What a call reports: nothing, a refusal by its number, a delivery of L bytes, a failure by its cause's number, or a short
// delivery of these bytes. Any number: the player's lines take each. A refusal is a case here and no Err: the answer hands the
// state back too.
#[derive(Clone, Copy)]
pub enum Outcome {
    Quiet,
    Refused(u8),
    Delivered(u16),
    Failed(u8),
    Short([u8; 8]),
}

// What a call answers: the state after it, the frame that goes out, if one does, and what is reported.
#[derive(Clone, Copy)]
pub struct Answer {
    pub next: Receiver,
    pub frame: Option<Frame>,
    pub outcome: Outcome,
}
