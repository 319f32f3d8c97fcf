// Version talk: the list of versions that an end supports, the version message, and the talker of
// either side.
#![tactic(auto)]

mod act;
mod charger;
pub mod list;
mod table;
pub mod talk;
mod vehicle;
pub mod wire;

use frame::Refusal;

// The versions that an end supports, as numbers (major, minor and temporary version as the digits
// of base 256), rising. The first count of them stand; listing puts 0 after them, and a talker that
// was made looks at none of those. The C interface has the same count and numbers. The count is as
// wide as a number, so that a list has no gap and is copied as it lies.
#[derive(Clone, Copy)]
pub struct Versions {
    pub count: u32,
    pub numbers: [u32; 8],
}

// The result field of a version message.
#[derive(Clone, Copy)]
pub enum Verdict {
    Continue = 0,
    Success = 1,
    Failure = 2,
}

// What a version message says: the result, the version, and the control-pilot byte, which nobody
// judges.
#[derive(Clone, Copy)]
pub struct Message {
    pub verdict: Verdict,
    pub version: u32,
    pub control: u8,
}

// Which table a talker follows. (A group's sender is an enum of its own: the two have no function in common.)
#[derive(Clone, Copy)]
pub enum Side {
    Charger,
    Vehicle,
}

// S0 start, S1 negotiating, S2 agreed on a version below 2.0.0, S3 agreed, S4 failed, S5 left.
#[derive(Clone, Copy)]
pub enum State {
    S0,
    S1,
    S2,
    S3,
    S4,
    S5,
}

// A talker: its side, what it supports and its control-pilot byte; its state, the place Ns in the
// list, the result that its messages carry, and the ticks of T1 (period) and Tout0 (age). In S3 the
// vehicle's T1 runs while timing is true; period and timing stand apart, as in the C interface.
#[derive(Clone, Copy)]
pub struct Talker {
    pub side: Side,
    pub versions: Versions,
    pub control: u8,
    pub state: State,
    pub place: u32,
    pub verdict: Verdict,
    pub period: u16,
    pub age: u16,
    pub timing: bool,
}

// What a call reports: nothing, a refusal, the version agreed on, that the talk failed, or that it
// was left. A refusal is a case here and no Err: the answer hands the state back too.
#[derive(Clone, Copy)]
pub enum Outcome {
    Quiet,
    Refused(Refusal),
    Agreed(u32),
    Failed,
    Left,
}

// What a call answers: the next state, the message that goes out, if one does, and what is reported.
#[derive(Clone, Copy)]
pub struct Answer {
    pub next: Talker,
    pub message: Option<[u8; 8]>,
    pub outcome: Outcome,
}
