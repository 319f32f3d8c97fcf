// Both ends and both directions of the line: one function for each call. Each answers the ends and what was said.
#![tactic(auto)]

mod call;
mod give;
mod make;
mod tell;

use frame::Frame;
use line::Ring;
use receiver::Receiver;
use sender::Sender;

// Both ends, and both directions of the line as rings in lent bytes.
#[derive(Clone, Copy)]
pub struct Ends {
    pub sender: Sender,
    pub receiver: Receiver,
    pub forward: Ring,
    pub back: Ring,
}

// What the called end said: the frame that it emitted, if it did, and what it reported; the outcome of an end that was not
// called is quiet. Both stand, as `Told` of the definitions has them.
#[derive(Clone, Copy)]
pub struct Said {
    pub frame: Option<Frame>,
    pub sender: sender::Outcome,
    pub receiver: receiver::Outcome,
}

// What a call answers.
#[derive(Clone, Copy)]
pub struct Answer {
    pub next: Ends,
    pub said: Said,
}
