// The sending end: its settings, its state and its answers. State goes in and out by value.
#![tactic(auto)]

mod ack;
mod begin;
mod close;
mod end;
mod hear;
mod make;
mod nack;
mod opening;
mod sending;
mod short;
mod silent;
mod steps;
mod tick;
mod waiting;

use frame::Frame;

// Gap G, timeout T and sending time M, in ticks.
#[derive(Clone, Copy)]
pub struct Settings {
    pub gap: u16,
    pub timeout: u16,
    pub limit: u16,
}

// What is known of the message that was begun (L, N and its first byte), and what has been counted
// since: the ticks (age) and the frames emitted. Its length and not the message: that is lent anew at each tick.
#[derive(Clone, Copy)]
pub struct Transfer {
    pub length: u16,
    pub frames: u8,
    pub first: u8,
    pub age: u16,
    pub emitted: u16,
}

// Opening: the announcement is out, and no LM_ACK has been taken.
#[derive(Clone, Copy)]
pub struct Announced {
    pub transfer: Transfer,
    pub wait: u16,
    pub misses: u16,
}

// Sending: the frames from next to last of the window are to go out; start is the last start taken.
#[derive(Clone, Copy)]
pub struct Streamed {
    pub transfer: Transfer,
    pub start: u8,
    pub next: u8,
    pub last: u8,
    pub gap: u16,
    pub misses: u16,
}

// Waiting: the window has gone out; its last frame goes again at a timeout.
#[derive(Clone, Copy)]
pub struct Awaited {
    pub transfer: Transfer,
    pub start: u8,
    pub last: u8,
    pub wait: u16,
    pub misses: u16,
}

// Short: SM_RM is out, and no SM_ACK has come.
#[derive(Clone, Copy)]
pub struct Single {
    pub transfer: Transfer,
    pub wait: u16,
}

#[derive(Clone, Copy)]
pub enum Phase {
    Idle,
    Opening(Announced),
    Sending(Streamed),
    Waiting(Awaited),
    Short(Single),
}

#[derive(Clone, Copy)]
pub struct Sender {
    pub settings: Settings,
    pub phase: Phase,
}

// What a call reports: nothing, a refusal by its number, or how the transfer finished, a failure by its cause's number. Any
// number: `refusing` and the player's lines take each. A refusal is a case here and no Err: the answer hands the state back too.
#[derive(Clone, Copy)]
pub enum Outcome {
    Quiet,
    Refused(u8),
    Sent { ticks: u16, frames: u16 },
    Failed { cause: u8, ticks: u16, frames: u16 },
}

// What a call answers: the next state, the frame that goes out, if one does, and the report.
#[derive(Clone, Copy)]
pub struct Answer {
    pub next: Sender,
    pub frame: Option<Frame>,
    pub outcome: Outcome,
}
