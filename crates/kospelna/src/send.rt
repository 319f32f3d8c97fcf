// The sender over C's layouts: each call reads the flat sender, calls the sender and writes its
// answer. One function for each that C calls.
ghost use Rattle.std.specs.Prelude.{◌≡◌};
ghost use Rattle.frame.specs.Result.{told_result};
ghost use Rattle.kospelna.specs.Frames.{frame_from};
ghost use Rattle.kospelna.specs.Send.{
  transfer_from,
  phase_from,
  sender_from,
  flat_of,
  no_transfer,
  flat_sender,
  flat_outcome,
  flat_answer,
  flat_made,
};
ghost use Rattle.sender.specs.Begin.{begin_of, post_of};
ghost use Rattle.sender.specs.Hear.{hear_of};
ghost use Rattle.sender.specs.Make.{make_of};
ghost use Rattle.sender.specs.Tick.{tick_of};
ghost use Rattle.sender.specs.Told.{told_outcome, told};

use crate::answers::refusal_and_value;
use crate::frames::FlatFrame;
use frame::build::blank;
use frame::{Frame, Refusal};
use sender::{
    Announced, Answer, Awaited, Outcome, Phase, Sender, Settings, Single, Streamed, Transfer,
};

// These structs are the C interface: a refusal's number beside a value, a flag beside what goes out and numbers for cases are
// C's forms of Result, Option and enum.

// A sender: gap G, timeout T and sending time M; the phase's number (0 Idle, 1 Opening, 2 Sending,
// 3 Waiting, 4 Short; any other is read as Idle); L, N and the message's first byte; the ticks and
// the frames emitted since begin; wait and misses; the last start taken, the number of the frame
// due, the window's last, and the gap count. What a phase has not is written as 0 and not read.
#[repr(C)]
#[derive(Clone, Copy, Default)]
pub struct FlatSender {
    pub gap: u16,
    pub timeout: u16,
    pub limit: u16,
    pub phase: u8,
    pub length: u16,
    pub frames: u8,
    pub first: u8,
    pub age: u16,
    pub emitted: u16,
    pub wait: u16,
    pub misses: u16,
    pub start: u8,
    pub due: u8,
    pub last: u8,
    pub count: u16,
}

// What making answers: the refusal's number, 0 where there is none, and the sender, zeros where
// refused.
#[repr(C)]
#[derive(Clone, Copy)]
pub struct FlatSenderMade {
    pub refusal: u8,
    pub sender: FlatSender,
}

// What a call answers: the next state; whether a frame goes out, and which (zeros where none does);
// the outcome's number (0 quiet, 1 refused, 3 failed, 5 sent); the refusal's number; a failure's
// cause; a report's ticks and frames. What an outcome has not is 0.
#[repr(C)]
#[derive(Clone, Copy)]
pub struct FlatSenderAnswer {
    pub next: FlatSender,
    pub emits: bool,
    pub frame: FlatFrame,
    pub outcome: u8,
    pub refusal: u8,
    pub cause: u8,
    pub ticks: u16,
    pub frames: u16,
}

// A window of frames that is being sent, with the gap count.
#[derive(Clone, Copy, Default)]
pub(crate) struct Window {
    pub start: u8,
    pub due: u8,
    pub last: u8,
    pub count: u16,
}

// An outcome's numbers in C's form; `flat_outcome` of the definitions answers it.
#[derive(Clone, Copy, Default)]
pub(crate) struct Report {
    pub outcome: u8,
    pub refusal: u8,
    pub cause: u8,
    pub ticks: u16,
    pub frames: u16,
}

impl From<FlatSender> for Transfer {
    ghost from_gives = { λ flat transfer. transfer ≡ transfer_from flat };

    fn from(s: FlatSender) -> Transfer {
        Transfer {
            length: s.length,
            frames: s.frames,
            first: s.first,
            age: s.age,
            emitted: s.emitted,
        }
    }
}

// By the phase's number; an unknown one is Idle.
impl From<FlatSender> for Phase {
    ghost from_gives = { λ flat phase. phase ≡ phase_from flat };

    #[tactic(auto, unfolding(frame::specs::Choice::pick))]
    fn from(s: FlatSender) -> Phase {
        let transfer = Transfer::from(s);
        match s.phase {
            1 => Phase::Opening(Announced {
                transfer,
                wait: s.wait,
                misses: s.misses,
            }),
            2 => Phase::Sending(Streamed {
                transfer,
                start: s.start,
                next: s.due,
                last: s.last,
                gap: s.count,
                misses: s.misses,
            }),
            3 => Phase::Waiting(Awaited {
                transfer,
                start: s.start,
                last: s.last,
                wait: s.wait,
                misses: s.misses,
            }),
            4 => Phase::Short(Single {
                transfer,
                wait: s.wait,
            }),
            _ => Phase::Idle,
        }
    }
}

impl From<FlatSender> for Sender {
    ghost from_gives = { λ flat sender. sender ≡ sender_from flat };

    fn from(s: FlatSender) -> Sender {
        Sender {
            settings: Settings {
                gap: s.gap,
                timeout: s.timeout,
                limit: s.limit,
            },
            phase: Phase::from(s),
        }
    }
}

// C's layout of every phase, by its number and field by field: `flat_of` of the definitions.
fn flat(settings: Settings, phase: u8, t: Transfer, w: Window, wait: u16, misses: u16) -> FlatSender
    ensures { result ≡ flat_of settings phase t w wait misses }
{
    FlatSender {
        gap: settings.gap,
        timeout: settings.timeout,
        limit: settings.limit,
        phase,
        length: t.length,
        frames: t.frames,
        first: t.first,
        age: t.age,
        emitted: t.emitted,
        wait,
        misses,
        start: w.start,
        due: w.due,
        last: w.last,
        count: w.count,
    }
}

// Where a phase has no transfer: `no_transfer` of the definitions.
fn no_transfer() -> Transfer
    ensures { result ≡ no_transfer }
{
    Transfer {
        length: 0,
        frames: 0,
        first: 0,
        age: 0,
        emitted: 0,
    }
}

impl From<Sender> for FlatSender {
    ghost from_gives = { λ sender flat. flat ≡ flat_sender sender };

    fn from(s: Sender) -> FlatSender {
        let settings = s.settings;
        let none = Window::default();
        match s.phase {
            Phase::Idle => flat(settings, 0, no_transfer(), none, 0, 0),
            Phase::Opening(x) => flat(settings, 1, x.transfer, none, x.wait, x.misses),
            Phase::Sending(x) => {
                let sent = Window {
                    start: x.start,
                    due: x.next,
                    last: x.last,
                    count: x.gap,
                };
                flat(settings, 2, x.transfer, sent, 0, x.misses)
            }
            Phase::Waiting(x) => {
                let sent = Window {
                    start: x.start,
                    last: x.last,
                    ..none
                };
                flat(settings, 3, x.transfer, sent, x.wait, x.misses)
            }
            Phase::Short(x) => flat(settings, 4, x.transfer, none, x.wait, 0),
        }
    }
}

impl From<Outcome> for Report {
    ghost from_gives = { λ outcome report. report ≡ flat_outcome (told_outcome outcome) };

    fn from(outcome: Outcome) -> Report {
        let none = Report::default();
        match outcome {
            Outcome::Quiet => none,
            Outcome::Refused(number) => Report {
                outcome: 1,
                refusal: number,
                ..none
            },
            Outcome::Sent { ticks, frames } => Report {
                outcome: 5,
                ticks,
                frames,
                ..none
            },
            Outcome::Failed {
                cause,
                ticks,
                frames,
            } => Report {
                outcome: 3,
                cause,
                ticks,
                frames,
                ..none
            },
        }
    }
}

// What a call answers, part by part, and any of each: a frame is written where none goes out too.
pub fn write_answer(next: Sender, emits: bool, frame: Frame, outcome: Outcome) -> FlatSenderAnswer
    ensures { result
        ≡ flat_answer (record { next = next; emits = emits; frame = frame; outcome = told_outcome outcome }) }
{
    let report = Report::from(outcome);
    FlatSenderAnswer {
        next: next.into(),
        emits,
        frame: frame.into(),
        outcome: report.outcome,
        refusal: report.refusal,
        cause: report.cause,
        ticks: report.ticks,
        frames: report.frames,
    }
}

impl From<Answer> for FlatSenderAnswer {
    ghost from_gives = { λ answer flat. flat ≡ flat_answer (told answer) };

    fn from(a: Answer) -> FlatSenderAnswer {
        write_answer(
            a.next,
            a.frame.is_some(),
            a.frame.unwrap_or(blank()),
            a.outcome,
        )
    }
}

impl From<Result<Sender, Refusal>> for FlatSenderMade {
    ghost from_gives = { λ made flat. flat ≡ flat_made (told_result made) };

    fn from(made: Result<Sender, Refusal>) -> FlatSenderMade {
        let (refusal, sender) = refusal_and_value(made);
        FlatSenderMade { refusal, sender }
    }
}

// An idle sender with these settings.
pub fn kospelna_sender_make(gap: u16, timeout: u16, limit: u16) -> FlatSenderMade
    ensures { result ≡ flat_made (make_of gap timeout limit) }
{
    Sender::make(gap, timeout, limit).into()
}

// Begins a transfer of the lent message.
pub fn kospelna_sender_begin(sender: FlatSender, message: &[u8]) -> FlatSenderAnswer
    ensures { result ≡ flat_answer (begin_of (sender_from sender) message.now) }
{
    Sender::from(sender).begin(message).into()
}

// Emits the lent message as one SM_URM.
pub fn kospelna_sender_post(sender: FlatSender, message: &[u8]) -> FlatSenderAnswer
    ensures { result ≡ flat_answer (post_of (sender_from sender) message.now) }
{
    Sender::from(sender).post(message).into()
}

// A tick, lent the message that was begun.
pub fn kospelna_sender_tick(sender: FlatSender, message: &[u8]) -> FlatSenderAnswer
    ensures { result ≡ flat_answer (tick_of (sender_from sender) message.now) }
{
    Sender::from(sender).tick(message).into()
}

// A frame is heard.
pub fn kospelna_sender_hear(sender: FlatSender, frame: FlatFrame) -> FlatSenderAnswer
    ensures { result ≡ flat_answer (hear_of (sender_from sender) (frame_from frame)) }
{
    Sender::from(sender).hear(frame.into()).into()
}
