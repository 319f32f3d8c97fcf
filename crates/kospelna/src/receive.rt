// The receiver over C's layouts: each call reads the flat receiver, calls the receiver and writes
// its answer. One function for each that C calls.
ghost use Rattle.std.specs.Prelude.{◌≡◌};
ghost use Rattle.frame.specs.Result.{told_result};
ghost use Rattle.kospelna.specs.Frames.{frame_from};
ghost use Rattle.kospelna.specs.Receive.{
  misses_from,
  connection_from,
  phase_from,
  receiver_from,
  flat_of,
  remembering,
  flat_receiver,
  flat_outcome,
  flat_answer,
  flat_made,
  hearing,
  flat_heard,
};
ghost use Rattle.receiver.specs.Hear.{hear_of};
ghost use Rattle.receiver.specs.Hold.{hold_of, resume_of};
ghost use Rattle.receiver.specs.Make.{make_of};
ghost use Rattle.receiver.specs.Tick.{tick_of};
ghost use Rattle.receiver.specs.Told.{told_outcome, told_bytes, told};

use crate::answers::refusal_and_value;
use crate::frames::FlatFrame;
use frame::{Frame, Refusal};
use receiver::{Answer, Connection, Delivery, Misses, Outcome, Phase, Receiver, Settings};

// These structs are the C interface: a refusal's number beside a value, a flag beside what goes out and numbers for cases are
// C's forms of Result, Option and enum.

// A receiver: timeout T, capacity K and window C; the phase's number (0 Idle, 1 Idle with a delivery
// remembered, 2 Open; any other is read as Idle); L and N; the frame expected, the window's last,
// the number of its misses (0, 1, 2 of them after an LM_ACK; 3, 4: none, one after a frame; any other
// is read as 0) and wait; whether the transfer is held, and the timeouts while it was. What a phase
// has not is written as 0, the mark as false, and not read. In this order it has 16 bytes, so that C
// passes it in registers.
#[repr(C)]
#[derive(Clone, Copy, Default)]
pub struct FlatReceiver {
    pub timeout: u16,
    pub capacity: u16,
    pub window: u8,
    pub phase: u8,
    pub length: u16,
    pub frames: u8,
    pub expected: u8,
    pub last: u8,
    pub misses: u8,
    pub wait: u16,
    pub held: bool,
    pub holds: u8,
}

// What making answers: the refusal's number, 0 where there is none, and the receiver, zeros where
// refused.
#[repr(C)]
#[derive(Clone, Copy)]
pub struct FlatReceiverMade {
    pub refusal: u8,
    pub receiver: FlatReceiver,
}

// What a call answers: the next state; whether a frame goes out, and which (zeros where none does);
// the outcome's number (0 quiet, 1 refused, 2 delivered, 3 failed, 4 short); the refusal's number;
// a failure's cause; the delivered length; the bytes of a short delivery. What an outcome has not
// is 0.
#[repr(C)]
#[derive(Clone, Copy)]
pub struct FlatReceiverAnswer {
    pub next: FlatReceiver,
    pub emits: bool,
    pub frame: FlatFrame,
    pub outcome: u8,
    pub refusal: u8,
    pub cause: u8,
    pub length: u16,
    pub bytes: [u8; 8],
}

// An outcome's numbers in C's form; `flat_outcome` of the definitions answers it.
#[derive(Clone, Copy, Default)]
pub(crate) struct Report {
    pub outcome: u8,
    pub refusal: u8,
    pub cause: u8,
    pub length: u16,
}

// A function, not From: neither type is this crate's.
#[tactic(auto, unfolding(frame::specs::Choice::pick))]
fn misses_from(number: u8) -> Misses
    ensures { result ≡ misses_from number }
{
    match number {
        1 => Misses::OneAfterAck,
        2 => Misses::TwoAfterAck,
        3 => Misses::NoneAfterFrame,
        4 => Misses::OneAfterFrame,
        _ => Misses::NoneAfterAck,
    }
}

impl From<FlatReceiver> for Connection {
    ghost from_gives = { λ flat connection. connection ≡ connection_from flat };

    fn from(r: FlatReceiver) -> Connection {
        Connection {
            frames: r.frames,
            length: r.length,
            expected: r.expected,
            last: r.last,
            wait: r.wait,
            misses: misses_from(r.misses),
            held: r.held,
            holds: r.holds,
        }
    }
}

// By the phase's number; an unknown one is Idle.
impl From<FlatReceiver> for Phase {
    ghost from_gives = { λ flat phase. phase ≡ phase_from flat };

    #[tactic(auto, unfolding(frame::specs::Choice::pick))]
    fn from(r: FlatReceiver) -> Phase {
        match r.phase {
            1 => Phase::Done(Delivery {
                frames: r.frames,
                length: r.length,
            }),
            2 => Phase::Open(r.into()),
            _ => Phase::Idle,
        }
    }
}

impl From<FlatReceiver> for Receiver {
    ghost from_gives = { λ flat receiver. receiver ≡ receiver_from flat };

    fn from(r: FlatReceiver) -> Receiver {
        Receiver {
            settings: Settings {
                timeout: r.timeout,
                window: r.window,
                capacity: r.capacity,
            },
            phase: r.into(),
        }
    }
}

// C's layout of every phase, by its number and field by field: `flat_of` of the definitions.
fn flat(settings: Settings, phase: u8, x: Connection) -> FlatReceiver
    ensures { result ≡ flat_of settings phase x }
{
    FlatReceiver {
        timeout: settings.timeout,
        window: settings.window,
        capacity: settings.capacity,
        phase,
        frames: x.frames,
        length: x.length,
        expected: x.expected,
        last: x.last,
        wait: x.wait,
        misses: x.misses as u8,
        held: x.held,
        holds: x.holds,
    }
}

// Of a delivery N and L alone are known: `remembering` of the definitions.
fn remembering(frames: u8, length: u16) -> Connection
    ensures { result ≡ remembering frames length }
{
    Connection {
        frames,
        length,
        expected: 0,
        last: 0,
        wait: 0,
        misses: Misses::NoneAfterAck,
        held: false,
        holds: 0,
    }
}

impl From<Receiver> for FlatReceiver {
    ghost from_gives = { λ receiver flat. flat ≡ flat_receiver receiver };

    fn from(r: Receiver) -> FlatReceiver {
        let settings = r.settings;
        match r.phase {
            Phase::Idle => flat(settings, 0, remembering(0, 0)),
            Phase::Done(x) => flat(settings, 1, remembering(x.frames, x.length)),
            Phase::Open(x) => flat(settings, 2, x),
        }
    }
}

impl From<Outcome> for Report {
    ghost from_gives = { λ outcome report. report ≡ flat_outcome (told_outcome outcome) };

    fn from(outcome: Outcome) -> Report {
        let none = Report::default();
        match outcome {
            Outcome::Quiet => none,
            Outcome::Refused(number) => Report {
                outcome: 1,
                refusal: number,
                ..none
            },
            Outcome::Delivered(length) => Report {
                outcome: 2,
                length,
                ..none
            },
            Outcome::Failed(cause) => Report {
                outcome: 3,
                cause,
                ..none
            },
            Outcome::Short(_) => Report { outcome: 4, ..none },
        }
    }
}

// The bytes of a short delivery, zeros where there is none.
fn bytes_of(outcome: Outcome) -> [u8; 8]
    ensures { result ≡ told_bytes outcome }
{
    match outcome {
        Outcome::Short(bytes) => bytes,
        _ => [0; 8],
    }
}

impl From<Answer> for FlatReceiverAnswer {
    ghost from_gives = { λ answer flat. flat ≡ flat_answer (told answer) };

    fn from(a: Answer) -> FlatReceiverAnswer {
        let report = Report::from(a.outcome);
        let bytes = bytes_of(a.outcome);
        FlatReceiverAnswer {
            next: a.next.into(),
            emits: a.frame.is_some(),
            frame: a.frame.into(),
            outcome: report.outcome,
            refusal: report.refusal,
            cause: report.cause,
            length: report.length,
            bytes,
        }
    }
}

impl From<Result<Receiver, Refusal>> for FlatReceiverMade {
    ghost from_gives = { λ made flat. flat ≡ flat_made (told_result made) };

    fn from(made: Result<Receiver, Refusal>) -> FlatReceiverMade {
        let (refusal, receiver) = refusal_and_value(made);
        FlatReceiverMade { refusal, receiver }
    }
}

// An idle receiver with these settings, nothing delivered.
pub fn kospelna_receiver_make(timeout: u16, window: u16, capacity: u16) -> FlatReceiverMade
    ensures { result ≡ flat_made (make_of timeout window capacity) }
{
    Receiver::make(timeout, window, capacity).into()
}

// A tick.
pub fn kospelna_receiver_tick(receiver: FlatReceiver) -> FlatReceiverAnswer
    ensures { result ≡ flat_answer (tick_of (receiver_from receiver)) }
{
    Receiver::from(receiver).tick().into()
}

// The transfer is held.
pub fn kospelna_receiver_hold(receiver: FlatReceiver) -> FlatReceiverAnswer
    ensures { result ≡ flat_answer (hold_of (receiver_from receiver)) }
{
    Receiver::from(receiver).hold().into()
}

// The hold ends.
pub fn kospelna_receiver_resume(receiver: FlatReceiver) -> FlatReceiverAnswer
    ensures { result ≡ flat_answer (resume_of (receiver_from receiver)) }
{
    Receiver::from(receiver).resume().into()
}

// A frame is heard, with the buffer lent.
pub fn kospelna_receiver_hear(
    receiver: FlatReceiver,
    frame: FlatFrame,
    buffer: &mut [u8],
) -> FlatReceiverAnswer
    ensures { hearing result buffer.new
        ≡ flat_heard (hear_of (receiver_from receiver) (frame_from frame) buffer.old) }
{
    Receiver::from(receiver).hear(frame.into(), buffer).into()
}
