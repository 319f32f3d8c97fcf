// Frames from number 1 on: the message, seven bytes each. A frame, what was read of it and the buffer go together as the
// definitions take them; what is asked of the frame expected stands in two functions, for which no type would be plainer.
ghost use Rattle.std.specs.Prelude.{◌≡◌, ◌≤◌, drop};
ghost use Rattle.receiver.specs.Hear.{
  ending,
  stored,
  is_unclean,
  information_expected,
  information_open,
  ending_again,
  information_done,
  hear_information,
};
ghost use Rattle.receiver.specs.Told.{told, heard};

use crate::store::storing;
use crate::{Answer, Buffer, Connection, Delivery, Misses, Phase, Receiver};
use frame::build::end_of_ack;
use frame::{Cause, Frame, Parsed, Refusal};

impl Connection {
    // The message's last frame, with something else than filler behind the message.
    fn is_unclean(self, parsed: Parsed) -> bool
        ensures { result ≡ is_unclean self parsed }
    {
        (parsed.number == self.frames) & !parsed.clean
    }
}

impl Receiver {
    // The message is whole.
    fn ending(self, x: Connection) -> Answer
        ensures { told result ≡ ending self x }
    {
        self.in_phase(Phase::Done(Delivery {
            frames: x.frames,
            length: x.length,
        }))
        .delivering(end_of_ack(x.frames, x.length), x.length)
    }

    // The frame expected is in the buffer. Where it is the window's last, the next window is asked for, and the wait is one after
    // its LM_ACK; else the next frame is expected, and the wait is one after this frame.
    #[tactic(auto, unfolding(crate::specs::Hear::stored, frame::specs::Choice::pick))]
    fn stored(self, x: Connection) -> Answer
        requires { x.expected ≤ x.frames }
        ensures { told result ≡ stored self x }
    {
        if x.expected == x.frames {
            return self.ending(x);
        }
        if x.expected == x.last {
            self.asking(x, x.expected + 1, Misses::NoneAfterAck)
        } else {
            let next = Connection {
                expected: x.expected + 1,
                wait: 0,
                misses: Misses::NoneAfterFrame,
                ..x
            };
            self.in_phase(Phase::Open(next)).silently()
        }
    }

    // The frame expected: refused 14 where it is the message's last and unclean, else stored.
    #[tactic(auto, unfolding(crate::specs::Hear::information_expected, frame::specs::Choice::pick))]
    fn information_expected(
        self,
        x: Connection,
        f: Frame,
        parsed: Parsed,
        buffer: &mut Buffer,
    ) -> Answer
        requires { x.expected ≤ x.frames }
        ensures { heard (told result) buffer.new
            ≡ information_expected self x parsed (drop 1 f.bytes) buffer.old }
    {
        if x.is_unclean(parsed) {
            return self.refusing(Refusal::Unclean);
        }
        storing(f, parsed.number, x.length, buffer);
        self.stored(x)
    }

    // Above N the connection fails; the frame expected is taken or refused; any other is ignored.
    #[tactic(auto, unfolding(crate::specs::Hear::information_open, frame::specs::Choice::pick))]
    fn information_open(
        self,
        x: Connection,
        f: Frame,
        parsed: Parsed,
        buffer: &mut Buffer,
    ) -> Answer
        ensures { heard (told result) buffer.new
            ≡ information_open self x parsed (drop 1 f.bytes) buffer.old }
    {
        if x.frames < parsed.number {
            return self.failing_with(Cause::Number);
        }
        if parsed.number == x.expected {
            return self.information_expected(x, f, parsed, buffer);
        }
        self.silently()
    }

    fn ending_again(self, x: Delivery) -> Answer
        ensures { told result ≡ ending_again self x }
    {
        self.emitting(end_of_ack(x.frames, x.length))
    }

    // The last frame of what was delivered is acknowledged again.
    #[tactic(auto, unfolding(crate::specs::Hear::information_done, frame::specs::Choice::pick))]
    fn information_done(self, x: Delivery, number: u8) -> Answer
        ensures { told result ≡ information_done self x number }
    {
        if number == x.frames {
            self.ending_again(x)
        } else {
            self.silently()
        }
    }

    #[tactic(auto, unfolding(crate::specs::Hear::hear_information))]
    pub(crate) fn hear_information(self, f: Frame, parsed: Parsed, buffer: &mut Buffer) -> Answer
        ensures { heard (told result) buffer.new
            ≡ hear_information self self.phase parsed (drop 1 f.bytes) buffer.old }
    {
        match self.phase {
            Phase::Idle => self.silently(),
            Phase::Done(x) => self.information_done(x, parsed.number),
            Phase::Open(x) => self.information_open(x, f, parsed, buffer),
        }
    }
}
