// A hearing: by the length of the buffer, by the reading of the frame, by its kind. A frame, what was read of it and the buffer
// go together as the definitions take them.
ghost use Rattle.std.specs.Prelude.{◌≡◌};
ghost use Rattle.receiver.specs.Hear.{hear_nack, hear_numbered, is_held, hear_unless_held, hear_kind, awaited, hear_of};
ghost use Rattle.receiver.specs.Told.{told, heard};

use crate::{Answer, Buffer, Connection, Delivery, Phase, Receiver};
use frame::build::sm_ack;
use frame::count::word;
use frame::read::read;
use frame::{Cause, Frame, LONGEST, Parsed, Refusal};

impl Receiver {
    // LM_NACK closes an open connection.
    #[tactic(auto, unfolding(crate::specs::Hear::hear_nack))]
    fn hear_nack(self) -> Answer
        ensures { told result ≡ hear_nack self self.phase }
    {
        match self.phase {
            Phase::Idle | Phase::Done(_) => self.silently(),
            Phase::Open(_) => self.failing(Cause::NoSpace),
        }
    }

    // Number 0 announces, a number from 1 carries message bytes.
    #[tactic(auto, unfolding(crate::specs::Hear::hear_numbered, frame::specs::Choice::pick))]
    fn hear_numbered(self, f: Frame, parsed: Parsed, buffer: &mut Buffer) -> Answer
        ensures { heard (told result) buffer.new
            ≡ hear_numbered self f parsed buffer.old }
    {
        let bytes = f.bytes;
        if parsed.number == 0 {
            self.hear_announcement(Delivery {
                frames: bytes[1],
                length: word(bytes[2], bytes[3]),
            })
        } else {
            self.hear_information(f, parsed, buffer)
        }
    }

    // A hold stands.
    fn is_held(self) -> bool
        ensures { result ≡ is_held self.phase }
    {
        matches!(self.phase, Phase::Open(Connection { held: true, .. }))
    }

    // While held every information frame is ignored.
    #[tactic(auto, unfolding(crate::specs::Hear::hear_unless_held, frame::specs::Choice::pick))]
    fn hear_unless_held(self, f: Frame, parsed: Parsed, buffer: &mut Buffer) -> Answer
        ensures { heard (told result) buffer.new
            ≡ hear_unless_held self f parsed buffer.old }
    {
        if self.is_held() {
            return self.silently();
        }
        self.hear_numbered(f, parsed, buffer)
    }

    // A frame that was read, by its kind. Refused 7 where the kind is for the other end. The match on the number is document
    // 01's.
    #[tactic(auto, unfolding(crate::specs::Hear::hear_kind, frame::specs::Choice::pick))]
    fn hear_kind(self, f: Frame, parsed: Parsed, buffer: &mut Buffer) -> Answer
        ensures { heard (told result) buffer.new
            ≡ hear_kind self f parsed buffer.old }
    {
        match parsed.kind {
            1 => self.hear_unless_held(f, parsed, buffer),
            3 => self.hear_nack(),
            5 => self.short_with(sm_ack(f.bytes[0]), f.bytes),
            7 => self.short_only(f.bytes),
            0 | 2 | 4 | 6 | 8..=255 => self.refusing(Refusal::OtherEnd),
        }
    }

    // The length of the message that is awaited.
    fn awaited(self) -> u16
        ensures { result ≡ awaited self.phase }
    {
        match self.phase {
            Phase::Idle | Phase::Done(_) => LONGEST,
            Phase::Open(x) => x.length,
        }
    }

    // A frame that is heard, with the buffer lent. Refused 5 for the buffer's length, then 6 where it cannot be read. (`let ..
    // else` is document 01's form, and reading refuses for nothing else.)
    #[tactic(auto, unfolding(crate::specs::Hear::hear_of, crate::specs::Hear::hear_read, frame::specs::Choice::pick))]
    pub fn hear(self, f: Frame, buffer: &mut [u8]) -> Answer
        ensures { heard (told result) buffer.new ≡ hear_of self f buffer.old }
    {
        let Some(buffer) = buffer.as_mut_array() else {
            return self.refusing(Refusal::Lent);
        };
        let reading = read(f, self.awaited());
        let Ok(parsed) = reading else {
            return self.refusing(Refusal::Unreadable);
        };
        self.hear_kind(f, parsed, buffer)
    }
}
