// The lines: of a frame, and of each report.
ghost use Rattle.frame.specs.Frames.{frame_or_blank};
ghost use Rattle.receiver.specs.Told as receiver-told;
ghost use Rattle.sender.specs.Told as sender-told;
ghost use Rattle.std.specs.Prelude.{is_some};
ghost use Rattle.text.specs.Puts.{Puts};
ghost use Rattle.text.specs.Text.{
  head_of,
  frame_line,
  emitted_text,
  sent_line,
  failed_line,
  delivered_line,
  closed_line,
  short_line,
  sender_report,
  receiver_report,
  refused_text,
};

use crate::page::Page;
use frame::Frame;

const NEWLINE: u8 = b'\n';

// The letters of the ends, as they are printed; `emitted_line` promises a line of any letter.
pub const SENDER: u8 = b'S';

pub const RECEIVER: u8 = b'R';

impl Page<'_> {
    // How a line begins: the event's number and the end's letter, as `head_of` takes them.
    fn put_head(&mut self, number: u16, letter: u8)
        ensures { Puts self.old self.new (head_of number letter) }
    {
        self.put_digits(5, number);
        self.put_byte(b' ');
        self.put_byte(letter);
    }

    // The kind is printed by its number.
    fn frame_line(&mut self, number: u16, letter: u8, f: Frame)
        ensures { Puts self.old self.new (frame_line number letter f) }
    {
        self.put_head(number, letter);
        self.put_spaced(u16::from(f.kind));
        self.put_hexes(&f.bytes);
        self.put_byte(NEWLINE);
    }

    // Each line is written out: its word and its numbers are all that it has. A failure's cause is any number, as the promise says.
    fn sent_line(&mut self, number: u16, ticks: u16, frames: u16)
        ensures { Puts self.old self.new (sent_line number ticks frames) }
    {
        self.put_head(number, SENDER);
        self.put_text(b" sent");
        self.put_spaced(ticks);
        self.put_spaced(frames);
        self.put_byte(NEWLINE);
    }

    fn failed_line(&mut self, number: u16, cause: u8, ticks: u16, frames: u16)
        ensures { Puts self.old self.new (failed_line number cause ticks frames) }
    {
        self.put_head(number, SENDER);
        self.put_text(b" failed");
        self.put_spaced(u16::from(cause));
        self.put_spaced(ticks);
        self.put_spaced(frames);
        self.put_byte(NEWLINE);
    }

    fn delivered_line(&mut self, number: u16, length: u16)
        ensures { Puts self.old self.new (delivered_line number length) }
    {
        self.put_head(number, RECEIVER);
        self.put_text(b" delivered");
        self.put_spaced(length);
        self.put_byte(NEWLINE);
    }

    // The receiver's failure.
    fn closed_line(&mut self, number: u16, cause: u8)
        ensures { Puts self.old self.new (closed_line number cause) }
    {
        self.put_head(number, RECEIVER);
        self.put_text(b" failed");
        self.put_spaced(u16::from(cause));
        self.put_byte(NEWLINE);
    }

    fn short_line(&mut self, number: u16, bytes: [u8; 8])
        ensures { Puts self.old self.new (short_line number bytes) }
    {
        self.put_head(number, RECEIVER);
        self.put_text(b" short");
        self.put_hexes(&bytes);
        self.put_byte(NEWLINE);
    }

    // A refusal, by its number.
    pub(crate) fn refused_line(&mut self, number: u8)
        ensures { Puts self.old self.new (refused_text number) }
    {
        self.put_text(b"refused");
        self.put_spaced(u16::from(number));
        self.put_byte(NEWLINE);
    }

    // The line of the frame that the end of this letter emits, if it emits one.
    pub(crate) fn emitted_line(&mut self, number: u16, letter: u8, frame: Option<Frame>)
        ensures { Puts self.old self.new
            (emitted_text number letter (is_some frame) (frame_or_blank frame)) }
    {
        if let Some(f) = frame {
            self.frame_line(number, letter, f);
        }
    }

    pub(crate) fn sender_report(&mut self, number: u16, outcome: sender::Outcome)
        ensures { Puts self.old self.new
            (sender_report number (sender-told.told_outcome outcome)) }
    {
        match outcome {
            sender::Outcome::Quiet => {}
            sender::Outcome::Refused(_) => {}
            sender::Outcome::Sent { ticks, frames } => self.sent_line(number, ticks, frames),
            sender::Outcome::Failed {
                cause,
                ticks,
                frames,
            } => self.failed_line(number, cause, ticks, frames),
        }
    }

    pub(crate) fn receiver_report(&mut self, number: u16, outcome: receiver::Outcome)
        ensures { Puts self.old self.new
            (receiver_report number
            (receiver-told.told_outcome outcome) (receiver-told.told_bytes outcome)) }
    {
        match outcome {
            receiver::Outcome::Quiet => {}
            receiver::Outcome::Refused(_) => {}
            receiver::Outcome::Delivered(length) => self.delivered_line(number, length),
            receiver::Outcome::Failed(cause) => self.closed_line(number, cause),
            receiver::Outcome::Short(bytes) => self.short_line(number, bytes),
        }
    }
}
