// The lines that the player prints, written into a lent slice from a place on. Each function
// answers the place after what it wrote; bytes that find the slice full are left out. Lines are written here and not by `Display`:
// what is promised is document 01's text byte by byte, and there is no heap for a `String`. Slice and place go in and out as the
// promises name them; inside, they are one `Page`.
#![tactic(auto)]

mod lines;
mod number;
mod page;

ghost use Rattle.std.specs.Prelude.{◌≡◌, is_some};
ghost use Rattle.frame.specs.Frames.{frame_or_blank};
ghost use Rattle.receiver.specs.Told as receiver-told;
ghost use Rattle.sender.specs.Told as sender-told;
ghost use Rattle.text.specs.Page.{page, put};
ghost use Rattle.text.specs.Text.{
  emitted_text,
  sender_report,
  receiver_report,
  refused_text,
  has_sender_report,
  has_receiver_report,
};

pub use crate::lines::{RECEIVER, SENDER};
use crate::page::Page;
use frame::Frame;

// Each of these makes a page of what is lent, and answers its place: each promise names slice and place. The ends' outcomes are
// other types.
pub fn sender_report(number: u16, outcome: sender::Outcome, out: &mut [u8], at: usize) -> usize
    ensures { page out.new result
        ≡ put (page out.old at) (sender_report number (sender-told.told_outcome outcome)) }
{
    let mut page = Page {
        bytes: out,
        place: at,
    };
    page.sender_report(number, outcome);
    page.place
}

pub fn receiver_report(number: u16, outcome: receiver::Outcome, out: &mut [u8], at: usize) -> usize
    ensures { page out.new result
        ≡ put (page out.old at) (receiver_report number
        (receiver-told.told_outcome outcome) (receiver-told.told_bytes outcome)) }
{
    let mut page = Page {
        bytes: out,
        place: at,
    };
    page.receiver_report(number, outcome);
    page.place
}

// Whether there is a report to print.
pub fn has_sender_report(outcome: sender::Outcome) -> bool
    ensures { result ≡ has_sender_report (sender-told.told_outcome outcome) }
{
    matches!(
        outcome,
        sender::Outcome::Sent { .. } | sender::Outcome::Failed { .. }
    )
}

pub fn has_receiver_report(outcome: receiver::Outcome) -> bool
    ensures { result ≡ has_receiver_report (receiver-told.told_outcome outcome) }
{
    matches!(
        outcome,
        receiver::Outcome::Delivered(_) | receiver::Outcome::Failed(_) | receiver::Outcome::Short(_)
    )
}

// A refusal, by its number: any, as its promise says.
pub fn refused_line(number: u8, out: &mut [u8], at: usize) -> usize
    ensures { page out.new result ≡ put (page out.old at) (refused_text number) }
{
    let mut page = Page {
        bytes: out,
        place: at,
    };
    page.refused_line(number);
    page.place
}

// The line of the frame that the end of this letter emits, if it emits one. Of any letter: so its promise says.
pub fn emitted_line(
    number: u16,
    letter: u8,
    frame: Option<Frame>,
    out: &mut [u8],
    at: usize,
) -> usize
    ensures { page out.new result
        ≡ put (page out.old at) (emitted_text number letter (is_some frame) (frame_or_blank frame)) }
{
    let mut page = Page {
        bytes: out,
        place: at,
    };
    page.emitted_line(number, letter, frame);
    page.place
}
