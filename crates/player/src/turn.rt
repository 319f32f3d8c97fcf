// One event: the transport is called, and what it answers is printed. An event is the pack's byte, an end's letter the byte that
// is printed: the definitions have a case for each byte and take any letter.
ghost use Rattle.std.specs.Prelude.{◌≡◌};
ghost use Rattle.player.specs.Session.{Goes, world_in, page_in, at_ends};
ghost use Rattle.player.specs.State.{turned, turn_of, said_text, says};
ghost use Rattle.text.specs.Page.{page, put};

use line::LINE;
use text::{RECEIVER, SENDER};
use transport::{Answer, Ends, Said};

// The ends between two events, what is lent to the events, and the place where the next line is
// printed.
#[derive(Drop)]
pub(crate) struct Session<'a> {
    pub(crate) ends: Ends,
    pub(crate) message: &'a [u8],
    pub(crate) buffer: &'a mut [u8],
    pub(crate) forward: &'a mut [u8; LINE],
    pub(crate) back: &'a mut [u8; LINE],
    pub(crate) out: &'a mut [u8],
    pub(crate) at: usize,
}

// Whether there is anything to print of an answer. Asked in each arm of the match below, so that a
// call which is known to say nothing, as one on an empty line is, is done at once.
fn says(a: Answer) -> bool
    ensures { result ≡ says a.said }
{
    let said = a.said;
    said.frame.is_some()
        || text::has_sender_report(said.sender)
        || text::has_receiver_report(said.receiver)
}

// What is printed of an answer: the frame's line, then the reports.
// The page and its place go apart: a begin has no session, as it is lent no line back and no buffer.
#[tactic(auto, using(crate::proofs::Turns::lines_put))]
pub(crate) fn lines(said: Said, letter: u8, number: u16, out: &mut [u8], at: usize) -> usize
    ensures { page out.new result
        ≡ put (page out.old at) (said_text number letter said) }
{
    let first = text::emitted_line(number, letter, said.frame, out, at);
    let second = text::sender_report(number, said.sender, out, first);
    text::receiver_report(number, said.receiver, out, second)
}

impl Session<'_> {
    // An answer is printed under a letter and a number; most have nothing to print.
    fn show(&mut self, a: Answer, letter: u8, number: u16)
        ensures { Goes self.old self.new
            (turned (at_ends self.old a.next)
            (put (page_in self.old) (said_text number letter a.said))) }
    {
        self.ends = a.next;
        if says(a) {
            self.at = lines(a.said, letter, number, self.out, self.at);
        }
    }

    // An event by its number, as document 01 has it under The player: `call_for` of the
    // definitions. The letter is that of the end that is called. Where two lines are lent, one is
    // borrowed by a `let` of its own: borrowed in the call itself they have no proof.
    pub(crate) fn turn(&mut self, event: u8, number: u16)
        ensures { Goes self.old self.new
            (turn_of (world_in self.old) self.old.message.now event number (page_in self.old)) }
    {
        let ends = self.ends;
        match event {
            1 => {
                let a = ends.tick_sender(self.message, self.forward);
                self.show(a, SENDER, number)
            }
            2 => {
                let a = ends.tick_receiver(self.back);
                self.show(a, RECEIVER, number)
            }
            3 | 5 => {
                let back = &mut *self.back;
                let a = ends.hear_forward(event == 3, self.buffer, self.forward, back);
                self.show(a, RECEIVER, number)
            }
            4 => self.show(ends.lose_forward(), RECEIVER, number),
            7 => self.show(ends.lose_back(), SENDER, number),
            _ => {
                let forward = &mut *self.forward;
                let a = ends.hear_back(event == 6, forward, self.back);
                self.show(a, SENDER, number)
            }
        }
    }
}
