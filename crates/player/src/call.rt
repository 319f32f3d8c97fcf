// The player's calls: each writes what it prints into the lent page.
ghost use Rattle.std.specs.Prelude.{◌≡◌, List, ℕ, ◌+◌, ◌≤◌, ◌-◌, min};
ghost use Rattle.player.specs.Calls.{told_progress, begin_of, play_of, is_finished};

use crate::parts::{message_in, part};
use crate::turn::{Session, lines};
use crate::{Player, Progress};
use line::LINE;
use pack::{Bodies, MESSAGE};
use text::SENDER;
use transport::Ends;

// How long a lent page is.
pub const PAGE: usize = 16384;

// How many events are played in a call, of those whose numbers fit.
fn most(played: u16) -> usize
    ensures { (result ≤ 128) × (played + result ≤ 65535) × (result ≡ min 128 (65535 - played)) }
{
    usize::from((65535 - played).min(128))
}

// Where the next event stands in the pack.
fn next_event(bodies: Bodies, played: u16) -> usize
    ensures { result ≡ 23 + bodies.message + played }
{
    MESSAGE + usize::from(bodies.message) + usize::from(played)
}

impl Player {
    // Nothing happens, and nothing is printed.
    fn unchanged(self) -> Progress
        ensures { (result.player ≡ self) × (result.written ≡ 0) }
    {
        Progress {
            player: self,
            written: 0,
        }
    }

    // After a step, with so many events played.
    fn after(self, ends: Ends, at: usize, played: u16) -> Progress
        ensures { (result.player.ends ≡ ends)
            × (result.player.bodies ≡ self.bodies)
            × (result.player.played ≡ played)
            × (result.written ≡ at) }
    {
        Progress {
            player: Player {
                ends,
                played,
                ..self
            },
            written: at,
        }
    }

    // Begins the pack's message, whatever back and the buffer hold.
    pub fn begin(self, pack: &[u8], forward: &mut [u8], out: &mut [u8]) -> Progress
        ensures { (back buffer : List ℕ) →
            told_progress result forward.new back buffer out.new
            ≡ begin_of pack.now self forward.old back buffer out.old }
    {
        let Some(forward) = forward.as_mut_array::<LINE>() else {
            return self.unchanged();
        };
        if out.len() != PAGE {
            return self.unchanged();
        }
        let message = message_in(pack, self.bodies);
        let a = self.ends.begin(message, forward);
        let at = lines(a.said, SENDER, 0, out, 0);
        self.after(a.next, at, self.played)
    }

    // Plays the next events. What is lent goes apart here: the promise names each slice.
    pub fn play(
        self,
        pack: &[u8],
        buffer: &mut [u8],
        forward: &mut [u8],
        back: &mut [u8],
        out: &mut [u8],
    ) -> Progress
        ensures { told_progress result
            forward.new back.new buffer.new out.new
            ≡ play_of pack.now self
            forward.old back.old buffer.old out.old }
    {
        let Some(forward) = forward.as_mut_array::<LINE>() else {
            return self.unchanged();
        };
        let Some(back) = back.as_mut_array::<LINE>() else {
            return self.unchanged();
        };
        if out.len() != PAGE {
            return self.unchanged();
        }
        let played = self.played;
        let message = message_in(pack, self.bodies);
        let events = part(pack, next_event(self.bodies, played), most(played));
        let mut session = Session {
            ends: self.ends,
            message,
            buffer,
            forward,
            back,
            out,
            at: 0,
        };
        session.run(played, events);
        self.after(session.ends, session.at, played + events.len() as u16)
    }

    // Whether every event has been played.
    pub fn is_finished(self) -> bool
        ensures { result ≡ is_finished self }
    {
        self.bodies.events <= self.played
    }
}
