// The window: the frames that one LM_ACK asks for.
ghost use Rattle.std.specs.Prelude.{◌≡◌};
ghost use Rattle.receiver.specs.Told.{told};
ghost use Rattle.receiver.specs.Window.{window_of, window_ack, asking};

use crate::{Answer, Connection, Misses, Phase, Receiver, Settings};
use frame::Frame;
use frame::build::lm_ack;

// LM_ACK e, w − e + 1.
pub(crate) fn window_ack(expected: u8, last: u8) -> Frame
    ensures { result ≡ window_ack expected last }
{
    lm_ack(expected, last.saturating_sub(expected.saturating_sub(1)))
}

impl Settings {
    // The last frame of the window that starts at `expected`: e + C − 1, or N where that is smaller. So it is a byte. (The
    // sender's `Window` has this sum of an LM_ACK's numbers: a line, for which a function of both ends would be no plainer.)
    #[tactic(auto, unfolding(crate::specs::Window::window_of))]
    pub(crate) fn window_of(self, expected: u8, frames: u8) -> u8
        ensures { result ≡ window_of self expected frames }
    {
        let past = u16::from(expected) + u16::from(self.window);
        past.saturating_sub(1).min(u16::from(frames)) as u8
    }
}

impl Receiver {
    // The window from `expected` on is asked for.
    pub(crate) fn asking(self, x: Connection, expected: u8, misses: Misses) -> Answer
        ensures { told result ≡ asking self x expected misses }
    {
        let last = self.settings.window_of(expected, x.frames);
        let next = Connection {
            expected,
            last,
            wait: 0,
            misses,
            ..x
        };
        self.in_phase(Phase::Open(next))
            .emitting(window_ack(expected, last))
    }
}
