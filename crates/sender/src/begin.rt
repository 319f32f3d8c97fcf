// Beginning a transfer, posting a message.
ghost use Rattle.std.specs.Prelude.{◌≡◌, ◌≤◌, length};
ghost use Rattle.frame.specs.Reading.{longest};
ghost use Rattle.sender.specs.Begin.{begun_with, begin_idle, begin_of, post_of};
ghost use Rattle.sender.specs.Told.{told};

use crate::{Answer, Phase, Sender, Transfer};
use frame::Refusal;
use frame::build::{announcement, sm_rm, sm_urm};
use frame::count::frame_count;

// The length of the longest message, to be compared with a slice's.
const LONGEST: usize = frame::LONGEST as usize;

// What a begin knows of a message that goes in so many frames. Its length is asked for: the match that calls this has just
// tested it.
fn begun_with(message: &[u8], frames: u8) -> Transfer
    requires { length message.now ≤ longest }
    ensures { result ≡ begun_with message.now frames }
{
    Transfer {
        length: message.len() as u16,
        frames,
        first: message.first().copied().unwrap_or(0),
        age: 0,
        emitted: 1,
    }
}

impl Sender {
    // Short to 8, long to 1785.
    #[tactic(auto, unfolding(crate::specs::Begin::begin_idle, crate::specs::Begin::begin_short, crate::specs::Begin::begin_long, frame::specs::Count::frame_count_of, frame::specs::Choice::pick))]
    fn begin_idle(self, message: &[u8]) -> Answer
        ensures { told result ≡ begin_idle self message.now }
    {
        match message.len() {
            1..=8 => {
                let transfer = begun_with(message, 1);
                self.in_phase(transfer.short_with(0))
                    .emitting(sm_rm(message))
            }
            9..=LONGEST => {
                let length = message.len() as u16;
                let frames = frame_count(length) as u8;
                let transfer = begun_with(message, frames);
                self.in_phase(transfer.opening_with(0, 0))
                    .emitting(announcement(frames, length))
            }
            _ => self.refusing(Refusal::Length.into()),
        }
    }

    // Begins a transfer of the lent message. Refused 3 where one is going on, then 2 for the length.
    #[tactic(auto, unfolding(crate::specs::Begin::begin_of, crate::specs::Begin::begin_phase))]
    pub fn begin(self, message: &[u8]) -> Answer
        ensures { told result ≡ begin_of self message.now }
    {
        match self.phase {
            Phase::Idle => self.begin_idle(message),
            Phase::Opening(_) | Phase::Sending(_) | Phase::Waiting(_) | Phase::Short(_) => {
                self.refusing(Refusal::Busy.into())
            }
        }
    }

    // Emits the lent message as one SM_URM, in every phase. Refused 2 for its length.
    #[tactic(auto, unfolding(crate::specs::Begin::post_of, frame::specs::Choice::pick))]
    pub fn post(self, message: &[u8]) -> Answer
        ensures { told result ≡ post_of self message.now }
    {
        if !(1..=8).contains(&message.len()) {
            return self.refusing(Refusal::Length.into());
        }
        self.emitting(sm_urm(message))
    }
}
