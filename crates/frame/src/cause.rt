// Why a transfer fails.
ghost use Rattle.std.specs.Prelude.{◌≡◌};
ghost use Rattle.frame.specs.Cause.{cause_of};

// The causes of document 01, Frames, under their numbers there: d0 of LM_NACK, and what a failure reports.
#[derive(Clone, Copy)]
pub enum Cause {
    // no space; as a report: a NACK was heard
    NoSpace = 1,
    // three timeouts
    Timeouts = 2,
    // the sending time is over
    TimeOver = 3,
    // a frame number above N
    Number = 4,
    // a bad announcement
    Announcement = 5,
}

impl From<Cause> for u8 {
    ghost from_gives = { λ cause number. number ≡ cause_of cause };

    fn from(cause: Cause) -> u8 {
        cause as u8
    }
}
