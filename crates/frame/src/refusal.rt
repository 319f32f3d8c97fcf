// Why a call is refused.
ghost use Rattle.std.specs.Prelude.{◌≡◌};
ghost use Rattle.frame.specs.Result.{number_of};

// The causes of document 01, Refusals, under their numbers there; 13 and 14 are those of document 02, E2 and E3. The same cause
// has the same number wherever it is met.
#[derive(Clone, Copy)]
pub enum Refusal {
    // a setting outside its limits
    Setting = 1,
    // a message that is empty or too long; a length that no long message has
    Length = 2,
    // a begin while a transfer goes on
    Busy = 3,
    // a tick that is lent a message of another length than the begun one
    OtherMessage = 4,
    // a buffer or counts that are lent in another length than theirs
    Lent = 5,
    // a frame that cannot be read
    Unreadable = 6,
    // a frame of a kind for the other end
    OtherEnd = 7,
    // an identifier, or parts of one, that does not fit
    Identifier = 8,
    // a group's code, length or filler
    Group = 9,
    // a value of a group's field or of a version message's
    Value = 10,
    // what is no list of versions
    Versions = 11,
    // what is no run pack
    Pack = 12,
    // a hold or a resume where there is nothing to hold or resume
    Hold = 13,
    // other bytes than filler behind the message's end
    Unclean = 14,
}

impl From<Refusal> for u8 {
    ghost from_gives = { λ refusal number. number ≡ number_of refusal };

    fn from(refusal: Refusal) -> u8 {
        refusal as u8
    }
}
