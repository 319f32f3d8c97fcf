// One direction of the player's line: at most 64 frames, kept in lent bytes as a ring. A frame that is there is never moved.
#![tactic(auto)]

ghost use Rattle.std.specs.Prelude.{◌≡◌, ◌<◌, eqb, length};
ghost use Rattle.line.specs.Ring.{empty_of, head_of, frame_at, stored, rest_of, kept, join_of};

use frame::Frame;

// How many bytes a line is kept in: nine for each of 64 places. Frames lie in lent bytes: the promises of `head` and `join` speak
// of those.
pub const LINE: usize = 576;

// The place of the first frame, and how many frames there are from it on.
#[derive(Clone, Copy)]
pub struct Ring {
    pub first: u8,
    pub count: u8,
}

// The frame at a place.
fn frame_at(place: u8, places: &[u8; LINE]) -> Frame
    requires { place < 64 }
    ensures { result ≡ frame_at places.now place }
{
    let at = 9 * usize::from(place);
    let mut bytes = [0; 8];
    bytes.copy_from_slice(&places[at + 1..at + 9]);
    Frame {
        kind: places[at],
        bytes,
    }
}

// A frame goes to a place.
fn store(f: Frame, place: u8, places: &mut [u8; LINE])
    requires { place < 64 }
    ensures { places.new ≡ stored places.old place f }
{
    let at = 9 * usize::from(place);
    places[at] = f.kind;
    places[at + 1..at + 9].copy_from_slice(&f.bytes);
}

impl Ring {
    // No frame: zeros by name, as `empty_of` of the definitions.
    pub fn empty() -> Ring
        ensures { result ≡ empty_of }
    {
        Ring { first: 0, count: 0 }
    }

    pub fn is_empty(self) -> bool
        ensures { result ≡ eqb self.count 0 }
    {
        self.count == 0
    }

    // The frame at the first place: the first frame, where there is one. Lent anything but 576 bytes, the blank
    // frame.
    pub fn head(self, bytes: &[u8]) -> Frame
        ensures { result ≡ head_of self bytes.now }
    {
        match bytes.as_array::<LINE>() {
            Some(places) => frame_at(self.first % 64, places),
            None => frame::build::blank(),
        }
    }

    // Without the first frame, where there is one: both fields are new.
    pub fn rest(self) -> Ring
        ensures { result ≡ rest_of self }
    {
        if self.is_empty() {
            return self;
        }
        Ring {
            first: (self.first % 64 + 1) % 64,
            count: self.count.min(64) - 1,
        }
    }

    // With a frame more at its end; a frame that finds 64 before it is lost, and so is one that is lent anything
    // but 576 bytes.
    pub fn join(self, f: Frame, bytes: &mut [u8]) -> Ring
        ensures { kept result bytes.new ≡ join_of self f bytes.old }
    {
        let Some(places) = bytes.as_mut_array::<LINE>() else {
            return self;
        };
        if 64 <= self.count {
            return self;
        }
        store(f, (self.first % 64 + self.count) % 64, places);
        Ring {
            count: self.count + 1,
            ..self
        }
    }
}
