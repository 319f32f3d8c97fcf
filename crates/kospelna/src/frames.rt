// A frame in C's layout, and its translation both ways.
ghost use Rattle.std.specs.Prelude.{◌≡◌};
ghost use Rattle.frame.specs.Frames.{frame_or_blank};
ghost use Rattle.kospelna.specs.Frames.{frame_from, flat_frame};

use frame::Frame;
use frame::build::blank;

// The bytes d0 to d7 and a kind. With the bytes first C passes them in one register. C's layout; a type of its own, so that the
// inner type may change.
#[repr(C)]
#[derive(Clone, Copy, Default)]
pub struct FlatFrame {
    pub bytes: [u8; 8],
    pub kind: u8,
}

impl From<FlatFrame> for Frame {
    ghost from_gives = { λ flat frame. frame ≡ frame_from flat };

    fn from(flat: FlatFrame) -> Frame {
        let bytes = flat.bytes;
        Frame {
            kind: flat.kind,
            bytes,
        }
    }
}

impl From<Frame> for FlatFrame {
    ghost from_gives = { λ frame flat. flat ≡ flat_frame frame };

    fn from(frame: Frame) -> FlatFrame {
        let bytes = frame.bytes;
        FlatFrame {
            kind: frame.kind,
            bytes,
        }
    }
}

// Zeros where no frame goes out.
impl From<Option<Frame>> for FlatFrame {
    ghost from_gives = { λ frame flat. flat ≡ flat_frame (frame_or_blank frame) };

    fn from(frame: Option<Frame>) -> FlatFrame {
        FlatFrame::from(frame.unwrap_or(blank()))
    }
}
