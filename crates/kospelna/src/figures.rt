// The figures of a clean long transfer.
ghost use Rattle.std.specs.Prelude.{◌≡◌};
ghost use Rattle.frame.specs.Result.{told_result};
ghost use Rattle.kospelna.specs.Figures.{flat_figures, clean_out};
ghost use Rattle.clean.specs.Figures.{figures_of};

use crate::answers::refusal_and_value;
use clean::Figures;
use frame::Refusal;

// These structs are the C interface: a refusal's number beside a value, a flag beside what goes out and numbers for cases are
// C's forms of Result, Option and enum.

// The refusal's number, 0 where there is none, and the figures, zeros where refused.
#[repr(C)]
#[derive(Clone, Copy, Default)]
pub struct FlatCleanFigures {
    pub refusal: u8,
    pub ticks: u16,
    pub frames: u16,
}

impl From<Figures> for FlatCleanFigures {
    ghost from_gives = { λ figures flat. flat ≡ flat_figures 0 figures };

    fn from(figures: Figures) -> FlatCleanFigures {
        FlatCleanFigures {
            refusal: 0,
            ticks: figures.ticks,
            frames: figures.frames,
        }
    }
}

impl From<Result<Figures, Refusal>> for FlatCleanFigures {
    ghost from_gives = { λ answer flat. flat ≡ clean_out (told_result answer) };

    fn from(answer: Result<Figures, Refusal>) -> FlatCleanFigures {
        let (refusal, value) = refusal_and_value::<Figures, FlatCleanFigures>(answer);
        FlatCleanFigures { refusal, ..value }
    }
}

// The ticks and the frames that a clean long transfer takes at a gap, or refusal 2 for the length,
// then 1 for the gap.
pub fn kospelna_clean_figures_of(length: u32, gap: u32) -> FlatCleanFigures
    ensures { result ≡ clean_out (figures_of length gap) }
{
    clean::figures_of(length, gap).into()
}
