// The figures of a clean long transfer.
ghost use Rattle.std.specs.Prelude.{◌≡◌};
ghost use Rattle.kospelna.specs.Figures.{clean_out};
ghost use Rattle.clean.specs.Figures.{figures_of};

use kospelna::figures::FlatCleanFigures;

// The ticks and the frames that a clean long transfer takes at a gap, or refusal 2 for the length,
// then 1 for the gap.
#[unsafe(no_mangle)]
pub extern "C" fn kospelna_clean_figures_of(length: u32, gap: u32) -> FlatCleanFigures
    ensures { result ≡ clean_out (figures_of length gap) }
{
    kospelna::figures::kospelna_clean_figures_of(length, gap)
}
