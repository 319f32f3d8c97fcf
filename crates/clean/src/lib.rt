// The figures of a clean long transfer, against which one that lost frames is rated: what its sender reports.
#![tactic(auto)]

ghost use Rattle.std.specs.Prelude.{◌≡◌, ◌≤◌};
ghost use Rattle.clean.specs.Figures.{figures_for, figures_of};
ghost use Rattle.frame.specs.Result.{told_result};

use frame::Refusal;
use frame::count::frame_count;

// The ticks and the frames of the report.
#[derive(Clone, Copy)]
pub struct Figures {
    pub ticks: u16,
    pub frames: u16,
}

// The figures of a length and a gap that are within their limits.
fn figures_for(length: u16, gap: u16) -> Figures
    requires { (length ≤ 1785) × (gap ≤ 10) }
    ensures { result ≡ figures_for length gap }
{
    let count = frame_count(length);
    Figures {
        ticks: count * gap,
        frames: count + 1,
    }
}

// The figures, or refusal 2 where no long message has this length, then refusal 1 where no sender has this gap. Both numbers
// are wide, so that none is cut before it is judged.
#[tactic(auto, unfolding(crate::specs::Figures::figures_of, frame::specs::Choice::pick))]
pub fn figures_of(length: u32, gap: u32) -> Result<Figures, Refusal>
    ensures { told_result result ≡ figures_of length gap }
{
    match (length, gap) {
        (9..=1785, 1..=10) => Ok(figures_for(length as u16, gap as u16)),
        (9..=1785, _) => Err(Refusal::Setting),
        _ => Err(Refusal::Length),
    }
}
