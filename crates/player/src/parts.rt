// The parts of a pack that are lent to the ends.
ghost use Rattle.std.specs.Prelude.{◌≡◌, take, drop};
ghost use Rattle.pack.specs.Pack.{message_of};

use pack::{Bodies, MESSAGE};

// At most so many bytes from a place on.
pub(crate) fn part(pack: &[u8], from: usize, most: usize) -> &[u8]
    ensures { result.now ≡ take most (drop from pack.now) }
{
    let rest = &pack[from.min(pack.len())..];
    &rest[..most.min(rest.len())]
}

// The message of a pack, where its bodies name it.
#[tactic(auto, unfolding(pack::specs::Pack::message_of))]
pub(crate) fn message_in(pack: &[u8], bodies: Bodies) -> &[u8]
    ensures { result.now ≡ message_of pack.now bodies }
{
    part(pack, MESSAGE, usize::from(bodies.message))
}
