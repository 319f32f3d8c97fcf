// Numbers that both ends count with.
ghost use Rattle.std.specs.Prelude.{◌≡◌};
ghost use Rattle.frame.specs.Count.{frame_count_of, increment_of, word_of, within};
ghost use Rattle.frame.specs.Frames.{carried};

// How many frames of seven bytes hold a message of this length. It is found by arithmetic alone (document 02, E7): 74899 / 2^19
// is a little more than a seventh, and so little that every 16-bit length gets its number. (Casts: `from` would be a call in it.)
#[tactic(auto, using(crate::proofs::Laws::frame_count_bounds))]
pub fn frame_count(length: u16) -> u16
    ensures { result ≡ frame_count_of length }
{
    (((length as u64 + 6) * 74899) >> 19) as u16
}

// One more, held at 65535.
#[tactic(auto, unfolding(crate::specs::Count::increment_of))]
pub fn increment(count: u16) -> u16
    ensures { result ≡ increment_of count }
{
    count.saturating_add(1)
}

// The word of two bytes, low byte first.
pub fn word(low: u8, high: u8) -> u16
    ensures { result ≡ word_of low high }
{
    u16::from_le_bytes([low, high])
}

// x is low to high, both included.
pub fn within(low: u16, x: u16, high: u16) -> bool
    ensures { result ≡ within low x high }
{
    (low..=high).contains(&x)
}

// How many message bytes frame `number` of a message of this length carries.
pub fn carried(number: u8, length: u16) -> usize
    ensures { result ≡ carried number length }
{
    let before = 7 * u16::from(number.saturating_sub(1));
    usize::from(length.saturating_sub(before).min(7))
}
