// The list of versions: what stands in lent bytes, whether it is a list, and places in it.
#![tactic(auto, using(crate::proofs::Laws::stand_three, crate::proofs::Laws::versions_length, crate::proofs::Laws::lents), unfolding(crate::specs::List::is_list, crate::specs::List::list_of, frame::specs::Choice::pick))]

ghost use Rattle.std.specs.Prelude.{◌≡◌};
ghost use Rattle.frame.specs.Result.{told_result};
ghost use Rattle.version.specs.List.{
  version_of,
  versions_in,
  lent,
  standing,
  rising,
  is_list,
  places,
  list_of,
  at,
  highest,
  find,
  find_below,
};

use crate::Versions;
use frame::Refusal;
use std::array;

// A version as a number, major first.
pub(crate) fn version_of(major: u8, minor: u8, temporary: u8) -> u32
    ensures { result ≡ version_of major minor temporary }
{
    u32::from_be_bytes([0, major, minor, temporary])
}

// The version at a place of lent bytes, three bytes for each; 0 past the last.
fn lent(bytes: &[u8], place: usize) -> u32
    ensures { result ≡ lent bytes.now place }
{
    let (versions, _) = bytes.as_chunks::<3>();
    match versions.get(place) {
        Some([major, minor, temporary]) => version_of(*major, *minor, *temporary),
        None => 0,
    }
}

// The versions of lent bytes at their eight places.
fn places(bytes: &[u8]) -> [u32; 8]
    ensures { result ≡ places (versions_in bytes.now) }
{
    array::from_fn(|place| lent(bytes, place))
}

impl Versions {
    // The version at a place; 0 past the eighth.
    pub(crate) fn at(self, place: u32) -> u32
        ensures { result ≡ at self place }
    {
        self.numbers.get(place as usize).copied().unwrap_or(0)
    }

    // The place of the highest version.
    pub(crate) fn highest(self) -> u32
        ensures { result ≡ highest self }
    {
        self.count.saturating_sub(1)
    }

    // The versions that stand.
    fn standing(&self) -> &[u32]
        ensures { result.now ≡ standing self.now }
    {
        &self.numbers[..8.min(self.count as usize)]
    }

    // Each version is above the one before it.
    fn rising(self) -> bool
        ensures { result ≡ rising (standing self) }
    {
        self.standing().is_sorted_by(|v, w| v < w)
    }

    // 1 to 8 strictly rising versions, each a number of three bytes. The last is the highest.
    pub(crate) fn is_list(self) -> bool
        ensures { result ≡ is_list self }
    {
        (1..=8).contains(&self.count) && self.rising() && self.at(self.highest()) < 0x1000000
    }

    // The place of this version.
    pub(crate) fn find(self, version: u32) -> Option<u32>
        ensures { result ≡ find self version }
    {
        self.standing()
            .iter()
            .position(|v| *v == version)
            .map(|place| place as u32)
    }

    // The place of the highest version below this one.
    pub(crate) fn find_below(self, version: u32) -> Option<u32>
        ensures { result ≡ find_below self version }
    {
        self.standing()
            .iter()
            .rposition(|v| *v < version)
            .map(|place| place as u32)
    }
}

// A list of 1 to 8 strictly rising versions, three bytes for each, or refusal 11. More than eight
// have no place.
pub fn list(bytes: &[u8]) -> Result<Versions, Refusal>
    ensures { told_result result ≡ list_of bytes.now }
{
    let length = bytes.len();
    let count = length / 3;
    if 8 < count || length != 3 * count {
        return Err(Refusal::Versions);
    }
    let versions = Versions {
        count: count as u32,
        numbers: places(bytes),
    };
    if versions.is_list() {
        Ok(versions)
    } else {
        Err(Refusal::Versions)
    }
}
