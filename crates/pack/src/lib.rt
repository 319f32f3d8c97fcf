// Reading a run pack: its settings, and where its message and its events are.
#![tactic(auto)]

ghost use Rattle.std.specs.Prelude.{◌≡◌, ◌≤◌, drop};
ghost use Rattle.frame.specs.Result.{told_result};
ghost use Rattle.pack.specs.Pack.{
  byte_at,
  word_at,
  laid_out,
  settings_of,
  bodies_in,
  is_event,
  all_events,
  bodies_of,
};

use frame::Refusal;
use frame::count::word;

// The ends' settings as the pack has them, in its order.
#[derive(Clone, Copy)]
pub struct Settings {
    // G
    pub gap: u8,
    // the sender's T
    pub timeout: u16,
    // M
    pub limit: u16,
    // the receiver's T
    pub patience: u16,
    // C
    pub window: u8,
    // K
    pub capacity: u16,
}

// The settings, the length of the message, which starts at 23, and the number of the events, which
// start behind it. Lengths and not slices: the pack is lent anew at each call that plays it.
#[derive(Clone, Copy)]
pub struct Bodies {
    pub settings: Settings,
    pub message: u16,
    pub events: u16,
}

// How long count and table are, and the settings.
const TABLE: usize = 13;

const SETTINGS: usize = 10;

// The place in a pack where its message starts: behind count, table and settings.
pub const MESSAGE: usize = 23;

// The byte at a place, 0 past the end. (The groups have the like; it is one line.)
fn byte_at(pack: &[u8], place: usize) -> u8
    ensures { result ≡ byte_at pack.now place }
{
    pack.get(place).copied().unwrap_or(0)
}

fn word_at(pack: &[u8], place: usize) -> u16
    requires { place ≤ 65535 }
    ensures { result ≡ word_at pack.now place }
{
    let low = byte_at(pack, place);
    let high = byte_at(pack, place + 1);
    word(low, high)
}

// A count of 3, and three bodies without gaps from the table to the end of at most 65535 bytes. (Three places and three
// lengths, as the definition tests them.)
#[tactic(auto, unfolding(crate::specs::Pack::laid_out))]
fn laid_out(pack: &[u8]) -> bool
    ensures { result ≡ laid_out pack.now }
{
    let end = pack.len();
    let count = byte_at(pack, 0);
    let first = usize::from(word_at(pack, 1));
    let settings = usize::from(word_at(pack, 3));
    let second = usize::from(word_at(pack, 5));
    let message = usize::from(word_at(pack, 7));
    let third = usize::from(word_at(pack, 9));
    let events = usize::from(word_at(pack, 11));
    (TABLE <= end)
        & (end <= 65535)
        & (count == 3)
        & (first == TABLE)
        & (settings == SETTINGS)
        & (second == first + settings)
        & (third == second + message)
        & (end == third + events)
}

#[tactic(auto, unfolding(crate::specs::Pack::settings_of))]
fn settings_of(pack: &[u8]) -> Settings
    ensures { result ≡ settings_of pack.now }
{
    Settings {
        gap: byte_at(pack, 13),
        timeout: word_at(pack, 14),
        limit: word_at(pack, 16),
        patience: word_at(pack, 18),
        window: byte_at(pack, 20),
        capacity: word_at(pack, 21),
    }
}

#[tactic(auto, unfolding(crate::specs::Pack::bodies_in))]
fn bodies_in(pack: &[u8]) -> Bodies
    ensures { result ≡ bodies_in pack.now }
{
    Bodies {
        settings: settings_of(pack),
        message: word_at(pack, 7),
        events: word_at(pack, 11),
    }
}

// Events are the pack's bytes and stay numbers: the definitions have a case for each byte.
fn is_event(event: u8) -> bool
    ensures { result ≡ is_event event }
{
    (1..=8).contains(&event)
}

// Every byte from a place on is an event.
fn all_events(pack: &[u8], from: usize) -> bool
    ensures { result ≡ all_events (drop from pack.now) }
{
    pack.iter().skip(from).all(|event| is_event(*event))
}

// The bodies of a pack; refused 12 where it is none.
#[tactic(auto, using(crate::proofs::Paths::reads))]
pub fn read(pack: &[u8]) -> Result<Bodies, Refusal>
    ensures { told_result result ≡ bodies_of pack.now }
{
    if !laid_out(pack) {
        return Err(Refusal::Pack);
    }
    let bodies = bodies_in(pack);
    if all_events(pack, MESSAGE + usize::from(bodies.message)) {
        Ok(bodies)
    } else {
        Err(Refusal::Pack)
    }
}
