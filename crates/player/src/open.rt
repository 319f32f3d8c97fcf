// Opening a run pack: its bodies are read, the ends made of its settings, and a begin of its
// message tried.
ghost use Rattle.std.specs.Prelude.{◌≡◌};
ghost use Rattle.frame.specs.Result.{accepted, number_of, told_result};
ghost use Rattle.player.specs.Played.{ByBegin, OfBegin, unless_refused, opened_with, opened_bodies, open_of};
ghost use Rattle.sender.specs.Told as sender-told;

use crate::Player;
use crate::parts::message_in;
use frame::Refusal;
use line::LINE;
use pack::Bodies;
use transport::Ends;

// Why a begin was refused, by the number that it reports.
fn begin_refusal(number: u8) -> Refusal
    requires { ByBegin number }
    ensures { number_of result ≡ number }
{
    if number == u8::from(Refusal::Length) {
        Refusal::Length
    } else {
        Refusal::Busy
    }
}

// By what the begin reported.
fn unless_refused(outcome: sender::Outcome, player: Player) -> Result<Player, Refusal>
    requires { OfBegin (sender-told.told_outcome outcome) }
    ensures { told_result result ≡ unless_refused (sender-told.told_outcome outcome) player }
{
    match outcome {
        sender::Outcome::Refused(number) => Err(begin_refusal(number)),
        _ => Ok(player),
    }
}

// The begin is tried on a line of its own: the ends are handed on as they were made.
fn try_begin(message: &[u8], bodies: Bodies, ends: Ends) -> Result<Player, Refusal>
    ensures { told_result result ≡ opened_with message.now bodies (accepted ends) }
{
    let mut line = [0u8; LINE];
    let begun = ends.begin(message, &mut line);
    let player = Player {
        ends,
        bodies,
        played: 0,
    };
    unless_refused(begun.said.sender, player)
}

fn open_bodies(pack: &[u8], bodies: Bodies) -> Result<Player, Refusal>
    ensures { told_result result ≡ opened_bodies pack.now (accepted bodies) }
{
    let settings = bodies.settings;
    let ends = Ends::make(
        u16::from(settings.gap),
        settings.timeout,
        settings.limit,
        settings.patience,
        u16::from(settings.window),
        settings.capacity,
    )?;
    let message = message_in(pack, bodies);
    try_begin(message, bodies, ends)
}

impl Player {
    // Opens a run pack: refused 12 where it is none, then 1 for a setting, then 2 for the message's
    // length.
    pub fn open(pack: &[u8]) -> Result<Player, Refusal>
        ensures { told_result result ≡ open_of pack.now }
    {
        let bodies = pack::read(pack)?;
        open_bodies(pack, bodies)
    }
}
