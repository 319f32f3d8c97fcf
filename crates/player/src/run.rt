// A list of events, one after the other.
ghost use Rattle.std.specs.Prelude.{suc, ◌+◌, ◌≤◌, length};
ghost use Rattle.player.specs.Calls.{playing};
ghost use Rattle.player.specs.Session.{Goes, world_in, page_in};

use crate::turn::Session;

impl Session<'_> {
    // The events are numbered from the one after `played` on.
    pub(crate) fn run(&mut self, played: u16, events: &[u8])
        requires { played + length events.now ≤ 65535 }
        ensures { Goes self.old self.new
            (playing (world_in self.old) self.old.message.now
            events.now (suc played) (page_in self.old)) }
    {
        for (before, event) in events.iter().enumerate() {
            self.turn(*event, played + 1 + before as u16);
        }
    }
}
