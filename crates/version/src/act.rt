// What each entry of the tables does to a talker.
#![tactic(auto, unfolding(crate::specs::Talk::doing))]

ghost use Rattle.std.specs.Prelude.{◌≡◌};
ghost use Rattle.frame.specs.Result.{number_of};
ghost use Rattle.version.specs.Table.{told_trigger, told_entry};
ghost use Rattle.version.specs.Told.{
  told_outcome,
  told,
  moved,
  unsaid,
  silently,
  refusing,
  own_version,
  own_message,
  saying,
};
ghost use Rattle.version.specs.Talk.{
  pointed,
  opening,
  repeating,
  resuming,
  settling,
  failing,
  accepting,
  lowering,
  leaving,
  doing,
  triggered,
};

use crate::table::{Entry, Trigger};
use crate::wire::write;
use crate::{Answer, Message, Outcome, State, Talker, Verdict};
use frame::Refusal;

impl Talker {
    // In S1, with a result and at a place, the timers as they are.
    fn pointed(self, verdict: Verdict, place: u32) -> Talker
        ensures { result ≡ pointed self verdict place }
    {
        Talker {
            state: State::S1,
            verdict,
            place,
            timing: false,
            ..self
        }
    }

    // In a state, with a result, T1 and Tout0 at 0; timing says whether T1 runs on in S3.
    pub(crate) fn entering(self, state: State, verdict: Verdict, timing: bool) -> Talker
        ensures { result ≡ moved self state verdict self.place 0 0 timing }
    {
        Talker {
            state,
            verdict,
            period: 0,
            age: 0,
            timing,
            ..self
        }
    }

    // No message goes out, with what is reported.
    fn unsaid(self, outcome: Outcome) -> Answer
        ensures { told result ≡ unsaid self (told_outcome outcome) }
    {
        Answer {
            next: self,
            message: None,
            outcome,
        }
    }

    // The next state, and nothing else.
    pub(crate) fn silently(self) -> Answer
        ensures { told result ≡ silently self }
    {
        self.unsaid(Outcome::Quiet)
    }

    pub(crate) fn refusing(self, refusal: Refusal) -> Answer
        ensures { told result ≡ refusing self (number_of refusal) }
    {
        self.unsaid(Outcome::Refused(refusal))
    }

    // The version at Ns.
    pub(crate) fn own_version(self) -> u32
        ensures { result ≡ own_version self }
    {
        self.versions.at(self.place)
    }

    // The talker's own message: its result and its version at Ns.
    fn own_message(self) -> [u8; 8]
        ensures { result ≡ own_message self }
    {
        write(Message {
            verdict: self.verdict,
            version: self.own_version(),
            control: self.control,
        })
    }

    // The own message goes out, with what is reported.
    fn saying(self, outcome: Outcome) -> Answer
        ensures { told result ≡ saying self (told_outcome outcome) }
    {
        Answer {
            next: self,
            message: Some(self.own_message()),
            outcome,
        }
    }

    // The steps of the tables, a line or two each: they differ in state, result and report, and each has its definition.
    fn opening(self) -> Answer
        ensures { told result ≡ opening self }
    {
        self.entering(State::S1, Verdict::Continue, false)
            .saying(Outcome::Quiet)
    }

    fn repeating(self) -> Answer
        ensures { told result ≡ repeating self }
    {
        let next = Talker { period: 0, ..self };
        next.saying(Outcome::Quiet)
    }

    // The result becomes continue.
    fn resuming(self) -> Answer
        ensures { told result ≡ resuming self }
    {
        self.pointed(Verdict::Continue, self.place).silently()
    }

    // Into S2 or S3, with the version at Ns.
    fn settling(self, state: State, timing: bool) -> Answer
        ensures { told result ≡ settling self state timing }
    {
        self.entering(state, Verdict::Success, timing)
            .saying(Outcome::Agreed(self.own_version()))
    }

    fn failing(self) -> Answer
        ensures { told result ≡ failing self }
    {
        self.entering(State::S4, Verdict::Failure, false)
            .saying(Outcome::Failed)
    }

    // The result becomes success, and Ns points at the version heard.
    fn accepting(self, version: u32) -> Answer
        ensures { told result ≡ accepting self version }
    {
        let place = self.versions.find(version).unwrap_or(self.place);
        self.pointed(Verdict::Success, place).silently()
    }

    // Ns points at the highest version below the one heard.
    fn lowering(self, version: u32) -> Answer
        ensures { told result ≡ lowering self version }
    {
        let place = self.versions.find_below(version).unwrap_or(self.place);
        self.pointed(self.verdict, place).silently()
    }

    fn leaving(self) -> Answer
        ensures { told result ≡ leaving self }
    {
        self.entering(State::S5, self.verdict, false)
            .unsaid(Outcome::Left)
    }

    // An entry, with the version heard.
    fn doing(self, version: u32, entry: Entry) -> Answer
        ensures { told result ≡ doing self version (told_entry entry) }
    {
        match entry {
            Entry::Nothing | Entry::Stays => self.silently(),
            Entry::Opens => self.opening(),
            Entry::Repeats => self.repeating(),
            Entry::Resumes => self.resuming(),
            Entry::SettlesBelow2 => self.settling(State::S2, false),
            Entry::Settles => self.settling(State::S3, self.side.keeps_timing()),
            Entry::Fails => self.failing(),
            Entry::Accepts => self.accepting(version),
            Entry::Lowers => self.lowering(version),
            Entry::Leaves => self.leaving(),
        }
    }

    // A trigger, looked up in the talker's table, with the version heard, 0 where none was: as the definitions take it.
    pub(crate) fn triggered(self, version: u32, trigger: Trigger) -> Answer
        ensures { told result ≡ triggered self version (told_trigger trigger) }
    {
        self.doing(version, self.side.cell(self.state, trigger))
    }
}
