// The calls of a talker. It is made of what `make_of` takes.
#![tactic(auto, unfolding(crate::specs::Talk::connect_of, crate::specs::Talk::stop_of, crate::specs::Talk::greet_of, crate::specs::Talk::functions_state, crate::specs::Talk::functions_heard_of, crate::specs::Talk::tick_talking, crate::specs::Talk::tick_settled, crate::specs::Talk::tick_state, crate::specs::Talk::tick_of, crate::specs::Talk::success_trigger, crate::specs::Talk::else_trigger, crate::specs::Talk::continue_trigger, crate::specs::Talk::heard_trigger, crate::specs::Talk::hear_judged, crate::specs::Talk::hear_of, crate::specs::Talk::make_of, frame::specs::Choice::pick))]

ghost use Rattle.std.specs.Prelude.{◌≡◌};
ghost use Rattle.frame.specs.Result.{told_result};
ghost use Rattle.version.specs.Table.{told_trigger};
ghost use Rattle.version.specs.Told.{told};
ghost use Rattle.version.specs.Talk.{
  make_of,
  connect_of,
  stop_of,
  greet_of,
  functions_heard_of,
  success_trigger,
  else_trigger,
  continue_trigger,
  heard_trigger,
  hear_of,
  tick_talking,
  tick_settled,
  tick_of,
};

use crate::table::Trigger;
use crate::wire::read;
use crate::{Answer, Message, Side, State, Talker, Verdict, Versions};
use frame::Refusal;
use frame::count::increment;

// T1 and Tout0 in ticks of 1 ms.
const PERIOD: u16 = 50;

const LIMIT: u16 = 15000;

// Version 2.0.0.
const VERSION_2: u32 = 0x020000;

impl Talker {
    // A talker that has not yet connected, Ns at the highest version and the result continue; or
    // refusal 11: no list of versions.
    pub fn make(side: Side, versions: Versions, control: u8) -> Result<Talker, Refusal>
        ensures { told_result result ≡ make_of side versions control }
    {
        if !versions.is_list() {
            return Err(Refusal::Versions);
        }
        Ok(Talker {
            side,
            versions,
            control,
            state: State::S0,
            place: versions.highest(),
            verdict: Verdict::Continue,
            period: 0,
            age: 0,
            timing: false,
        })
    }

    // The physical connection is complete. (One line each, here and below: every call has its trigger and its definition.)
    pub fn connect(self) -> Answer
        ensures { told result ≡ connect_of self }
    {
        self.triggered(0, Trigger::Connected)
    }

    // A fault, or the other side opens its switch.
    pub fn stop(self) -> Answer
        ensures { told result ≡ stop_of self }
    {
        self.triggered(0, Trigger::Stopped)
    }

    // The old protocol's greeting (CHM) is heard.
    pub fn greet(self) -> Answer
        ensures { told result ≡ greet_of self }
    {
        self.triggered(0, Trigger::Greeted)
    }

    // The charger's supported functions are heard: S3 closes its timers.
    pub fn functions_heard(self) -> Answer
        ensures { told result ≡ functions_heard_of self }
    {
        match self.state {
            State::S3 => self.entering(self.state, self.verdict, false).silently(),
            State::S0 | State::S1 | State::S2 | State::S4 | State::S5 => self.silently(),
        }
    }

    // S1: the limit goes before the period.
    fn tick_talking(self) -> Answer
        ensures { told result ≡ tick_talking self }
    {
        let age = increment(self.age);
        if LIMIT <= age {
            return self.triggered(0, Trigger::LimitDue);
        }
        let period = increment(self.period);
        if PERIOD <= period {
            let waited = Talker { age, ..self };
            waited.triggered(0, Trigger::PeriodDue)
        } else {
            let waited = Talker {
                period,
                age,
                ..self
            };
            waited.silently()
        }
    }

    // S3: T1 alone, while it runs.
    fn tick_settled(self) -> Answer
        ensures { told result ≡ tick_settled self }
    {
        if !self.timing {
            return self.silently();
        }
        let period = increment(self.period);
        if PERIOD <= period {
            self.triggered(0, Trigger::PeriodDue)
        } else {
            let waited = Talker { period, ..self };
            waited.silently()
        }
    }

    // One millisecond passes. T1 and Tout0 run in S1, T1 in the vehicle's S3.
    pub fn tick(self) -> Answer
        ensures { told result ≡ tick_of self }
    {
        match self.state {
            State::S1 => self.tick_talking(),
            State::S3 => self.tick_settled(),
            State::S0 | State::S2 | State::S4 | State::S5 => self.silently(),
        }
    }

    // Success heard: the own version at Ns, below 2.0.0 or not; or another.
    fn success_trigger(self, version: u32) -> Trigger
        ensures { told_trigger result ≡ success_trigger self version }
    {
        if version != self.own_version() {
            Trigger::SuccessOther
        } else if version < VERSION_2 {
            Trigger::SuccessBelow2
        } else {
            Trigger::Success2
        }
    }

    // Continue heard, with a version that is not in the list.
    fn else_trigger(self, version: u32) -> Trigger
        ensures { told_trigger result ≡ else_trigger self version }
    {
        if self.own_version() < version {
            return Trigger::ContinueLower;
        }
        match self.versions.find_below(version) {
            Some(_) => Trigger::ContinueHigher,
            None => Trigger::ContinueNone,
        }
    }

    // Continue heard.
    fn continue_trigger(self, version: u32) -> Trigger
        ensures { told_trigger result ≡ continue_trigger self version }
    {
        match self.versions.find(version) {
            Some(_) => Trigger::ContinueSame,
            None => self.else_trigger(version),
        }
    }

    fn heard_trigger(self, m: Message) -> Trigger
        ensures { told_trigger result ≡ heard_trigger self m.version m.verdict }
    {
        match m.verdict {
            Verdict::Continue => self.continue_trigger(m.version),
            Verdict::Success => self.success_trigger(m.version),
            Verdict::Failure => Trigger::FailureHeard,
        }
    }

    // A message of the other side is heard.
    pub fn hear(self, bytes: [u8; 8]) -> Answer
        ensures { told result ≡ hear_of self bytes }
    {
        match read(bytes) {
            Ok(m) => self.triggered(m.version, self.heard_trigger(m)),
            Err(refusal) => self.refusing(refusal),
        }
    }
}
