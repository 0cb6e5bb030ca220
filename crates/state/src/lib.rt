// The state of the instrument (State): fresh, and with one field changed; what a record does to it stands beside.
#![tactic(auto)]

mod effect;

ghost use Rattle.std.specs.Prelude.{◌≡◌};
ghost use Rattle.state.specs.State.{
  fresh,
  rebooted,
  with_mode,
  with_lci,
  with_lpa,
  with_lpa_mode,
  with_saa,
  with_lci_awaited,
  with_lpa_awaited,
  with_too,
  with_armed,
  with_count,
};

pub use effect::one_more;
use kinds::{LpaMode, Mode, Task, TooState};

#[derive(Clone, Copy, PartialEq, Eq)]
pub struct State {
    pub mode: Mode,
    pub lci: Task,
    pub lpa: Task,
    pub lpa_mode: LpaMode,
    pub saa: bool,
    pub lci_awaited: bool,
    pub lpa_awaited: bool,
    pub too: TooState,
    pub armed: u32,
    pub count: u32,
}

impl State {
    pub fn fresh() -> Self
        ensures { result ≡ fresh }
    {
        State::rebooted(0)
    }

    // What a reboot leaves: the number of events closed.
    #[tactic(auto, unfolding(crate::specs::State::rebooted))]
    pub fn rebooted(count: u32) -> Self
        ensures { result ≡ rebooted count }
    {
        State {
            mode: Mode::Boot,
            lci: Task::Idle,
            lpa: Task::Idle,
            lpa_mode: LpaMode::Normal,
            saa: false,
            lci_awaited: false,
            lpa_awaited: false,
            too: TooState::None,
            armed: 0,
            count,
        }
    }

    // One field changed, where it stands: a function a field, since each has a definition that the effects of the records name.

    pub fn with_mode(mut self, mode: Mode) -> Self
        ensures { result ≡ with_mode self mode }
    {
        self.mode = mode;
        self
    }

    pub fn with_lci(mut self, lci: Task) -> Self
        ensures { result ≡ with_lci self lci }
    {
        self.lci = lci;
        self
    }

    pub fn with_lpa(mut self, lpa: Task) -> Self
        ensures { result ≡ with_lpa self lpa }
    {
        self.lpa = lpa;
        self
    }

    pub fn with_lpa_mode(mut self, lpa_mode: LpaMode) -> Self
        ensures { result ≡ with_lpa_mode self lpa_mode }
    {
        self.lpa_mode = lpa_mode;
        self
    }

    pub fn with_saa(mut self, saa: bool) -> Self
        ensures { result ≡ with_saa self saa }
    {
        self.saa = saa;
        self
    }

    pub fn with_lci_awaited(mut self, lci_awaited: bool) -> Self
        ensures { result ≡ with_lci_awaited self lci_awaited }
    {
        self.lci_awaited = lci_awaited;
        self
    }

    pub fn with_lpa_awaited(mut self, lpa_awaited: bool) -> Self
        ensures { result ≡ with_lpa_awaited self lpa_awaited }
    {
        self.lpa_awaited = lpa_awaited;
        self
    }

    pub fn with_too(mut self, too: TooState) -> Self
        ensures { result ≡ with_too self too }
    {
        self.too = too;
        self
    }

    pub fn with_armed(mut self, armed: u32) -> Self
        ensures { result ≡ with_armed self armed }
    {
        self.armed = armed;
        self
    }

    pub fn with_count(mut self, count: u32) -> Self
        ensures { result ≡ with_count self count }
    {
        self.count = count;
        self
    }
}
