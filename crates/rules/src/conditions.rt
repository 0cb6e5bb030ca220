// What the rules ask of a state, and the sections of records that several of them share (Mode rules). A condition is a function a field:
// the rules' definitions name each. A section takes the state and the draft, since a rule asks the state before the event, not the draft's.
ghost use Rattle.std.specs.Prelude.{◌≡◌};
ghost use Rattle.rules.specs.Rule.{in_mode, lci_is, lpa_is, too_is, stop_calibration, stop_physics, end_too};
ghost use Rattle.draft.specs.Draft.{emits};

use draft::Draft;
use kinds::{Mode, Task, TooState};
use records::Record;
use state::State;

pub fn in_mode(s: State, other: Mode) -> bool
    ensures { result ≡ in_mode s other }
{
    s.mode == other
}

pub fn lci_is(s: State, other: Task) -> bool
    ensures { result ≡ lci_is s other }
{
    s.lci == other
}

pub fn lpa_is(s: State, other: Task) -> bool
    ensures { result ≡ lpa_is s other }
{
    s.lpa == other
}

pub fn too_is(s: State, other: TooState) -> bool
    ensures { result ≡ too_is s other }
{
    s.too == other
}

pub fn stop_calibration(s: State, draft: Draft) -> Draft
    ensures { result ≡ emits draft (stop_calibration s) }
{
    if lci_is(s, Task::Running) {
        return draft
            .emit(Record::CalAbort)
            .emit(Record::LciState(Task::Stopping));
    }
    draft
}

pub fn stop_physics(s: State, draft: Draft) -> Draft
    ensures { result ≡ emits draft (stop_physics s) }
{
    if lpa_is(s, Task::Running) {
        return draft
            .emit(Record::LpaStop)
            .emit(Record::LpaState(Task::Stopping));
    }
    draft
}

pub fn end_too(s: State, draft: Draft) -> Draft
    ensures { result ≡ emits draft (end_too s) }
{
    if in_mode(s, Mode::Too) {
        return draft
            .emit(Record::TooTimerStop)
            .emit(Record::TooState(TooState::None));
    }
    draft
}
