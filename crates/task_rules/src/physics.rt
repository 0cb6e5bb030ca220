// The rules of the physics task, LPA (Mode rules).
ghost use Rattle.std.specs.Prelude.{not, ◌||◌, ◌≡◌, if◌then◌else◌};
ghost use Rattle.kinds.specs.declared.lpa_mode.LpaMode.{LpaMode};
ghost use Rattle.kinds.specs.declared.task.Task.{Task};
ghost use Rattle.rules.specs.Rule.{decide, lci_is, lpa_is};
ghost use Rattle.rules.specs.Rules.{lpa_start, lpa_stop, lpa_other, lpa_status, lpa_complete};
ghost use Rattle.rules.specs.Ruling.{ruled_as};

use draft::{Ruling, blank, refused};
use kinds::{LpaMode, Mode, Status, Task, TooState};
use records::Record;
use rules::conditions::{in_mode, lci_is, lpa_is, too_is};
use state::State;

pub fn lpa_start(s: State, run: u32) -> Ruling
    ensures { result ≡ ruled_as s (decide (lpa_start s run)) }
{
    let quiescent = in_mode(s, Mode::Quiescent);
    let too = in_mode(s, Mode::Too);
    if !(quiescent | too) {
        return refused(s, Status::BadMode);
    }
    if s.saa {
        return refused(s, Status::Saa);
    }
    if lpa_is(s, Task::Running) {
        return refused(s, Status::OthRun);
    }
    if still_stopping(s) {
        return refused(s, Status::OthStop);
    }
    let mode = mode_to_start(quiescent);
    let waiting = too_is(s, TooState::Waiting);
    blank(s)
        .emit(Record::LpaStart { mode, run })
        .emit(Record::LpaState(Task::Running))
        .emit_if(quiescent, Record::OpMode(Mode::Physics))
        .emit_if(too & waiting, Record::TooState(TooState::Started))
        .done(Status::PktSent)
}

// The run before has not ended, or a calibration has not.
fn still_stopping(s: State) -> bool
    ensures { result ≡ (lpa_is s Task.Stopping || not (lci_is s Task.Idle)) }
{
    lpa_is(s, Task::Stopping) | !lci_is(s, Task::Idle)
}

// For the observation, or for the target of opportunity.
fn mode_to_start(quiescent: bool) -> LpaMode
    ensures { result ≡ (if quiescent then LpaMode.Normal else LpaMode.Too) }
{
    if quiescent {
        LpaMode::Normal
    } else {
        LpaMode::Too
    }
}

pub fn lpa_stop(s: State) -> Ruling
    ensures { result ≡ ruled_as s (decide (lpa_stop s)) }
{
    if !(in_mode(s, Mode::Physics) | in_mode(s, Mode::Too)) {
        return refused(s, Status::BadMode);
    }
    if lpa_is(s, Task::Idle) {
        return refused(s, Status::OthIdle);
    }
    blank(s)
        .emit(Record::LpaStop)
        .emit(Record::LpaState(Task::Stopping))
        .done(Status::PktSent)
}

pub fn lpa_other(s: State) -> Ruling
    ensures { result ≡ ruled_as s (decide (lpa_other s)) }
{
    if !(in_mode(s, Mode::Physics) | in_mode(s, Mode::Too)) {
        return refused(s, Status::BadMode);
    }
    if lpa_is(s, Task::Stopping) {
        return refused(s, Status::OthStop);
    }
    if lpa_is(s, Task::Idle) {
        return refused(s, Status::OthIdle);
    }
    blank(s).emit(Record::LpaOther).done(Status::Fwd)
}

pub fn lpa_status(s: State, good: bool) -> Ruling
    ensures { result ≡ ruled_as s (decide (lpa_status s good)) }
{
    let draft = blank(s).emit(Record::LpaStatus(good));
    let physics = in_mode(s, Mode::Physics);
    if (physics | in_mode(s, Mode::Too)) & s.lpa_awaited & !good {
        return draft
            .emit(Record::LpaState(Task::Idle))
            .emit_if(physics, Record::OpMode(Mode::Quiescent))
            .done(Status::Success);
    }
    draft.done(Status::Success)
}

pub fn lpa_complete(s: State) -> Ruling
    ensures { result ≡ ruled_as s (decide (lpa_complete s)) }
{
    let quiescent = Record::OpMode(Mode::Quiescent);
    blank(s)
        .emit(Record::LpaComp)
        .emit(Record::LpaState(Task::Idle))
        .emit_if(in_mode(s, Mode::Physics), quiescent)
        .done(Status::Success)
}
