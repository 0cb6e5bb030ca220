// The rules of the calibration task, LCI (Mode rules).
ghost use Rattle.std.specs.Prelude.{◌≡◌, if◌then◌else◌};
ghost use Rattle.kinds.specs.declared.task.Task.{Task};
ghost use Rattle.rules.specs.Rule.{decide};
ghost use Rattle.rules.specs.Rules.{cal_start, cal_abort, cal_other, cal_status, cal_complete};
ghost use Rattle.rules.specs.Ruling.{ruled_as};

use draft::{Ruling, blank, refused};
use kinds::{Mode, Status, Task};
use records::Record;
use rules::conditions::{in_mode, lci_is, lpa_is};
use state::State;

pub fn cal_start(s: State) -> Ruling
    ensures { result ≡ ruled_as s (decide (cal_start s)) }
{
    if !in_mode(s, Mode::Quiescent) {
        return refused(s, Status::BadMode);
    }
    if lci_is(s, Task::Stopping) | lpa_is(s, Task::Stopping) {
        return refused(s, Status::OthStop);
    }
    blank(s)
        .emit(Record::CalStart)
        .emit(Record::LciState(Task::Running))
        .emit(Record::OpMode(Mode::Calibration))
        .done(Status::PktSent)
}

fn aborted(idle: bool) -> Task
    ensures { result ≡ (if idle then Task.Idle else Task.Stopping) }
{
    if idle { Task::Idle } else { Task::Stopping }
}

pub fn cal_abort(s: State) -> Ruling
    ensures { result ≡ ruled_as s (decide (cal_abort s)) }
{
    if in_mode(s, Mode::Terminal) | in_mode(s, Mode::Hold) {
        return refused(s, Status::BadMode);
    }
    blank(s)
        .emit(Record::CalAbort)
        .emit(Record::LciState(aborted(lci_is(s, Task::Idle))))
        .done(Status::Fwd)
}

pub fn cal_other(s: State) -> Ruling
    ensures { result ≡ ruled_as s (decide (cal_other s)) }
{
    if !in_mode(s, Mode::Calibration) {
        return refused(s, Status::BadMode);
    }
    if lci_is(s, Task::Stopping) {
        return refused(s, Status::OthStop);
    }
    blank(s).emit(Record::CalOther).done(Status::Fwd)
}

pub fn cal_status(s: State, good: bool) -> Ruling
    ensures { result ≡ ruled_as s (decide (cal_status s good)) }
{
    let draft = blank(s).emit(Record::CalStatus(good));
    if in_mode(s, Mode::Calibration) & s.lci_awaited & !good {
        return draft
            .emit(Record::LciState(Task::Idle))
            .emit(Record::OpMode(Mode::Quiescent))
            .done(Status::Success);
    }
    draft.done(Status::Success)
}

pub fn cal_complete(s: State) -> Ruling
    ensures { result ≡ ruled_as s (decide (cal_complete s)) }
{
    let quiescent = Record::OpMode(Mode::Quiescent);
    blank(s)
        .emit(Record::CalComp)
        .emit(Record::LciState(Task::Idle))
        .emit_if(in_mode(s, Mode::Calibration), quiescent)
        .done(Status::Success)
}
