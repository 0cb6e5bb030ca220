// The rules of the target of opportunity (Mode rules).
#![tactic(auto, using(draft::specs::DraftLaws::emitting))]

ghost use Rattle.std.specs.Prelude.{◌≡◌, if◌then◌else◌};
ghost use Rattle.kinds.specs.declared.status.Status.{Status};
ghost use Rattle.draft.specs.Draft.{emits};
ghost use Rattle.rules.specs.Rule.{decide};
ghost use Rattle.rules.specs.Rules.{starts_physics, too_starting, too_start, too_expired, too_abort, leave_too};
ghost use Rattle.rules.specs.Ruling.{ruled_as};

use draft::{Draft, Ruling, blank, refused};
use kinds::{LpaMode, Mode, Status, Task, TooState};
use records::Record;
use rules::conditions::{in_mode, lci_is, lpa_is};
use state::State;

pub fn too_start(s: State, run: u32, dwell: u32) -> Ruling
    ensures { result ≡ ruled_as s (decide (too_start s run dwell)) }
{
    let too = in_mode(s, Mode::Too);
    if !(too | in_mode(s, Mode::Quiescent) | in_mode(s, Mode::Physics)) {
        return refused(s, Status::BadMode);
    }
    if too {
        return refused(s, Status::TooAct);
    }
    if !ranges::dwell_in_range(dwell) {
        return refused(s, Status::BadParam);
    }
    let draft = blank(s).emit(Record::TooTimerStart { dwell });
    let draft = too_starting(s, run, draft);
    draft
        .emit(Record::OpMode(Mode::Too))
        .done(sent(starts_physics(s)))
}

fn starts_physics(s: State) -> bool
    ensures { result ≡ starts_physics s }
{
    lpa_is(s, Task::Idle) & lci_is(s, Task::Idle) & !s.saa
}

fn sent(started: bool) -> Status
    ensures { result ≡ (if started then Status.PktSent else Status.Success) }
{
    if started {
        Status::PktSent
    } else {
        Status::Success
    }
}

fn too_starting(s: State, run: u32, draft: Draft) -> Draft
    ensures { result ≡ emits draft (too_starting s run) }
{
    let mode = LpaMode::Too;
    let started = Record::TooState(TooState::Started);
    if lpa_is(s, Task::Running) {
        return draft.emit(Record::LpaMode(mode)).emit(started);
    }
    if starts_physics(s) {
        return draft
            .emit(Record::LpaStart { mode, run })
            .emit(Record::LpaState(Task::Running))
            .emit(started);
    }
    draft.emit(Record::TooState(TooState::Waiting))
}

pub fn too_expired(s: State, armed: u32) -> Ruling
    ensures { result ≡ ruled_as s (decide (too_expired s armed)) }
{
    if !(in_mode(s, Mode::Too) & (armed == s.armed)) {
        return refused(s, Status::Stale);
    }
    leave_too(s, blank(s)).done(Status::Success)
}

pub fn too_abort(s: State) -> Ruling
    ensures { result ≡ ruled_as s (decide (too_abort s)) }
{
    if !in_mode(s, Mode::Too) {
        return refused(s, Status::BadMode);
    }
    leave_too(s, blank(s)).done(Status::Success)
}

fn leave_too(s: State, draft: Draft) -> Draft
    ensures { result ≡ emits draft (leave_too s) }
{
    let draft = draft
        .emit(Record::TooTimerStop)
        .emit(Record::TooState(TooState::None));
    if lpa_is(s, Task::Running) {
        return draft
            .emit(Record::LpaMode(LpaMode::Normal))
            .emit(Record::OpMode(Mode::Physics));
    }
    draft.emit(Record::OpMode(Mode::Quiescent))
}
