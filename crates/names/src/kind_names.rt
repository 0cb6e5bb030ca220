// The names of the kinds: modes, task states, LPA modes, TOO states and statuses (State, Answers of the manager). They are functions and
// no `Display`, whose `fmt` ensures nothing: that a name is the paper's is promised here. They are public, one a kind, and docs/PROMISES.md
// names each; a trait for them would be no plainer.
ghost use Rattle.std.specs.Prelude.{◌≡◌};
ghost use Rattle.names.specs.Names.{mode_name, task_name, lpa_mode_name, too_state_name, status_name};

use kinds::{LpaMode, Mode, Status, Task, TooState};

pub fn mode(mode: Mode) -> &'static [u8]
    ensures { result.now ≡ mode_name mode }
{
    match mode {
        Mode::Boot => b"BOOT",
        Mode::Terminal => b"TERMINAL",
        Mode::Quiescent => b"QUIESCENT",
        Mode::Hold => b"HOLD",
        Mode::Calibration => b"CALIBRATION",
        Mode::Physics => b"PHYSICS",
        Mode::Too => b"TOO",
    }
}

pub fn task(task: Task) -> &'static [u8]
    ensures { result.now ≡ task_name task }
{
    match task {
        Task::Idle => b"IDLE",
        Task::Running => b"RUNNING",
        Task::Stopping => b"STOPPING",
    }
}

pub fn lpa_mode(mode: LpaMode) -> &'static [u8]
    ensures { result.now ≡ lpa_mode_name mode }
{
    match mode {
        LpaMode::Normal => b"NORMAL",
        LpaMode::Too => b"TOO",
    }
}

pub fn too_state(too: TooState) -> &'static [u8]
    ensures { result.now ≡ too_state_name too }
{
    match too {
        TooState::None => b"NONE",
        TooState::Waiting => b"WAITING",
        TooState::Started => b"STARTED",
    }
}

pub fn status(status: Status) -> &'static [u8]
    ensures { result.now ≡ status_name status }
{
    match status {
        Status::Success => b"SUCCESS",
        Status::PktSent => b"PKTSENT",
        Status::Fwd => b"FWD",
        Status::NotRun => b"NOTRUN",
        Status::BadMode => b"BADMODE",
        Status::TooAct => b"TOOACT",
        Status::BadParam => b"BADPARAM",
        Status::Saa => b"SAA",
        Status::OthRun => b"OTHRUN",
        Status::OthStop => b"OTHSTOP",
        Status::OthIdle => b"OTHIDLE",
        Status::Stale => b"STALE",
    }
}
