// Where a task, LCI or LPA, stands, and the numbers (State).
ghost use Rattle.std.specs.Prelude.{◌≡◌};
ghost use Rattle.kinds.specs.Kinds.{task_number, task_of};

use crate::UnknownNumber;

#[derive(Clone, Copy, PartialEq, Eq)]
pub enum Task {
    Idle,
    Running,
    Stopping,
}

impl Task {
    pub const IDLE: u16 = 0;

    pub const RUNNING: u16 = 1;

    pub const STOPPING: u16 = 2;
}

impl From<Task> for u16 {
    ghost from_gives = { λ task number. number ≡ task_number task };

    fn from(task: Task) -> u16 {
        match task {
            Task::Idle => Task::IDLE,
            Task::Running => Task::RUNNING,
            Task::Stopping => Task::STOPPING,
        }
    }
}

impl TryFrom<u16> for Task {
    type Error = UnknownNumber;

    ghost try_from_gives = { λ number found. found ≡ task_of number };

    fn try_from(number: u16) -> Result<Task, UnknownNumber> {
        match number {
            Task::IDLE => Ok(Task::Idle),
            Task::RUNNING => Ok(Task::Running),
            Task::STOPPING => Ok(Task::Stopping),
            _ => Err(UnknownNumber),
        }
    }
}
