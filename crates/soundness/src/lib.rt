// Which states are sound (State): the clauses (a) to (e), as they stand in the book, those of the shape first and then the numbers.
#![tactic(auto)]

ghost use Rattle.std.specs.Prelude.{◌≡◌};
ghost use Rattle.soundness.specs.Sound.{sound, shape_sound, numbers_sound, calibration_sound, physics_sound, too_sound, boot_sound, tasks_sound};

use kinds::{LpaMode, Mode, Task, TooState};
use state::State;

#[tactic(auto, unfolding(crate::specs::Sound::sound))]
pub fn sound(s: State) -> bool
    ensures { result ≡ sound s }
{
    shape_sound(s) & numbers_sound(s)
}

#[tactic(auto, unfolding(crate::specs::Sound::shape_sound))]
fn shape_sound(s: State) -> bool
    ensures { result ≡ shape_sound s }
{
    let calibration = calibration_sound(s);
    let physics = physics_sound(s);
    let too = too_sound(s);
    let boot = boot_sound(s);
    let tasks = tasks_sound(s);
    calibration & physics & too & boot & tasks
}

fn numbers_sound(s: State) -> bool
    ensures { result ≡ numbers_sound s }
{
    s.armed <= s.count
}

#[tactic(auto, unfolding(crate::specs::Sound::calibration_sound))]
fn calibration_sound(s: State) -> bool
    ensures { result ≡ calibration_sound s }
{
    let calibrating = s.mode == Mode::Calibration;
    ((s.lci != Task::Running) | calibrating) & (!calibrating | (s.lci != Task::Idle))
}

#[tactic(auto, unfolding(crate::specs::Sound::physics_sound))]
fn physics_sound(s: State) -> bool
    ensures { result ≡ physics_sound s }
{
    let physics = s.mode == Mode::Physics;
    let normal = physics & (s.lpa_mode == LpaMode::Normal);
    let too = (s.mode == Mode::Too) & (s.lpa_mode == LpaMode::Too);
    ((s.lpa != Task::Running) | (normal | too) & !s.saa) & (!physics | (s.lpa != Task::Idle))
}

#[tactic(auto, unfolding(crate::specs::Sound::too_sound))]
fn too_sound(s: State) -> bool
    ensures { result ≡ too_sound s }
{
    let none = s.too == TooState::None;
    let on = s.armed != 0;
    if s.mode == Mode::Too {
        !none & on
    } else {
        none & !on
    }
}

#[tactic(auto, unfolding(crate::specs::Sound::boot_sound))]
fn boot_sound(s: State) -> bool
    ensures { result ≡ boot_sound s }
{
    let booting = s.mode == Mode::Boot;
    let idle = (s.lci == Task::Idle) & (s.lpa == Task::Idle) & (s.lpa_mode == LpaMode::Normal);
    let quiet = idle & !s.saa & !s.lci_awaited & !s.lpa_awaited;
    !booting | quiet & (s.too == TooState::None) & !(s.armed != 0)
}

#[tactic(auto, unfolding(crate::specs::Sound::tasks_sound))]
fn tasks_sound(s: State) -> bool
    ensures { result ≡ tasks_sound s }
{
    (s.lci == Task::Idle) | (s.lpa == Task::Idle)
}
