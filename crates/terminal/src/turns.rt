// The turns of a program's loop. A proved loop has to end, and nothing says that the input does, or that a failure passes: the turns are
// counted, to or from a number that no run uses up.
ghost use Rattle.std.specs.Prelude.{◌≤◌, ◌-◌, ◌≡◌};
ghost use Rattle.terminal.specs.Turns.{turns_left};

pub const TURNS: u64 = u64::MAX;

// The turns that are left after one: none where there is no reason to go on.
#[tactic(auto, unfolding(crate::specs::Turns::turns_left))]
pub fn turns_left(turns: u64, more: bool) -> u64
    ensures value { result ≡ turns_left turns more }
    ensures fewer { result ≤ turns - 1 }
{
    if turns == 0 {
        return 0;
    }
    if more {
        return turns - 1;
    }
    0
}
