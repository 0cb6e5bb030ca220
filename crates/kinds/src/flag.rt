// A yes or no that comes in as a number: the SAA, the awaited starts, a task's report (State, Events, Records).
ghost use Rattle.std.specs.Prelude.{◌≡◌};
ghost use Rattle.kinds.specs.Kinds.{flag_of};

use crate::UnknownNumber;

pub const NO: u32 = 0;

pub const YES: u32 = 1;

// A `bool` is not a type of this crate, so that no TryFrom can be written for it. Its number is `u16::from` or `u32::from`.
pub fn of(number: u32) -> Result<bool, UnknownNumber>
    ensures { result ≡ flag_of number }
{
    match number {
        NO => Ok(false),
        YES => Ok(true),
        _ => Err(UnknownNumber),
    }
}
