// Standard input a piece at a time, so that a live feed is answered as it comes.
ghost use Rattle.std.specs.Prelude.{◌≡◌, [], false};

use crate::input::{fill, reads_on};
use crate::output::Output;
use crate::turns::{TURNS, turns_left};

// What a program does with a piece: whole groups, but for what is left at the end of the input.
pub trait Takes {
    fn take(&mut self, rt: HostRuntime, piece: &[u8], out: &mut Output);
}

// Reads a piece of whole groups, has it taken and writes out what that put, since who reads a live feed waits for it; and so on.
pub fn each_piece<T: Takes>(
    rt: HostRuntime,
    taker: &mut T,
    piece: &mut [u8],
    size: usize,
    out: &mut Output,
)
    ensures { out.new.failed ≡ false → out.new.waiting ≡ [] }
{
    let mut turns = TURNS;
    while turns > 0 {
        let count = fill(rt, piece, size);
        taker.take(rt, &piece[..count], out);
        out.flush();
        turns = turns_left(turns, reads_on(count, size, out.failed()));
    }
}
