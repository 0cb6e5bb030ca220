// Standard input in whole groups: each as it comes from a live feed, many at a time from a file.
ghost use Rattle.std.specs.Prelude.{◌≤◌, ◌<◌, ◌≡◌, length};
ghost use Rattle.io.specs.Counts.{IsPrefixLen};
ghost use Rattle.terminal.specs.Input.{whole_groups, reads_on};

use crate::failure::tell;
use crate::group::group_end;
use crate::retry::passes;
use crate::turns::TURNS;
use std::io::Read;

// Reads once, and then what the last group still lacks (a size of 0 counts as 1), until what came is whole groups, the buffer is full,
// or the input ends or fails; answers how many bytes came. 0, or a count that is not whole groups, says that the input has ended. A failure
// is told. 0 says both, here and in `read_some`: the end and a failure both end the input, and the failure is told.
// The count is no index that runs through the buffer: it goes on by what each read brought.
pub fn fill(rt: HostRuntime, buf: &mut [u8], size: usize) -> usize
    ensures { IsPrefixLen result buf.new }
{
    let mut done: usize = 0;
    while done < buf.len() {
        let end = wanted(done, size, buf.len());
        let more = read_some(rt, &mut buf[done..end]);
        if more == 0 {
            return done;
        }
        done += more;
        if whole(done, size) {
            return done;
        }
    }
    done
}

// Up to where to read, after so many bytes: as far as the buffer goes at first, and then to the end of the group that was begun.
fn wanted(done: usize, size: usize, long: usize) -> usize
    requires { done < long }
    ensures { (done < result) × (result ≤ long) }
{
    if done == 0 || size == 0 {
        return long;
    }
    group_end(long, done, size - done % size)
}

// Whether to read on after so many bytes, by whether a write of the output has failed.
#[tactic(auto, unfolding(crate::specs::Input::reads_on))]
pub fn reads_on(count: usize, size: usize, failed: bool) -> bool
    ensures { result ≡ reads_on count size failed }
{
    if count == 0 {
        return false;
    }
    if failed {
        return false;
    }
    whole(count, size)
}

#[tactic(auto, unfolding(crate::specs::Input::whole_groups))]
fn whole(count: usize, size: usize) -> bool
    ensures { result ≡ whole_groups count size }
{
    if size == 0 {
        return true;
    }
    count % size == 0
}

// One read, made again where its failure passes; 0 at the end of the input. The turns are counted, as in a program's loop.
fn read_some(rt: HostRuntime, buf: &mut [u8]) -> usize
    ensures { result ≤ length buf.old }
{
    for _ in 0..TURNS {
        match rt.stdin().read(buf) {
            Ok(got) => return got,
            Err(error) => {
                if !passes(rt, error) {
                    tell(rt, b"standard input", error);
                    return 0;
                }
            },
        }
    }
    0
}
