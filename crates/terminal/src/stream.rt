// The two streams that a program writes to. Bytes are written out whole, however slowly they are taken.
ghost use Rattle.std.specs.Prelude.{◌<◌, ◌≤◌, length, IfOk};

use crate::failure::tell;
use crate::retry::passes;
use crate::turns::TURNS;
use std::io;

// Standard output or standard error, with the handle that reaches it.
#[derive(Clone, Copy)]
pub enum Stream {
    Output(HostRuntime),
    Error(HostRuntime),
}

// A write failed, and that was told.
#[derive(Clone, Copy)]
pub(crate) struct Failed;

// No failure of the system's: a write took nothing.
const NO_ERROR: i32 = 0;

impl Stream {
    // Writes all of a text, in as many writes as it takes.
    pub(crate) fn write_whole(self, s: &[u8]) -> Result<(), Failed> {
        let mut rest = s;
        while !rest.is_empty() {
            let taken = self.write_some(rest)?;
            rest = &rest[taken..];
        }
        Ok(())
    }

    // One write of something, made again where its failure passes. `input.rt` reads so. One function for both would take a closure, which
    // says no more of what came or went than that it was called: no plainer.
    fn write_some(self, s: &[u8]) -> Result<usize, Failed>
        ensures { IfOk result (λ n. (0 < n) × (n ≤ length s.now)) }
    {
        for _ in 0..TURNS {
            match self.write(s) {
                // A write that takes nothing is no better the next time.
                Ok(0) => return Err(self.told(io::Error::from_raw_os_error(NO_ERROR))),
                Ok(taken) => return Ok(taken),
                Err(error) => {
                    if !passes(self.runtime(), error) {
                        return Err(self.told(error));
                    }
                },
            }
        }
        Err(Failed)
    }

    // One write, of some of the bytes.
    fn write(self, s: &[u8]) -> io::Result<usize>
        ensures { IfOk result (λ n. n ≤ length s.now) }
    {
        match self {
            Stream::Output(rt) => rt.stdout().write_some(s),
            Stream::Error(rt) => rt.stderr().write_some(s),
        }
    }

    // A failure of standard output is told. There is nowhere to tell that standard error fails.
    fn told(self, error: io::Error) -> Failed {
        if let Stream::Output(rt) = self {
            tell(rt, b"standard output", error);
        }
        Failed
    }

    // The handle alone.
    fn runtime(self) -> HostRuntime {
        match self {
            Stream::Output(rt) | Stream::Error(rt) => rt,
        }
    }
}
