// What to do where a read or a write fails: some failures pass.
use std::io::ErrorKind;
use std::time::Duration;
use std::{io, thread};

// Whether a call that just failed is to be made again: it was interrupted, or it would have had to wait, and waits a little here.
pub(crate) fn passes(rt: HostRuntime, error: io::Error) -> bool {
    match error.kind() {
        ErrorKind::Interrupted => true,
        ErrorKind::WouldBlock => {
            thread::sleep(&rt, Duration::from_millis(1));
            true
        }
        _ => false,
    }
}
