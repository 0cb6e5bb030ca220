// What failed and why, in a line on standard error.
ghost use Rattle.std.specs.Prelude.{◌≡◌, length, take};

use crate::buffer::Buffer;
use std::fmt::Write;
use std::io;

// As long as any text of the system's, with its number.
const LONGEST: usize = 128;

// What failed, as the caller names it, a colon and the system's text of the error.
pub(crate) fn tell(rt: HostRuntime, what: &[u8], error: io::Error) {
    let mut said = Buffer::<LONGEST>::new();
    let _ = write!(said, "{error}");
    say(rt, what);
    say(rt, b": ");
    say(rt, before_number(said.as_slice()));
    say(rt, b"\n");
}

// The text of an error ends where its number stands, as in `Is a directory (os error 21)`.
fn before_number(text: &[u8]) -> &[u8]
    ensures { result.now ≡ take (length result.now) text.now }
{
    match text.iter().rposition(|b| *b == b'(') {
        Some(at) => &text[..at.saturating_sub(1)],
        None => text,
    }
}

// There is nowhere to tell that standard error fails.
pub(crate) fn say(rt: HostRuntime, s: &[u8]) {
    let _ = rt.stderr().write_all(s);
}
