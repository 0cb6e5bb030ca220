// Strings of any content, each after its length in two bytes: a line a string with its check in hex (Log blocks).
#![tactic(auto)]

ghost use Rattle.std.specs.Prelude.{◌≡◌, ◌+◌, ◌*◌, ◌≤◌, length};

use terminal::{Output, Stream};

// The length of the longest string.
const LONGEST: usize = 65535;

// Asked here and not by a function for all programs: what it ran would be a closure, and known as callable only by a clause.
fn main(rt: HostRuntime) {
    if terminal::none_given(rt) {
        check_all(rt);
    } else {
        terminal::tell_use(
            rt,
            b"checks: use: checks, strings on standard input, each after its length in two bytes; it takes no words\n",
        );
    }
}

fn check_all(rt: HostRuntime) {
    let mut string = [0u8; LONGEST];
    let mut out = Output::new(Stream::Output(rt));
    for number in 1..=u64::MAX {
        if !one(rt, number, &mut string, &mut out) {
            return;
        }
    }
}

// Reads the string of this number and writes its check; whether there is a reason to go on.
// The parameters stay: no plainer, since the strings have lengths of their own, so that `each_piece` does not serve.
fn one(rt: HostRuntime, number: u64, string: &mut [u8; LONGEST], out: &mut Output) -> bool {
    let mut size = [0u8; 2];
    let came = terminal::fill(rt, &mut size, 2);
    if came == 0 {
        return false;
    }
    if came < 2 {
        cut(rt, number, came, 2, b" bytes of its length came\n");
        return false;
    }
    body(rt, number, string, joined(size[0], size[1]), out)
}

fn joined(high: u8, low: u8) -> usize
    ensures value { result ≡ high * 256 + low }
    ensures upper_bound { result ≤ 65535 }
{
    usize::from(u16::from_be_bytes([high, low]))
}

fn body(rt: HostRuntime, number: u64, string: &mut [u8], size: usize, out: &mut Output) -> bool
    requires { size ≤ length string.old }
{
    let came = terminal::fill(rt, &mut string[..size], size);
    if came < size {
        cut(rt, number, came, size, b" bytes came\n");
        return false;
    }
    line(frame_check::check(&string[..size]), out);
    !out.failed()
}

// Written out at once, since who sends strings one by one waits for it.
fn line(check: u16, out: &mut Output) {
    // The library's own form: it fills a buffer and says how far.
    let mut digits = [0u8; 16];
    let k = io::hex(u64::from(check), 4, &mut digits);
    out.text(&digits[..k]);
    out.byte(b'\n');
    out.flush();
}

// The input has ended inside a string.
fn cut(rt: HostRuntime, number: u64, came: usize, of: usize, what: &[u8]) {
    let mut said = Output::new(Stream::Error(rt));
    said.text(b"checks: string ");
    said.number(number);
    said.text(b" is cut: ");
    said.number(came as u64);
    said.text(b" of ");
    said.number(of as u64);
    said.text(what);
    said.flush();
}
