// A line to standard error, written at once so that lines of several programs do not mix.
use crate::buffer::Buffer;
use crate::stream::Stream;

const LINE: usize = 256;

// A text, a number and a text. A text that the line has no room for is left out.
pub fn tell(rt: HostRuntime, before: &[u8], n: u64, after: &[u8]) {
    let mut digits = [0u8; 20];
    let k = io::decimal(n, &mut digits);
    let mut line = Buffer::<LINE>::new();
    line.add(before);
    line.add(&digits[..k]);
    line.add(after);
    let _ = Stream::Error(rt).write_whole(line.as_slice());
}
