// Text and numbers for a stream, put into a buffer that is written out whenever it is full.
ghost use Rattle.std.specs.Prelude.{◌≡◌, ◌<◌, ◌≤◌, ◌+◌, [], ◌∷◌, ◌++◌, length, true, false};

use crate::buffer::Buffer;
use crate::stream::Stream;

// The buffer's length.
pub const BUFFER: usize = 65536;

// What waits to be written. Once a write has failed, which is told, nothing more is put or written.
#[derive(Drop)]
pub struct Output {
    to: Stream,
    waiting: Buffer<BUFFER>,
    // It stays, as C's `ferror` has it (D-71).
    failed: bool,
    pub ghost within: { length waiting ≤ 65536 },
}

// `stays_failed` and `stream` stand in each contract here that changes an output: they are of two values, and an invariant is of one.
impl Output {
    pub fn new(to: Stream) -> Self
        ensures nothing { result.waiting ≡ [] }
        ensures whole { result.failed ≡ false }
        ensures stream { result.to ≡ to }
    {
        Output {
            to,
            waiting: Buffer::new(),
            failed: false,
        }
    }

    // Whether a write has failed.
    pub fn failed(&self) -> bool
        ensures { result ≡ self.now.failed }
    {
        self.failed
    }

    // One byte more. A buffer that is full is written out first.
    pub fn byte(&mut self, b: u8)
        ensures placed { self.old.failed ≡ false → length self.old.waiting < 65536 →
            (self.new.waiting ≡ self.old.waiting ++ b ∷ []) × (self.new.failed ≡ false) }
        ensures stays_failed { self.old.failed ≡ true → self.new ≡ self.old }
        ensures stream { self.new.to ≡ self.old.to }
    {
        if !self.failed && !self.waiting.push(b) {
            self.text_next(&[b]);
        }
    }

    // A text more. Where it does not fit, the buffer is written out first; a text longer than the buffer goes straight out.
    pub fn text(&mut self, s: &[u8])
        ensures placed { self.old.failed ≡ false → length self.old.waiting + length s.now ≤ 65536 →
            (self.new.waiting ≡ self.old.waiting ++ s.now) × (self.new.failed ≡ false) }
        ensures stays_failed { self.old.failed ≡ true → self.new ≡ self.old }
        ensures stream { self.new.to ≡ self.old.to }
    {
        if !self.failed && !self.waiting.add(s) {
            self.text_next(s);
        }
    }

    // A text that does not fit after what is there.
    fn text_next(&mut self, s: &[u8])
        ensures stays_failed { self.old.failed ≡ true → self.new ≡ self.old }
        ensures stream { self.new.to ≡ self.old.to }
    {
        self.flush();
        if !self.failed && !self.waiting.add(s) {
            self.failed = self.to.write_whole(s).is_err();
        }
    }

    // A number in decimal. No `write!`, for speed, and since `fmt` promises nothing of `failed`.
    pub fn number(&mut self, n: u64)
        ensures stays_failed { self.old.failed ≡ true → self.new ≡ self.old }
        ensures stream { self.new.to ≡ self.old.to }
    {
        if n < 10 {
            return self.byte(b'0' + n as u8);
        }
        let mut digits = [0u8; 20];
        let k = io::decimal(n, &mut digits);
        self.text(&digits[..k]);
    }

    // A number after a blank.
    pub fn column(&mut self, n: u32)
        ensures stays_failed { self.old.failed ≡ true → self.new ≡ self.old }
        ensures stream { self.new.to ≡ self.old.to }
    {
        self.byte(b' ');
        self.number(u64::from(n));
    }

    // Each of some numbers after a blank.
    pub fn columns(&mut self, numbers: &[u32])
        ensures stays_failed { self.old.failed ≡ true → self.new ≡ self.old }
        ensures stream { self.new.to ≡ self.old.to }
    {
        for n in numbers {
            self.column(*n);
        }
    }

    // Writes out what waits; nothing waits then.
    pub fn flush(&mut self)
        ensures stays_failed { self.old.failed ≡ true → self.new ≡ self.old }
        ensures stream { self.new.to ≡ self.old.to }
        ensures emptied { self.new.failed ≡ false → self.new.waiting ≡ [] }
        ensures given_up { self.old.failed ≡ false → self.new.waiting ≡ [] }
    {
        if self.failed {
            return;
        }
        self.failed = self.to.write_whole(self.waiting.as_slice()).is_err();
        self.waiting.clear();
    }
}
