// A text of events, one to a line, made into their bytes (Events). A line that cannot be read is told on standard error.
#![tactic(auto)]

use names::Expected;
use terminal::{Buffer, Messages, Output, Stream, Takes};

const PIECE: usize = 65536;

// A line before its comment.
const LONGEST: usize = 256;

// What some editors put at the start of a text: a byte order mark.
const MARK: [u8; 3] = [0xEF, 0xBB, 0xBF];

// What has come of the line before its comment, whether that is too long, whether the comment has begun, whether the text has begun
// (a byte order mark is looked for no more), the line's number, and the lines that could not be read. The three flags end at different
// places, so that no enum of states is plainer.
#[derive(Drop)]
struct Text {
    line: Buffer<LONGEST>,
    long: bool,
    comment: bool,
    begun: bool,
    number: u64,
    wrong: Messages,
}

// Asked here and not by a function for all programs: what it ran would be a closure, and known as callable only by a clause.
fn main(rt: HostRuntime) {
    if terminal::none_given(rt) {
        assemble_all(rt);
    } else {
        terminal::tell_use(
            rt,
            b"assemble: use: assemble, a text of events on standard input; it takes no words\n",
        );
    }
}

fn assemble_all(rt: HostRuntime) {
    let mut text = Text {
        line: Buffer::new(),
        long: false,
        comment: false,
        begun: false,
        number: 1,
        wrong: Messages::none(),
    };
    let mut piece = [0u8; PIECE];
    let mut out = Output::new(Stream::Output(rt));
    terminal::each_piece(rt, &mut text, &mut piece, 1, &mut out);
    text.end_line(rt, &mut out);
    out.flush();
    text.wrong.tell_rest(
        rt,
        b"assemble: ",
        b" more line could not be read\n",
        b" more lines could not be read\n",
    );
}

impl Takes for Text {
    fn take(&mut self, rt: HostRuntime, piece: &[u8], out: &mut Output) {
        for b in piece {
            self.take_byte(rt, *b, out);
        }
    }
}

impl Text {
    fn take_byte(&mut self, rt: HostRuntime, b: u8, out: &mut Output) {
        if b == b'\n' {
            return self.end_line(rt, out);
        }
        if self.comment {
            return;
        }
        if b == b'#' {
            self.comment = true;
        } else if !self.line.push(b) {
            self.long = true;
        } else if !self.begun {
            self.begin();
        }
    }

    // The first three bytes of a text are left out where they are a byte order mark.
    fn begin(&mut self) {
        let first = self.line.as_slice();
        if first.len() < MARK.len() {
            return;
        }
        let marked = first.starts_with(&MARK);
        self.begun = true;
        if marked {
            self.line.clear();
        }
    }

    // The end of a line: its event is written, or what is wrong is told.
    fn end_line(&mut self, rt: HostRuntime, out: &mut Output) {
        self.write(rt, out);
        self.line.clear();
        self.long = false;
        self.comment = false;
        self.begun = true;
        self.number = self.number.wrapping_add(1);
    }

    fn write(&mut self, rt: HostRuntime, out: &mut Output) {
        if self.long {
            return self.tell(rt, Expected::Short);
        }
        match names::read_line(self.line.as_slice()) {
            Ok(Some(event)) => out.text(&event),
            Ok(None) => {},
            Err(expected) => self.tell(rt, expected),
        }
    }

    // A line that could not be read is told by its number, and after twenty only counted.
    fn tell(&mut self, rt: HostRuntime, expected: Expected) {
        if self.wrong.one_more() {
            terminal::tell(rt, b"assemble: line ", self.number, said(expected));
        }
    }
}

fn said(expected: Expected) -> &'static [u8] {
    match expected {
        Expected::Name => b": expected an event's name, as TOOSTART, or raw\n",
        Expected::None => b": expected no number after this event's name\n",
        Expected::One => b": expected one number, 0 to 4294967295, after this event's name\n",
        Expected::Two => b": expected two numbers, 0 to 4294967295, after this event's name\n",
        Expected::Report => b": expected 1, good, or 0, failed, after this event's name\n",
        Expected::Raw => b": expected 24 hex digits after raw\n",
        Expected::Short => b": expected a line of at most 256 bytes before its comment\n",
    }
}
