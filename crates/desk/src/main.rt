// Strings as long as a block to a fresh ground reader: a line a string with what it answers and holds (The ground reader).
#![tactic(auto)]

use blocks::BLOCK;
use reader::Reader;
use terminal::{Output, Stream, Takes};

// Many strings at a time.
const PIECE: usize = 128 * BLOCK;

// The reader as it stands after the strings so far.
#[derive(Drop)]
struct Desk {
    reader: Reader,
}

fn main(rt: HostRuntime) {
    match terminal::only_number(rt) {
        Ok(log) => hear(rt, log),
        Err(_) => terminal::tell_use(
            rt,
            b"desk: use: desk LOG, blocks on standard input; LOG is the log's number, 0 to 4294967295, decimal or 0x and hex\n",
        ),
    }
}

fn hear(rt: HostRuntime, log: u32) {
    let mut desk = Desk {
        reader: Reader::fresh(log),
    };
    if desk.deliver_all(rt) {
        desk.sum_up(rt);
    }
}

// The strings of a piece; what is left at its end is shorter than a block, and delivered as it is.
impl Takes for Desk {
    fn take(&mut self, _rt: HostRuntime, piece: &[u8], out: &mut Output) {
        for string in piece.chunks(BLOCK) {
            self.deliver(string, out);
        }
    }
}

impl Desk {
    // Whether all lines went out. This and the sentence after it are not inlined, so that they use the same room on the stack.
    #[inline(never)]
    fn deliver_all(&mut self, rt: HostRuntime) -> bool {
        let mut piece = [0u8; PIECE];
        let mut out = Output::new(Stream::Output(rt));
        out.text(b"an next heard behind ");
        out.text(&names::DESK_HEAD);
        out.byte(b'\n');
        terminal::each_piece(rt, self, &mut piece, BLOCK, &mut out);
        !out.failed()
    }

    fn deliver(&mut self, string: &[u8], out: &mut Output) {
        let read = self.reader.read(string);
        let reader = read.reader;
        self.reader = reader;
        out.number(u64::from(u16::from(read.answer)));
        out.columns(&[reader.next, reader.heard, u32::from(reader.behind())]);
        out.columns(&names::desk_columns(reader.state));
        out.byte(b'\n');
    }

    // The sentence at the end, for people.
    #[inline(never)]
    fn sum_up(&self, rt: HostRuntime) {
        let mut line = Output::new(Stream::Error(rt));
        line.text(b"desk: the instrument is in mode ");
        line.text(names::mode(self.reader.state.mode));
        self.say_event(&mut line);
        self.say_behind(&mut line);
        line.flush();
    }

    fn say_event(&self, line: &mut Output) {
        match self.reader.state.count {
            0 => line.text(b" before any event"),
            count => {
                line.text(b" after event ");
                line.number(u64::from(count));
            },
        }
    }

    fn say_behind(&self, line: &mut Output) {
        let Reader { next, heard, .. } = self.reader;
        if heard <= next {
            return line.text(b", and the desk is not behind.\n");
        }
        let blocks = heard - next;
        line.text(b", and the desk is behind by ");
        line.number(u64::from(blocks));
        line.text(if blocks == 1 {
            b" block.\n"
        } else {
            b" blocks.\n"
        });
    }
}
