// Events through a fresh manager: a line an event (One listing, whole).
#![tactic(auto)]

use blocks::{BLOCK, Head};
use kinds::Answer;
use layout::EVENT;
use manager::Manager;
use terminal::{Output, Stream, Takes};

// Many events at a time.
const PIECE: usize = 4096 * EVENT;

// The manager after the events so far, with the block it is lent.
#[derive(Drop)]
struct Listing {
    manager: Manager,
    block: [u8; BLOCK],
}

// Asked here and not by a function for all programs: what it ran would be a closure, and known as callable only by a clause.
fn main(rt: HostRuntime) {
    if terminal::none_given(rt) {
        list_all(rt);
    } else {
        terminal::tell_use(
            rt,
            b"listing: use: listing, events on standard input; it takes no words\n",
        );
    }
}

fn list_all(rt: HostRuntime) {
    let mut listing = Listing {
        manager: Manager::fresh(0),
        block: [0; BLOCK],
    };
    let mut piece = [0u8; PIECE];
    let mut out = Output::new(Stream::Output(rt));
    out.text(b"ev st ");
    out.text(&names::LISTING_HEAD);
    out.text(b" rec\n");
    terminal::each_piece(rt, &mut listing, &mut piece, EVENT, &mut out);
}

// The events of a piece; what is left at its end is shorter than an event.
impl Takes for Listing {
    fn take(&mut self, _rt: HostRuntime, piece: &[u8], out: &mut Output) {
        for event in piece.chunks(EVENT) {
            self.list(event, out);
        }
    }
}

impl Listing {
    fn list(&mut self, event: &[u8], out: &mut Output) {
        let before = self.manager.core.head;
        let stepped = self.manager.step(event, &mut self.block);
        let after = stepped.manager.core;
        self.manager = stepped.manager;
        match stepped.answer {
            Answer::Taken(_) => out.number(u64::from(after.state.count)),
            _ => out.byte(b'-'),
        }
        out.column(u32::from(u16::from(stepped.answer)));
        out.columns(&names::listing_columns(after.state));
        out.column(added(before, after.head, stepped.written));
        out.byte(b'\n');
    }
}

// The records that an event put into the log: all of the open block's where the event began it.
fn added(before: Head, after: Head, written: bool) -> u32 {
    let begun = if written { 0 } else { before.used };
    u32::from(after.used.saturating_sub(begun))
}
