// The columns of a state in what the programs print: the head of each, and the numbers under it (State).
ghost use Rattle.std.specs.Prelude.{◌≡◌};
ghost use Rattle.names.specs.Columns.{desk_columns, listing_columns};

use state::State;

pub const DESK_HEAD: [u8; 41] = *b"mode lci lpa lpm saa lciw lpaw too arm ev";

pub const LISTING_HEAD: [u8; 24] = *b"mode lci lpa saa too arm";

pub fn desk_columns(state: State) -> [u32; 10]
    ensures { result ≡ desk_columns state }
{
    [
        u32::from(u16::from(state.mode)),
        u32::from(u16::from(state.lci)),
        u32::from(u16::from(state.lpa)),
        u32::from(u16::from(state.lpa_mode)),
        u32::from(state.saa),
        u32::from(state.lci_awaited),
        u32::from(state.lpa_awaited),
        u32::from(u16::from(state.too)),
        state.armed,
        state.count,
    ]
}

pub fn listing_columns(state: State) -> [u32; 6]
    ensures { result ≡ listing_columns state }
{
    [
        u32::from(u16::from(state.mode)),
        u32::from(u16::from(state.lci)),
        u32::from(u16::from(state.lpa)),
        u32::from(state.saa),
        u32::from(u16::from(state.too)),
        state.armed,
    ]
}
