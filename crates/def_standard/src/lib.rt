// The types that the definitions of the standard reading speak of. Definitions only: see specs/.
#![tactic(auto)]

use def_wire::{ReceiptTime, ShortTime};

// A chunk word's kind (RFC 3611, 4.1.1 to 4.1.3). Port of: rle.rs RleChunk.
#[derive(Clone, Copy)]
pub enum Chunk {
    Null,
    // a run of zeros and its length
    Skip(u32),
    // a run of ones and its length
    Run(u32),
    // 15 bits, most significant first
    Vector(u32),
}

// The sequence numbers that a block reports on.
#[derive(Clone, Copy)]
pub struct Range {
    // the first of them, position 0
    pub begin: u16,
    // how many numbers there are from it to before the block's end
    pub size: usize,
    // every 2 to the thinning is reported
    pub thinning: u8,
}

// A sequence number and when its packet came.
#[derive(Clone, Copy)]
pub struct Receipt {
    pub number: u16,
    pub time: ReceiptTime,
}

// A clock echo: whose, the middle bits of its last reference time, and how long ago that came.
#[derive(Clone, Copy)]
pub struct Echo {
    pub ssrc: u32,
    pub last: ShortTime,
    pub delay: ShortTime,
}
