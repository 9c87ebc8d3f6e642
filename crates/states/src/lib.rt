// The state of a packet that comes in portions (RULES, "Packets in portions"). A packet is a row of items, each of a
// known number of bytes: the state has the item at hand, how many of its bytes are missing and those that have come,
// and what the items behind it need to know. Nothing else of the packet is kept: it is 96 bytes, whatever the packet.
// Definitions only: see specs/.
#![tactic(auto)]

use def_refusals::Refusal;

// The items, in the order in which a packet can have them. Numbers and no enum: C holds the state (xr_portions), with
// the item as a byte, and may hand in any.
pub const HEAD: u8 = 0;

pub const SENDER: u8 = 1;

pub const BLOCK: u8 = 2;

pub const FIELDS: u8 = 3;

pub const WORD: u8 = 4;

pub const TIME: u8 = 5;

pub const WHOSE: u8 = 6;

pub const ECHO: u8 = 7;

pub const CLOCK: u8 = 8;

pub const SKIPPED: u8 = 9;

pub const OVER: u8 = 10;

// A summary's numbers, eight bytes four times, and the four bytes of TTL or hop limit behind them.
pub const SUMS: u8 = 11;

pub const HOPS: u8 = 12;

// The last four items of eight bytes of a summary, the last one last.
#[repr(C)]
#[derive(Clone, Copy)]
pub struct Kept {
    pub first: u64,
    pub second: u64,
    pub third: u64,
    pub fourth: u64,
}

// What the items behind the one at hand need to know.
#[repr(C)]
#[derive(Clone, Copy)]
pub struct Known {
    // the length that the header announces, from the packet's fourth byte on
    pub announced: u32,
    // the four header bytes of the block at hand
    pub block: u32,
    // the SSRC of the entry at hand
    pub whose: u32,
    // the next position's number, and how many positions are inside from it on
    pub next: u16,
    pub inside: usize,
    // the numbers of the summary at hand
    pub kept: Kept,
}

// Where a packet that comes in portions stands.
#[repr(C)]
#[derive(Clone, Copy)]
pub struct Portions {
    // the bytes of the item at hand that have come, as a number
    pub held: u64,
    // how many of its bytes are missing; none where no more bytes are taken
    pub missing: usize,
    // how many bytes of the block stand behind it, and how many of the packet behind the block
    pub rest: usize,
    pub behind: usize,
    pub known: Known,
    pub item: u8,
}

// The state behind an item that may be complete, and how many events it shows.
#[derive(Clone, Copy)]
pub struct Settled {
    pub state: Portions,
    pub events: usize,
}

// A call's answer: the state behind it, how many of its bytes were taken (all or none), how many events it listed, and
// why it, or the packet, is refused.
#[derive(Clone, Copy)]
pub struct Followed {
    pub state: Portions,
    pub taken: usize,
    pub events: usize,
    pub refusal: Result<(), Refusal>,
}
