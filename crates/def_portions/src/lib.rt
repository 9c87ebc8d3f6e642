// What a packet that comes in portions shows (RULES, "Packets in portions"). Definitions only: see specs/.
#![tactic(auto)]

use def_standard::{Echo, Receipt};
use def_wire::{Fields, LongTime, Summary};

#[derive(Clone, Copy)]
pub enum Event {
    // the length that the header announces, the sender's SSRC
    Header(u32, u32),
    // a block's type and its length L
    Start(u8, u32),
    // the same of types 1 to 3, and their fields
    Ranged(u8, u32, Fields),
    // what types 1 and 2, 3, 5, 4 and 6 show
    Number(u16),
    Pair(Receipt),
    Entry(Echo),
    Time(LongTime),
    Summed(Summary),
    // the announced length's last byte has come
    End,
}
