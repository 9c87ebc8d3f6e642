// Why a question is refused. An answer is a Result: what is shown, a count (of blocks, of items listed, of bytes
// written) or nothing but that all is fine, or else a Refusal.
// Definitions only: specs/Numbers.antt gives each case RULES' number and its two values.
#![tactic(auto)]

// One case for each row of RULES' table, in the table's order.
#[derive(Clone, Copy)]
pub enum Refusal {
    // 1: least, actual
    TooShort(usize, usize),
    // 2
    WrongVersion,
    // 3
    WrongPacketType,
    // 4: the length that the header announces, actual
    WrongLength(usize, usize),
    // 5: the padding count
    BadPadding(usize),
    // 6: the block's length, what is left for blocks
    BlockTooLong(usize, usize),
    // 9: how many blocks there are
    NoBlock(usize),
    // 10: the block's type
    OtherType(usize),
    // 7: expected, actual
    BadBlockLength(usize, usize),
    // 8: what is left of the packet
    NoFields(usize),
    // 16
    NoPlace,
    // 11: needed, lent
    NoRoom(usize, usize),
    // 13: the value
    ValueTooLarge(usize),
    // 12: the record's index
    BadRecord(usize),
    // 14: found, limit
    TooMany(usize, usize),
    // 15: the block's index
    Misleads(usize),
    // 17: the mark's index
    BadMark(usize),
    // 18
    Padded,
    // 19: the length that the header announces, the bytes given in all
    PastEnd(usize, usize),
}

// RULES' number and two values.
#[derive(Clone, Copy)]
pub struct Numbered {
    pub number: u8,
    pub first: usize,
    pub second: usize,
}
