// The types that the definitions of the wire format speak of. Definitions only: see specs/.
#![tactic(auto)]

// Which of the two readings is asked.
#[derive(Clone, Copy)]
pub enum Reading {
    // RFC 3611, as RULES states it
    Standard,
    // the xr module of the Rust crate rtcp-types 0.3.0
    Crate,
}

// Types 1 and 2, run-length chunk words (RFC 3611, 4.1 and 4.2): what numbers, chunk words and the cursor are asked of.
#[derive(Clone, Copy)]
pub enum Rle {
    Loss,
    Duplicate,
}

// Types 1 to 3, which report on a range of sequence numbers (RFC 3611, 4.1 to 4.3): what fields are asked of.
#[derive(Clone, Copy)]
pub enum Ranged {
    Chunks(Rle),
    Times,
}

// Types 1 to 6, which have a length rule. Other types show type and length only.
#[derive(Clone, Copy)]
pub enum Kind {
    Spans(Ranged),
    Clock,
    Echoes,
    Statistics,
}

// What blocks of types 1, 2 and 3 begin with (RFC 3611, 4.1 to 4.3).
#[derive(Clone, Copy)]
pub struct Fields {
    pub ssrc: u32,
    pub begin: u16,
    pub end: u16,
    pub thinning: u8,
}

// A clock time of 32 bits before and 32 after the point (RFC 3611, 4.4; RFC 3550, 4).
#[derive(Clone, Copy)]
pub struct LongTime(pub u64);

// The middle 32 bits of such a time, 16 before and 16 after the point (RFC 3611, 4.5).
#[derive(Clone, Copy)]
pub struct ShortTime(pub u32);

// A time in the media stream's own clock (RFC 3611, 4.3).
#[derive(Clone, Copy)]
pub struct ReceiptTime(pub u32);

// Four numbers of a Statistics Summary block (RFC 3611, 4.6): of jitter, 32 bits each; of TTL or hop limit, a byte
// each.
#[derive(Clone, Copy)]
pub struct Spread {
    pub least: u32,
    pub most: u32,
    pub mean: u32,
    pub deviation: u32,
}

#[derive(Clone, Copy)]
pub struct ByteSpread {
    pub least: u8,
    pub most: u8,
    pub mean: u8,
    pub deviation: u8,
}

// All numbers of such a block as they stand, whatever its flags say.
#[derive(Clone, Copy)]
pub struct Sums {
    pub ssrc: u32,
    pub begin: u16,
    pub end: u16,
    pub lost: u32,
    pub duplicates: u32,
    pub jitter: Spread,
    pub hops: ByteSpread,
}

// What the two bits ToH say: 0 no numbers, 1 of TTL, 2 of hop limit; 3 is no number of RFC 3611's, and has none.
#[derive(Clone, Copy)]
pub enum HopsOr {
    NoHops,
    Ttl(ByteSpread),
    HopLimit(ByteSpread),
    Unknown,
}

// What a Statistics Summary block shows.
#[derive(Clone, Copy)]
pub struct Summary {
    pub ssrc: u32,
    pub begin: u16,
    pub end: u16,
    pub lost: Option<u32>,
    pub duplicates: Option<u32>,
    pub jitter: Option<Spread>,
    pub hops: HopsOr,
}
