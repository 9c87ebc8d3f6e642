// The block records, each with its type number as a constant of its type and a constructor beside it, and the kind of
// a type number: what every crate that speaks of a block's type takes it from. Port of: the BLOCK_TYPE constants of
// loss_rle.rs, duplicate_rle.rs, packet_receipt_time.rs, receiver_reference_time.rs, dlrr.rs; differs: the trait with
// a constant is a constant of each record. The Rust has no type 6.
#![tactic(auto)]

ghost use Rattle.std.specs.Prelude.{◌≡◌};
ghost use Rattle.def_wire.specs.Block.{rle_type, ranged_type, kind_type, rle_of, ranged_of, kind_of, kind_in};

use def_wire::{Fields, Kind, LongTime, Ranged, Reading, Rle, Summary};

// Which packets were heard (RFC 3611, 4.1).
#[derive(Drop)]
pub struct LossRle {
    pub fields: Fields,
}

impl LossRle {
    pub const BLOCK_TYPE: u8 = 1;

    pub fn new(fields: Fields) -> Self
        ensures { result.fields ≡ fields }
    {
        LossRle { fields }
    }
}

// Which packets came once and not more often (RFC 3611, 4.2).
#[derive(Drop)]
pub struct DuplicateRle {
    pub fields: Fields,
}

impl DuplicateRle {
    pub const BLOCK_TYPE: u8 = 2;

    pub fn new(fields: Fields) -> Self
        ensures { result.fields ≡ fields }
    {
        DuplicateRle { fields }
    }
}

// When packets came (RFC 3611, 4.3).
#[derive(Drop)]
pub struct PacketReceiptTimes {
    pub fields: Fields,
}

impl PacketReceiptTimes {
    pub const BLOCK_TYPE: u8 = 3;

    pub fn new(fields: Fields) -> Self
        ensures { result.fields ≡ fields }
    {
        PacketReceiptTimes { fields }
    }
}

// The sender's clock (RFC 3611, 4.4).
#[derive(Drop)]
pub struct ReceiverReferenceTime {
    pub time: LongTime,
}

impl ReceiverReferenceTime {
    pub const BLOCK_TYPE: u8 = 4;

    pub fn new(time: LongTime) -> Self
        ensures { result.time ≡ time }
    {
        ReceiverReferenceTime { time }
    }
}

// Echoes of others' clocks (RFC 3611, 4.5): how many there are.
#[derive(Drop)]
pub struct DelaySinceLastReceiverReport {
    pub entries: usize,
}

impl DelaySinceLastReceiverReport {
    pub const BLOCK_TYPE: u8 = 5;

    pub fn new(entries: usize) -> Self
        ensures { result.entries ≡ entries }
    {
        DelaySinceLastReceiverReport { entries }
    }
}

// Loss, duplicates, jitter and hops in numbers (RFC 3611, 4.6).
#[derive(Drop)]
pub struct StatisticsSummary {
    pub summary: Summary,
}

impl StatisticsSummary {
    pub const BLOCK_TYPE: u8 = 6;

    pub fn new(summary: Summary) -> Self
        ensures { result.summary ≡ summary }
    {
        StatisticsSummary { summary }
    }
}

// The type number of a kind.
pub fn rle_type(a: Rle) -> u8
    ensures { result ≡ rle_type a }
{
    match a {
        Rle::Loss => LossRle::BLOCK_TYPE,
        Rle::Duplicate => DuplicateRle::BLOCK_TYPE,
    }
}

pub fn ranged_type(g: Ranged) -> u8
    ensures { result ≡ ranged_type g }
{
    match g {
        Ranged::Chunks(a) => rle_type(a),
        Ranged::Times => PacketReceiptTimes::BLOCK_TYPE,
    }
}

pub fn kind_type(k: Kind) -> u8
    ensures { result ≡ kind_type k }
{
    match k {
        Kind::Spans(g) => ranged_type(g),
        Kind::Clock => ReceiverReferenceTime::BLOCK_TYPE,
        Kind::Echoes => DelaySinceLastReceiverReport::BLOCK_TYPE,
        Kind::Statistics => StatisticsSummary::BLOCK_TYPE,
    }
}

// The kind of a type number, where it has one.
pub fn rle_of(t: u8) -> Option<Rle>
    ensures { result ≡ rle_of t }
{
    if t == LossRle::BLOCK_TYPE {
        return Some(Rle::Loss);
    }
    if t == DuplicateRle::BLOCK_TYPE {
        return Some(Rle::Duplicate);
    }
    None
}

pub fn ranged_of(t: u8) -> Option<Ranged>
    ensures { result ≡ ranged_of t }
{
    match rle_of(t) {
        Some(a) => Some(Ranged::Chunks(a)),
        None => {
            if t == PacketReceiptTimes::BLOCK_TYPE {
                return Some(Ranged::Times);
            }
            None
        }
    }
}

pub fn kind_of(t: u8) -> Option<Kind>
    ensures { result ≡ kind_of t }
{
    match ranged_of(t) {
        Some(g) => Some(Kind::Spans(g)),
        None => {
            if t == ReceiverReferenceTime::BLOCK_TYPE {
                return Some(Kind::Clock);
            }
            if t == DelaySinceLastReceiverReport::BLOCK_TYPE {
                return Some(Kind::Echoes);
            }
            if t == StatisticsSummary::BLOCK_TYPE {
                return Some(Kind::Statistics);
            }
            None
        }
    }
}

// The same of a reading: the crate has no type 6.
pub fn kind_in(r: Reading, t: u8) -> Option<Kind>
    ensures { result ≡ kind_in r t }
{
    let kind = kind_of(t);
    match r {
        Reading::Standard => kind,
        Reading::Crate => {
            if t == StatisticsSummary::BLOCK_TYPE {
                return None;
            }
            kind
        }
    }
}
