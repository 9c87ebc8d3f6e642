// One block: whether it is of the asked type and fit to be read, its fields and its time, in both readings.
// Port of: xr/mod.rs XrBlock::parse_into; the parse functions and accessors of rle.rs, packet_receipt_time.rs,
// receiver_reference_time.rs, dlrr.rs.
#![tactic(auto)]

ghost use Rattle.std.specs.Prelude.{◌≡◌, ◌≤◌, leb, length};
ghost use Rattle.def_refusals.specs.Answers.{then_check};
ghost use Rattle.def_wire.specs.Block.{type_of, block_length, words_at, clear_rule, check_of, is_cut, fields_at, fields_of};
ghost use Rattle.def_wire.specs.Block.{time_of};
ghost use Rattle.def_questions.specs.Packets.{fields_asked, time_asked};
ghost use Rattle.block.specs.Lengths.{length_check};

use def_refusals::Refusal;
use def_wire::{Fields, Kind, LongTime, Ranged, Reading, Rle};
use records::{
    DelaySinceLastReceiverReport, PacketReceiptTimes, ReceiverReferenceTime, StatisticsSummary,
};

// A length rule: it holds, or 7.
fn rule(ok: bool, expected: usize, actual: usize) -> Result<(), Refusal>
    ensures { result ≡ Rattle.def_wire.specs.Block.rule ok expected actual }
{
    if ok {
        return Ok(());
    }
    Err(Refusal::BadBlockLength(expected, actual))
}

// The type and the length L that a view's header bytes say.
fn type_of(v: &[u8]) -> u8
    ensures { result ≡ type_of v.now }
{
    xr::block_type(xr::header_data(v))
}

fn length_of(v: &[u8]) -> usize
    ensures { (result ≡ block_length v.now) × (result ≤ 262144) }
{
    xr::block_length(xr::header_data(v))
}

// 10, with the block's own type.
fn other(t: u8) -> Result<(), Refusal>
    ensures { result ≡ Err (Refusal.OtherType t) }
{
    Err(Refusal::OtherType(t as usize))
}

// In the standard reading: 10, then 7 by the length, of a block's view, asked as type 1 or 2. Its words are not looked
// at: that is for a list, which goes over them anyway.
pub fn check_length(a: Rle, v: &[u8]) -> Result<(), Refusal>
    ensures { result ≡ length_check a v.now }
{
    let t = type_of(v);
    if t != records::rle_type(a) {
        return other(t);
    }
    rule(12 <= v.len(), 12, v.len())
}

// 7, by the length and then by the words: one pass over them (word_scan).
fn check_words(v: &[u8]) -> Result<(), Refusal>
    ensures { result ≡ then_check (Rattle.def_wire.specs.Block.rule (leb 12 (length v.now)) 12 (length
        v.now)) (clear_rule (length v.now) (words_at v.now)) }
{
    if v.len() < 12 {
        return rule(false, 12, v.len());
    }
    let lost = word_scan::has_lost_run(utils::part(v, 12, v.len()));
    rule(!lost, 12, v.len())
}

// 10, then 7, of a block's view, asked as type 1 or 2. In the standard reading this is a pass over the block's words,
// for a run of ones of no length.
pub fn check_chunks(r: Reading, a: Rle, v: &[u8]) -> Result<(), Refusal>
    ensures { result ≡ check_of r (Kind.Spans (Ranged.Chunks a)) v.now }
{
    let t = type_of(v);
    if t != records::rle_type(a) {
        return other(t);
    }
    match r {
        Reading::Standard => check_words(v),
        Reading::Crate => {
            let l = length_of(v);
            rule(12 <= l, 12, l)
        }
    }
}

// The same, asked as type 3.
pub fn check_times(r: Reading, v: &[u8]) -> Result<(), Refusal>
    ensures { result ≡ check_of r (Kind.Spans Ranged.Times) v.now }
{
    let t = type_of(v);
    if t != PacketReceiptTimes::BLOCK_TYPE {
        return other(t);
    }
    match r {
        Reading::Standard => rule(12 <= v.len(), 12, v.len()),
        Reading::Crate => Ok(()),
    }
}

// As type 4.
pub fn check_clock(r: Reading, v: &[u8]) -> Result<(), Refusal>
    ensures { result ≡ check_of r Kind.Clock v.now }
{
    let t = type_of(v);
    if t != ReceiverReferenceTime::BLOCK_TYPE {
        return other(t);
    }
    match r {
        Reading::Standard => rule(v.len() == 12, 12, v.len()),
        Reading::Crate => rule(12 <= v.len(), 12, v.len()),
    }
}

// As type 5.
pub fn check_echoes(r: Reading, v: &[u8]) -> Result<(), Refusal>
    ensures { result ≡ check_of r Kind.Echoes v.now }
{
    let t = type_of(v);
    if t != DelaySinceLastReceiverReport::BLOCK_TYPE {
        return other(t);
    }
    match r {
        Reading::Standard => {
            let over = v.len().saturating_sub(4) % 12;
            rule(over == 0, v.len() + (12 - over) % 12, v.len())
        }
        Reading::Crate => {
            if v.len() < 16 {
                return rule(false, 16, v.len());
            }
            let l = length_of(v);
            rule(l % 16 == 0, l + l % 16, v.len())
        }
    }
}

// As type 6, for which the crate has no question.
pub fn check_statistics(r: Reading, v: &[u8]) -> Result<(), Refusal>
    ensures { result ≡ check_of r Kind.Statistics v.now }
{
    let t = type_of(v);
    if t != StatisticsSummary::BLOCK_TYPE {
        return other(t);
    }
    match r {
        Reading::Standard => rule(v.len() == 40, 40, v.len()),
        Reading::Crate => other(t),
    }
}

// The same, asked as a kind. Port of: XrBlock::parse_into.
pub fn check(r: Reading, k: Kind, v: &[u8]) -> Result<(), Refusal>
    ensures { result ≡ check_of r k v.now }
{
    match k {
        Kind::Spans(g) => check_range(r, g, v),
        Kind::Clock => check_clock(r, v),
        Kind::Echoes => check_echoes(r, v),
        Kind::Statistics => check_statistics(r, v),
    }
}

fn check_range(r: Reading, g: Ranged, v: &[u8]) -> Result<(), Refusal>
    ensures { result ≡ check_of r (Kind.Spans g) v.now }
{
    match g {
        Ranged::Chunks(a) => check_chunks(r, a, v),
        Ranged::Times => check_times(r, v),
    }
}

// SSRC, begin, end and thinning as they stand.
pub fn fields_at(v: &[u8]) -> Fields
    ensures { result ≡ fields_at v.now }
{
    let h = xr::header_data(v);
    Fields {
        ssrc: utils::u32_from_be_bytes(v, 4),
        begin: utils::u16_from_be_bytes(v, 8),
        end: utils::u16_from_be_bytes(v, 10),
        thinning: xr::type_specific_byte(h) % 16,
    }
}

// The fields of a block of type 1, 2 or 3, asked as one of these: 10, 7, 8.
pub fn fields(r: Reading, g: Ranged, v: &[u8]) -> Result<Fields, Refusal>
    ensures { result ≡ fields_of r g v.now }
{
    check_range(r, g, v)?;
    if is_cut(r, g, v.len()) {
        return Err(Refusal::NoFields(v.len()));
    }
    Ok(fields_at(v))
}

// 8: the crate's fields of a type 3 block of which less than 12 bytes are left.
fn is_cut(r: Reading, g: Ranged, left: usize) -> bool
    ensures { result ≡ is_cut r g left }
{
    match r {
        Reading::Standard => false,
        Reading::Crate => match g {
            Ranged::Chunks(_) => false,
            Ranged::Times => left < 12,
        },
    }
}

// The time of a block of type 4: 10, 7.
pub fn time(r: Reading, v: &[u8]) -> Result<LongTime, Refusal>
    ensures { result ≡ time_of r v.now }
{
    check_clock(r, v)?;
    Ok(LongTime(utils::u64_from_be_bytes(v, 4)))
}

// The fields of block k of a packet: 1 to 6, 9, 10, 7, 8.
pub fn fields_in(r: Reading, s: &[u8], k: usize, g: Ranged) -> Result<Fields, Refusal>
    ensures { result ≡ fields_asked r s.now k g }
{
    let (at, n) = xr::locate(r, s, k)?;
    fields(r, g, utils::part(s, at, n))
}

// The time of block k of a packet: 1 to 6, 9, 10, 7.
pub fn time_in(r: Reading, s: &[u8], k: usize) -> Result<LongTime, Refusal>
    ensures { result ≡ time_asked r s.now k }
{
    let (at, n) = xr::locate(r, s, k)?;
    time(r, utils::part(s, at, n))
}
