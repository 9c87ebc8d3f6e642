// The bytes of one block into a lent buffer (RFC 3611, 4; RULES, "Job lists and writing"). Port of: the
// `write_into_unchecked` of rle.rs, packet_receipt_time.rs, receiver_reference_time.rs and dlrr.rs; differs: a block's
// numbers come from a record's little-endian body.
#![tactic(auto)]

ghost use Rattle.std.specs.Prelude.{◌≡◌, true, ◌+◌, ◌*◌, ◌≤◌, length, replicate};
ghost use Rattle.laws.specs.Stores.{Wrote};
ghost use Rattle.def_jobs.specs.Jobs.{is_block_job};
ghost use Rattle.def_jobs.specs.Layout.{head, block_bytes};
ghost use Rattle.jobs.specs.Places.{job_of};
ghost use Rattle.block_size.specs.Judged.{Fielded};
ghost use Rattle.builder.specs.Blocks.{fields_in, fields_bytes, words_block, times_block, clock_block};
ghost use Rattle.builder.specs.Blocks.{echoes_block, counts_bytes, hops_bytes, sums_block};

use def_jobs::Layout;
use def_wire::{Kind, Ranged, Rle};
use records::{
    DelaySinceLastReceiverReport, PacketReceiptTimes, ReceiverReferenceTime, StatisticsSummary,
};

// A block's four header bytes, with so many bytes behind them (RFC 3611, 3).
fn put_head(out: &mut [u8], at: usize, kind: u8, specific: u8, behind: usize) -> usize
    requires { at + 4 ≤ length out.old }
    ensures { Wrote out.old at (head kind specific behind) out.new result }
{
    let words = behind / 4;
    out[at] = kind;
    out[at + 1] = specific;
    out[at + 2] = (words / 256 % 256) as u8;
    out[at + 3] = (words % 256) as u8;
    at + 4
}

// The header and the fields of a block of types 1 to 3; the thinning is the specific byte (RFC 3611, 4.1).
fn put_fields(out: &mut [u8], at: usize, kind: u8, body: &[u8], behind: usize) -> usize
    requires { (10 ≤ length body.now) × ((fields_in body.now).thinning ≤ 15) × (at + 12 ≤ length out.old) }
    ensures { Wrote out.old at (fields_bytes kind (fields_in body.now) behind)
        out.new result }
{
    let ssrc = put_head(out, at, kind, body[8], behind);
    swap::put_number(body, 0, out, ssrc);
    let begin = ssrc + 4;
    swap::put_word(body, 4, out, begin);
    let end = begin + 2;
    swap::put_word(body, 6, out, end);
    end + 2
}

// None, one or two zero words.
fn zero_words(out: &mut [u8], at: usize, words: usize) -> usize
    requires { (words ≤ 2) × (at + 2 * words ≤ length out.old) }
    ensures { Wrote out.old at (replicate (2 * words) 0) out.new result }
{
    if words == 0 {
        return at;
    }
    out[at] = 0;
    out[at + 1] = 0;
    if words == 1 {
        return at + 2;
    }
    out[at + 2] = 0;
    out[at + 3] = 0;
    at + 4
}

// A block of type 1 or 2: fields, words, and the zero words behind them. Port of: rle.rs RleBuilder; differs: the
// careful layout is the same with another count of zero words.
fn write_words(layout: Layout, a: Rle, body: &[u8], out: &mut [u8], at: usize) -> usize
    requires { Fielded body.now 2 × (at + length (words_block a layout body.now) ≤ length out.old) }
    ensures { Wrote out.old at (words_block a layout body.now) out.new result }
{
    let zeros = block_size::zeros_behind(layout, body);
    let words = put_fields(
        out,
        at,
        records::rle_type(a),
        body,
        body.len() - 2 + 2 * zeros,
    );
    let end = swap::swap16(body, 10, out, words);
    zero_words(out, end, zeros)
}

// A block of type 3: fields and times. Port of: packet_receipt_time.rs PacketReceiptTimesBuilder.
fn write_times(body: &[u8], out: &mut [u8], at: usize) -> usize
    requires { Fielded body.now 4 × (at + length (times_block body.now) ≤ length out.old) }
    ensures { Wrote out.old at (times_block body.now) out.new result }
{
    let times = put_fields(
        out,
        at,
        PacketReceiptTimes::BLOCK_TYPE,
        body,
        body.len() - 2,
    );
    swap::swap32(body, 10, out, times)
}

// A block of type 4: one 64-bit time. Port of: receiver_reference_time.rs ReceiverReferenceTimeBuilder.
fn write_clock(body: &[u8], out: &mut [u8], at: usize) -> usize
    requires { (length body.now ≡ 8) × (at + 12 ≤ length out.old) }
    ensures { Wrote out.old at (clock_block body.now) out.new result }
{
    let high = put_head(out, at, ReceiverReferenceTime::BLOCK_TYPE, 0, 8);
    swap::put_number(body, 4, out, high);
    let low = high + 4;
    swap::put_number(body, 0, out, low);
    low + 4
}

// A block of type 5: entries of three 32-bit numbers. Port of: dlrr.rs DelaySinceLastReceiverReportBuilder.
fn write_echoes(body: &[u8], out: &mut [u8], at: usize) -> usize
    requires { at + length (echoes_block body.now) ≤ length out.old }
    ensures { Wrote out.old at (echoes_block body.now) out.new result }
{
    let entries = put_head(
        out,
        at,
        DelaySinceLastReceiverReport::BLOCK_TYPE,
        0,
        body.len(),
    );
    swap::swap32(body, 0, out, entries)
}

// The six 32-bit numbers of a summary: lost, duplicates and jitter.
fn put_counts(body: &[u8], out: &mut [u8], at: usize) -> usize
    requires { (length body.now ≡ 38) × (at + 24 ≤ length out.old) }
    ensures { Wrote out.old at (counts_bytes body.now) out.new result }
{
    swap::put_number(body, 10, out, at);
    swap::put_number(body, 14, out, at + 4);
    swap::put_number(body, 18, out, at + 8);
    swap::put_number(body, 22, out, at + 12);
    swap::put_number(body, 26, out, at + 16);
    swap::put_number(body, 30, out, at + 20);
    at + 24
}

// Its four bytes of TTL or hop limit.
fn put_hops(body: &[u8], out: &mut [u8], at: usize) -> usize
    requires { (length body.now ≡ 38) × (at + 4 ≤ length out.old) }
    ensures { Wrote out.old at (hops_bytes body.now) out.new result }
{
    out[at] = body[34];
    out[at + 1] = body[35];
    out[at + 2] = body[36];
    out[at + 3] = body[37];
    at + 4
}

// A block of type 6: its flags and all its numbers (RFC 3611, 4.6). The Rust has none.
fn write_sums(body: &[u8], out: &mut [u8], at: usize) -> usize
    requires { (length body.now ≡ 38) × (at + 40 ≤ length out.old) }
    ensures { Wrote out.old at (sums_block body.now) out.new result }
{
    let ssrc = put_head(out, at, StatisticsSummary::BLOCK_TYPE, body[0], 36);
    swap::put_number(body, 2, out, ssrc);
    let begin = ssrc + 4;
    swap::put_word(body, 6, out, begin);
    let end = begin + 2;
    swap::put_word(body, 8, out, end);
    let hops = put_counts(body, out, end + 2);
    put_hops(body, out, hops)
}

// The block that a good record asks for, where there is room for it; gives the index past it. Port of: the blocks of
// mod.rs XrBuilder::write_into_unchecked.
pub fn write_block(layout: Layout, kind: u16, body: &[u8], out: &mut [u8], at: usize) -> usize
    requires { (is_block_job (job_of kind body.now) ≡ true)
        × (at + length (block_bytes layout (job_of kind body.now)) ≤ length out.old) }
    ensures { Wrote out.old at (block_bytes layout (job_of kind body.now))
        out.new result }
{
    match jobs::kind_of(kind) {
        Some(k) => match k {
            Kind::Spans(g) => match g {
                Ranged::Chunks(a) => write_words(layout, a, body, out, at),
                Ranged::Times => write_times(body, out, at),
            },
            Kind::Clock => write_clock(body, out, at),
            Kind::Echoes => write_echoes(body, out, at),
            Kind::Statistics => write_sums(body, out, at),
        },
        None => at,
    }
}
