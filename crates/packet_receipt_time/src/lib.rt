// The receipt times of a type 3 block with their sequence numbers, into two lent lists, in both readings (RFC 3611,
// 4.3).
// Port of: packet_receipt_time.rs PacketReceiptTimes::sequence_iter; differs: the standard reading takes the block's
// own times.
#![tactic(auto)]

ghost use Rattle.std.specs.Prelude.{◌≡◌, ◌+◌, ◌-◌, ◌*◌, ◌/◌, ◌%◌, ◌<◌, ◌≤◌, min, length, drop};
ghost use Rattle.def_wire.specs.Bytes.{be32, words32};
ghost use Rattle.def_standard.specs.Range.{number_of};
ghost use Rattle.def_questions.specs.Questions.{pairs_in, pairs_shown, ListedPairs};
ghost use Rattle.def_questions.specs.Packets.{pairs_asked};
ghost use Rattle.def_wire.specs.Block.{fields_at};
ghost use Rattle.packet_receipt_time.specs.Pairs.{range_by, listable, stepped, Stored};

use def_refusals::Refusal;
use def_wire::{Fields, Reading, ReceiptTime};

// The receipt time at a place.
fn time_at(v: &[u8], at: usize) -> ReceiptTime
    requires { at + 4 ≤ length v.now }
    ensures { result.0 ≡ be32 v.now at }
{
    ReceiptTime(utils::u32_from_be_bytes(v, at))
}

// How many times a view has from byte 12 on.
fn times_count(v: &[u8]) -> usize
    ensures { result ≡ length (words32 (drop 12 v.now)) }
{
    if v.len() < 12 {
        return 0;
    }
    (v.len() - 12) / 4
}

// How many positions a reading lists from the first on, whatever times there are.
fn listable_of(r: Reading, f: Fields) -> usize
    ensures { result ≡ listable r f }
{
    match r {
        Reading::Standard => range::inside_count(range::range_of(f)),
        Reading::Crate => range::first_fail(f.begin, f.end, f.thinning),
    }
}

// The first position's number.
fn first_of(r: Reading, f: Fields) -> u16
    ensures { result ≡ number_of (range_by r f) 0 }
{
    match r {
        Reading::Standard => range::range_of(f).begin,
        Reading::Crate => f.begin,
    }
}

// Stores n pairs from the front of both lists: numbers one step apart, and times as they stand.
fn store(v: &[u8], first: u16, step: u16, n: usize, numbers: &mut [u16], times: &mut [u32])
    requires n_in_bounds { n ≤ length (words32 (drop 12 v.now)) }
    requires n_bound { n ≤ min (length numbers.old) (length times.old) }
    ensures { Stored (stepped step first n (words32 (drop 12 v.now))) numbers.old
        times.old numbers.new times.new }
{
    let mut x = first;
    for i in 0..n {
        let t = time_at(v, 12 + 4 * i);
        numbers[i] = x;
        times[i] = t.0;
        x = std::num::wrapping_add_u16(x, step);
    }
}

// The pairs of a block's view: 10, 7, 11.
pub fn pairs(r: Reading, v: &[u8], numbers: &mut [u16], times: &mut [u32]) -> Result<usize, Refusal>
    ensures { ListedPairs (pairs_shown r v.now) numbers.old times.old result
        numbers.new times.new }
{
    block::check_times(r, v)?;
    let f = block::fields_at(v);
    let n = listable_of(r, f).min(times_count(v));
    let room = numbers.len().min(times.len());
    if room < n {
        return Err(Refusal::NoRoom(n, room));
    }
    let first = first_of(r, f);
    let step = range::doubled(1, f.thinning);
    store(v, first, step, n, numbers, times);
    Ok(n)
}

// The pairs of block k of a packet: 1 to 6, 9, 10, 7, 11.
pub fn pairs_in(
    r: Reading,
    s: &[u8],
    k: usize,
    numbers: &mut [u16],
    times: &mut [u32],
) -> Result<usize, Refusal>
    ensures { ListedPairs (pairs_asked r s.now k) numbers.old times.old result
        numbers.new times.new }
{
    let (at, n) = xr::locate(r, s, k)?;
    pairs(r, utils::part(s, at, n), numbers, times)
}
