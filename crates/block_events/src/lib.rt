// The events of a block whose bytes are all there, counted and stored at once, each list by a loop with nothing else
// in it (RULES, "Packets in portions").
#![tactic(auto)]

ghost use Rattle.std.specs.Prelude.{◌≡◌, ◌+◌, ◌≤◌, ◌∷◌, map, length, drop};
ghost use Rattle.def_wire.specs.Bytes.{words16, words32};
ghost use Rattle.def_wire.specs.Block.{type_of, block_length, kind_of};
ghost use Rattle.def_standard.specs.Standard.{numbers_of, entries_of};
ghost use Rattle.def_questions.specs.Questions.{least3};
ghost use Rattle.def_portions.specs.Events.{block_events, from, ranged_of, listed, lost_fault};
ghost use Rattle.def_portions.specs.Lists.{tag_part, number_part, value_part, laid, room_in};
ghost use Rattle.event_lists.specs.Laid.{Laid};
ghost use Rattle.block_events.specs.Pairs.{PairsLaid};
ghost use Rattle.packet_receipt_time.specs.Pairs.{stepped};

use def_portions::Event;
use def_refusals::Refusal;
use def_standard::Range;
use def_wire::{Kind, LongTime, Ranged};

// A block's type, and its length by its header.
fn type_of(v: &[u8]) -> u8
    ensures { result ≡ type_of v.now }
{
    xr::block_type(xr::header_data(v))
}

fn length_of(v: &[u8]) -> u32
    ensures { result ≡ block_length v.now }
{
    xr::block_length(xr::header_data(v)) as u32
}

// How many events a block of types 1 to 3 has.
fn count_range(g: Ranged, v: &[u8]) -> usize
    ensures { result ≡ length (from 12 v.now (ranged_of v.now ∷ listed g v.now)) }
{
    if v.len() < 12 {
        return 0;
    }
    let r = range::range_of(block::fields_at(v));
    match g {
        Ranged::Chunks(_) => 1 + rle_standard::count_standard(utils::part(v, 12, v.len()), r),
        Ranged::Times => 1 + ((v.len() - 12) / 4).min(range::inside_count(r)),
    }
}

// How many events a block has, of its bytes so far.
pub fn count_block(v: &[u8]) -> usize
    ensures { result ≡ length (block_events v.now) }
{
    match records::kind_of(type_of(v)) {
        Some(k) => match k {
            Kind::Spans(g) => count_range(g, v),
            Kind::Clock => { if v.len() < 12 { 1 } else { 2 } }
            Kind::Echoes => 1 + dlrr::count(v),
            Kind::Statistics => { if v.len() < 40 { 1 } else { 2 } }
        },
        None => 1,
    }
}

// 7, where a run of no length is among the words of a block of type 1 or 2, of its bytes so far.
pub fn lost_fault(v: &[u8]) -> Result<(), Refusal>
    ensures { result ≡ lost_fault (kind_of (type_of v.now)) v.now }
{
    match records::rle_of(type_of(v)) {
        Some(_) => {
            if word_scan::has_lost_run(utils::part(v, 12, v.len())) {
                return Err(Refusal::BadBlockLength(12, length_of(v) as usize));
            }
            Ok(())
        }
        None => Ok(()),
    }
}

// Stores the numbers of words, and answers the index past them.
fn put_numbers(words: &[u8], r: Range, tags: &mut [u64], numbers: &mut [u16], n: usize) -> usize
    requires { (n + length (numbers_of r (words16 words.now)) ≤ length tags.old)
        × (n + length (numbers_of r (words16 words.now)) ≤ length numbers.old) }
    ensures tags_after { tags.new ≡ laid tag_part (map Event.Number (numbers_of r (words16 words.now))) n
        tags.old }
    ensures numbers_after { numbers.new ≡ laid number_part (map Event.Number
        (numbers_of r (words16 words.now))) n numbers.old }
    ensures value { result ≡ n + length (numbers_of r (words16 words.now)) }
{
    match rle_standard::fill_standard(words, r, &mut numbers[n..]) {
        Ok(m) => {
            event_lists::put_tags(tags, n, n + m);
            n + m
        }
        Err(_) => n,
    }
}

// Stores so many pairs: numbers one step apart, and times as they stand from byte 12 on.
fn put_pairs(
    v: &[u8],
    first: u16,
    step: u16,
    count: usize,
    tags: &mut [u64],
    numbers: &mut [u16],
    values: &mut [u64],
    n: usize,
) -> usize
    requires count_in_bounds { count ≤ length (words32 (drop 12 v.now)) }
    requires count_bound { n + count ≤ least3 tags.old numbers.old values.old }
    ensures { PairsLaid (stepped step first count (words32 (drop 12 v.now))) n tags.old
        numbers.old values.old tags.new numbers.new values.new result }
{
    let mut left = count;
    let mut at: usize = 12;
    let mut i = n;
    let mut x = first;
    while left != 0 {
        tags[i] = 5;
        numbers[i] = x;
        values[i] = utils::load32(v, at) as u64;
        x = std::num::wrapping_add_u16(x, step);
        at += 4;
        i += 1;
        left -= 1;
    }
    i
}

// Stores so many entries, as they stand from byte 4 on.
fn put_entries(v: &[u8], count: usize, tags: &mut [u64], values: &mut [u64], n: usize) -> usize
    requires count_value { count ≡ length (entries_of v.now) }
    requires count_in_bounds { (n + count ≤ length tags.old) × (n + count ≤ length values.old) }
    ensures tags_after { tags.new ≡ laid tag_part (map Event.Entry (entries_of v.now)) n
        tags.old }
    ensures values_after { values.new ≡ laid value_part (map Event.Entry (entries_of v.now)) n
        values.old }
    ensures value { result ≡ n + length (entries_of v.now) }
{
    let mut left = count;
    let mut at: usize = 4;
    let mut i = n;
    while left != 0 {
        tags[i] = 6 + 256 * utils::load32(v, at) as u64;
        values[i] = utils::join32(utils::load32(v, at + 4), utils::load32(v, at + 8));
        at += 12;
        i += 1;
        left -= 1;
    }
    i
}

// Stores the events of a block of types 1 to 3.
fn put_range(
    g: Ranged,
    v: &[u8],
    tags: &mut [u64],
    numbers: &mut [u16],
    values: &mut [u64],
    sums: &mut [u64],
    n: usize,
) -> usize
    requires { n + length (from 12 v.now (ranged_of v.now ∷ listed g v.now)) ≤ room_in tags.old
        numbers.old values.old sums.old }
    ensures { Laid (from 12 v.now (ranged_of v.now ∷ listed g v.now)) n
        tags.old numbers.old values.old sums.old tags.new
        numbers.new values.new sums.new result }
{
    if v.len() < 12 {
        return n;
    }
    let f = block::fields_at(v);
    let r = range::range_of(f);
    let m = event_lists::put(
        tags,
        numbers,
        values,
        sums,
        n,
        Event::Ranged(type_of(v), length_of(v), f),
    );
    match g {
        Ranged::Chunks(_) => put_numbers(utils::part(v, 12, v.len()), r, tags, numbers, m),
        Ranged::Times => {
            let count = ((v.len() - 12) / 4).min(range::inside_count(r));
            let step = range::doubled(1, f.thinning);
            put_pairs(
                v,
                range::number_at(r, 0),
                step,
                count,
                tags,
                numbers,
                values,
                m,
            )
        }
    }
}

// Stores the events of a block, of its bytes so far, and answers the index past them.
pub fn put_block(
    v: &[u8],
    tags: &mut [u64],
    numbers: &mut [u16],
    values: &mut [u64],
    sums: &mut [u64],
    n: usize,
) -> usize
    requires { n + length (block_events v.now) ≤ room_in tags.old numbers.old values.old sums.old }
    ensures { Laid (block_events v.now) n tags.old numbers.old
        values.old sums.old tags.new numbers.new values.new
        sums.new result }
{
    let t = type_of(v);
    match records::kind_of(t) {
        Some(k) => match k {
            Kind::Spans(g) => put_range(g, v, tags, numbers, values, sums, n),
            Kind::Clock => {
                let m = event_lists::put(
                    tags,
                    numbers,
                    values,
                    sums,
                    n,
                    Event::Start(t, length_of(v)),
                );
                if v.len() < 12 {
                    return m;
                }
                let time = LongTime(utils::u64_from_be_bytes(v, 4));
                event_lists::put(tags, numbers, values, sums, m, Event::Time(time))
            }
            Kind::Echoes => {
                let m = event_lists::put(
                    tags,
                    numbers,
                    values,
                    sums,
                    n,
                    Event::Start(t, length_of(v)),
                );
                put_entries(v, dlrr::count(v), tags, values, m)
            }
            Kind::Statistics => {
                let m = event_lists::put(
                    tags,
                    numbers,
                    values,
                    sums,
                    n,
                    Event::Start(t, length_of(v)),
                );
                if v.len() < 40 {
                    return m;
                }
                event_lists::put(
                    tags,
                    numbers,
                    values,
                    sums,
                    m,
                    Event::Summed(summary::summary_at(v)),
                )
            }
        },
        None => event_lists::put(
            tags,
            numbers,
            values,
            sums,
            n,
            Event::Start(t, length_of(v)),
        ),
    }
}
