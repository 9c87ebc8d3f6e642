// Events in four lent lists side by side (RULES, "Packets in portions"): stored one by one, the numbers of a chunk word
// at once, and read back. Four lists, and numbers for an event's kind: the C interface lends them so (xr_follow).
#![tactic(auto)]

ghost use Rattle.std.specs.Prelude.{◌≡◌, ◌∷◌, [], map, ◌+◌, ◌*◌, ◌-◌, ◌≤◌, ◌<◌, length, take};
ghost use Rattle.std.proofs.lemmas.List.Edits.{sets};
ghost use Rattle.def_standard.specs.Chunks.{values_in};
ghost use Rattle.def_portions.specs.Lists.{tag_part, number_part, laid, room_in, span_value, summary_tag, sums_row};
ghost use Rattle.ones.specs.Along.{along};
ghost use Rattle.event_lists.specs.Laid.{Laid, number_tags};
ghost use Rattle.event_lists.specs.Parts.{event_of, summary_in, upper as upper_of, lower as lower_of};

use def_portions::Event;
use def_standard::{Echo, Receipt};
use def_wire::{ByteSpread, Fields, LongTime, ReceiptTime, ShortTime, Spread, Summary, Sums};

// The tag of a block's start.
fn start_tag(kind: u8, t: u8, length: u32, thinning: u8) -> u64
    ensures { result ≡ Rattle.def_portions.specs.Lists.start_tag kind t length thinning }
{
    kind as u64 + 256 * t as u64 + 65536 * length as u64 + 1099511627776 * thinning as u64
}

// SSRC, begin and end.
fn span_value(ssrc: u32, begin: u16, end: u16) -> u64
    ensures { result ≡ span_value ssrc begin end }
{
    utils::join32(ssrc, utils::join16(begin, end))
}

// The tag of a summary.
fn summary_tag(flags: u8, m: Sums) -> u64
    ensures { result ≡ summary_tag flags m }
{
    let h = m.hops;
    let four = ((h.least as u64 * 256 + h.most as u64) * 256 + h.mean as u64) * 256
        + h.deviation as u64;
    9 + 256 * flags as u64 + 65536 * four
}

// A summary's three numbers of the fourth list.
fn put_sums(sums: &mut [u64], n: usize, m: Sums)
    requires { 3 * n + 3 ≤ length sums.old }
    ensures { sums.new ≡ sets sums.old (3 * n) (sums_row m) }
{
    let j = m.jitter;
    let at = 3 * n;
    sums[at] = utils::join32(m.lost, m.duplicates);
    sums[at + 1] = utils::join32(j.least, j.most);
    sums[at + 2] = utils::join32(j.mean, j.deviation);
}

// Stores one event, and answers the index past it.
pub fn put(
    tags: &mut [u64],
    numbers: &mut [u16],
    values: &mut [u64],
    sums: &mut [u64],
    n: usize,
    e: Event,
) -> usize
    requires { n < room_in tags.old numbers.old values.old sums.old }
    ensures { Laid (e ∷ []) n tags.old numbers.old values.old
        sums.old tags.new numbers.new values.new sums.new result }
{
    match e {
        Event::Header(length, ssrc) => {
            tags[n] = 1 + 256 * length as u64;
            values[n] = ssrc as u64;
        }
        Event::Start(t, length) => {
            tags[n] = start_tag(2, t, length, 0);
        }
        Event::Ranged(t, length, f) => {
            tags[n] = start_tag(3, t, length, f.thinning);
            values[n] = span_value(f.ssrc, f.begin, f.end);
        }
        Event::Number(x) => {
            tags[n] = 4;
            numbers[n] = x;
        }
        Event::Pair(r) => {
            let time = r.time;
            tags[n] = 5;
            numbers[n] = r.number;
            values[n] = time.0 as u64;
        }
        Event::Entry(e) => {
            let last = e.last;
            let delay = e.delay;
            tags[n] = 6 + 256 * e.ssrc as u64;
            values[n] = utils::join32(last.0, delay.0);
        }
        Event::Time(t) => {
            tags[n] = 7;
            values[n] = t.0;
        }
        Event::Summed(s) => {
            let m = stats::sums_of(s);
            tags[n] = summary_tag(stats::flags_of(s), m);
            values[n] = span_value(s.ssrc, s.begin, s.end);
            put_sums(sums, n, m);
        }
        Event::End => {
            tags[n] = 8;
        }
    }
    n + 1
}

// Stores the tag of a number so many times.
pub fn put_tags(tags: &mut [u64], from: usize, to: usize)
    requires { (from ≤ to) × (to ≤ length tags.old) }
    ensures { tags.new ≡ sets tags.old from (number_tags (to - from)) }
{
    tags[from..to].fill(4);
}

// Stores the numbers of a word's ones, up to a place, and answers the index past them.
pub fn put_word(
    tags: &mut [u64],
    numbers: &mut [u16],
    n: usize,
    w: u16,
    room: usize,
    first: u16,
    step: u16,
) -> usize
    requires { (n + length (along step first (take room (values_in w))) ≤ length tags.old)
        × (n + length (along step first (take room (values_in w))) ≤ length numbers.old) }
    ensures tags_after { tags.new ≡ laid tag_part (map Event.Number (along step first (take room (values_in w)))) n
        tags.old }
    ensures numbers_after { numbers.new ≡ laid number_part (map Event.Number
        (along step first (take room (values_in w)))) n numbers.old }
    ensures value { result ≡ n + length (along step first (take room (values_in w))) }
{
    let past = ones::store_word(numbers, n, w, room, first, step);
    put_tags(tags, n, past);
    past
}

// Two numbers of 32 bits.
fn upper(x: u64) -> u32
    ensures { result ≡ upper_of x }
{
    (x / 4294967296 % 4294967296) as u32
}

fn lower(x: u64) -> u32
    ensures { result ≡ lower_of x }
{
    (x % 4294967296) as u32
}

// The summary that a tag, a value and three numbers are.
fn summary_in(tag: u64, value: u64, a: u64, b: u64, c: u64) -> Summary
    ensures { result ≡ summary_in tag value a b c }
{
    let m = Sums {
        ssrc: upper(value),
        begin: (value / 65536 % 65536) as u16,
        end: (value % 65536) as u16,
        lost: upper(a),
        duplicates: lower(a),
        jitter: Spread {
            least: upper(b),
            most: lower(b),
            mean: upper(c),
            deviation: lower(c),
        },
        hops: ByteSpread {
            least: (tag / 1099511627776 % 256) as u8,
            most: (tag / 4294967296 % 256) as u8,
            mean: (tag / 16777216 % 256) as u8,
            deviation: (tag / 65536 % 256) as u8,
        },
    };
    stats::summary_from((tag / 256 % 256) as u8, m)
}

// The event that a tag, a number, a value and three numbers of the fourth list are.
pub fn event_of(tag: u64, number: u16, value: u64, a: u64, b: u64, c: u64) -> Event
    ensures { result ≡ event_of tag number value a b c }
{
    let kind = tag % 256;
    if kind == 1 {
        return Event::Header((tag / 256 % 4294967296) as u32, (value % 4294967296) as u32);
    }
    if kind == 2 {
        return Event::Start((tag / 256 % 256) as u8, (tag / 65536 % 16777216) as u32);
    }
    if kind == 3 {
        let f = Fields {
            ssrc: (value / 4294967296 % 4294967296) as u32,
            begin: (value / 65536 % 65536) as u16,
            end: (value % 65536) as u16,
            thinning: (tag / 1099511627776 % 256) as u8,
        };
        return Event::Ranged((tag / 256 % 256) as u8, (tag / 65536 % 16777216) as u32, f);
    }
    if kind == 4 {
        return Event::Number(number);
    }
    if kind == 5 {
        return Event::Pair(Receipt {
            number,
            time: ReceiptTime((value % 4294967296) as u32),
        });
    }
    if kind == 6 {
        return Event::Entry(Echo {
            ssrc: (tag / 256 % 4294967296) as u32,
            last: ShortTime((value / 4294967296 % 4294967296) as u32),
            delay: ShortTime((value % 4294967296) as u32),
        });
    }
    if kind == 7 {
        return Event::Time(LongTime(value));
    }
    if kind == 9 {
        return Event::Summed(summary_in(tag, value, a, b, c));
    }
    Event::End
}
