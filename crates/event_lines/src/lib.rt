// The lines of events (RULES, "Packets in portions"). The text goes through a lent buffer, as print's functions do,
// and each function promises that it has added exactly its text (def_dump/specs/EventLines.antt).
#![tactic(auto)]

ghost use Rattle.std.specs.Prelude.{◌≡◌, ◌++◌, ◌<◌};
ghost use Rattle.def_text.specs.Buffer.{Added};
ghost use Rattle.def_text.specs.Numerals.{labelled, spaced, line_end};
ghost use Rattle.def_dump.specs.EventLines.{event_line, event_lines};
ghost use Rattle.def_portions.specs.Lists.{room_in};
ghost use Rattle.event_lists.specs.Parts.{events_in};
ghost use Rattle.event_lines.specs.At.{event_at};

use def_portions::Event;
use def_standard::Echo;
use def_wire::{Fields, Summary};

// A word and two numbers.
fn two(buf: &mut [u8], at: usize, word: &[u8], a: u64, b: u64) -> usize
    ensures { Added buf.old at (labelled word.now a ++ spaced b) buf.new result }
{
    let n = print::labelled(buf, at, word, a);
    print::number(buf, n, b)
}

// The same as a line.
fn two_line(buf: &mut [u8], at: usize, word: &[u8], a: u64, b: u64) -> usize
    ensures { Added buf.old at (labelled word.now a ++ spaced b ++ line_end)
        buf.new result }
{
    let n = two(buf, at, word, a, b);
    print::line_end(buf, n)
}

// `start TYPE L ssrc S begin B end E thinning T`.
fn ranged_line(buf: &mut [u8], at: usize, t: u8, length: u32, f: Fields) -> usize
    ensures { Added buf.old at (event_line (Event.Ranged t length f)) buf.new result }
{
    let n = two(buf, at, b"start", t as u64, length as u64);
    let m = print::byte(buf, n, b' ');
    lines::fields_line(buf, m, f)
}

// `number N`.
fn number_line(buf: &mut [u8], at: usize, x: u16) -> usize
    ensures { Added buf.old at (event_line (Event.Number x)) buf.new result }
{
    let n = print::labelled(buf, at, b"number", x as u64);
    print::line_end(buf, n)
}

// `entry S L D`.
fn entry_line(buf: &mut [u8], at: usize, e: Echo) -> usize
    ensures { Added buf.old at (event_line (Event.Entry e)) buf.new result }
{
    let last = e.last;
    let delay = e.delay;
    let n = two(buf, at, b"entry", e.ssrc as u64, last.0 as u64);
    let m = print::number(buf, n, delay.0 as u64);
    print::line_end(buf, m)
}

// `summary `, and the four lines of the dump with `; ` between them.
fn summary_line(buf: &mut [u8], at: usize, s: Summary) -> usize
    ensures { Added buf.old at (event_line (Event.Summed s)) buf.new result }
{
    let n = print::text(buf, at, b"summary ");
    let m = summary_lines::summary_parts(buf, n, b"; ", s);
    print::line_end(buf, m)
}

// `end`.
fn end_line(buf: &mut [u8], at: usize) -> usize
    ensures { Added buf.old at (event_line Event.End) buf.new result }
{
    let n = print::text(buf, at, b"end");
    print::line_end(buf, n)
}

// An event's line. (Compiled in place, so that the event does not go through memory: a list of numbers has thousands.)
#[inline(always)]
pub fn event_line(buf: &mut [u8], at: usize, e: Event) -> usize
    ensures { Added buf.old at (event_line e) buf.new result }
{
    match e {
        Event::Header(length, ssrc) => two_line(buf, at, b"header", length as u64, ssrc as u64),
        Event::Start(t, length) => two_line(buf, at, b"start", t as u64, length as u64),
        Event::Ranged(t, length, f) => ranged_line(buf, at, t, length, f),
        Event::Number(x) => number_line(buf, at, x),
        Event::Pair(r) => {
            let time = r.time;
            two_line(buf, at, b"pair", r.number as u64, time.0 as u64)
        }
        Event::Entry(x) => entry_line(buf, at, x),
        Event::Time(t) => lines::time_line(buf, at, t.0),
        Event::Summed(s) => summary_line(buf, at, s),
        Event::End => end_line(buf, at),
    }
}

// The event at an index of four lists.
fn event_at(tags: &[u64], numbers: &[u16], values: &[u64], sums: &[u64], i: usize) -> Event
    requires { i < room_in tags.now numbers.now values.now sums.now }
    ensures { result ≡ event_at tags.now numbers.now values.now
        sums.now i }
{
    let three = 3 * i;
    event_lists::event_of(
        tags[i],
        numbers[i],
        values[i],
        sums[three],
        sums[three + 1],
        sums[three + 2],
    )
}

// The lines of the first so many events of four lists.
pub fn event_lines(
    buf: &mut [u8],
    at: usize,
    tags: &[u64],
    numbers: &[u16],
    values: &[u64],
    sums: &[u64],
    count: usize,
) -> usize
    ensures { Added buf.old at
        (event_lines (events_in tags.now numbers.now values.now sums.now
        count)) buf.new result }
{
    let stop = count.min(
        tags.len()
            .min(numbers.len())
            .min(values.len())
            .min(sums.len() / 3),
    );
    let mut to = at;
    for i in 0..stop {
        to = event_line(buf, to, event_at(tags, numbers, values, sums, i));
    }
    to
}
