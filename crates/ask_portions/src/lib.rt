// What xrprobe answers of a packet in portions (README, "xrprobe", kind 12): one call for each size, each from the
// first byte that no call has taken on, and one more for what is then left. For each call its events' lines are added
// to the buffer, then what it took or its refusal. `calls` promises that it has added exactly def_probe's text.
#![tactic(auto)]

ghost use Rattle.std.specs.Prelude.{◌<◌, []};
ghost use Rattle.def_portions.specs.Lists.{room_in};
ghost use Rattle.def_text.specs.Buffer.{Added};
ghost use Rattle.def_dump.specs.EventLines.{given_line};
ghost use Rattle.def_probe.specs.Requests.{ending_of, sizes_at, calls_text, portions_text};
ghost use Rattle.ask_portions.specs.Told.{Telling};

use def_refusals::Refusal;
use states::Portions;

// The most room of a list.
const MOST: usize = 16384;

// What a call leaves: the state for the next one, how many bytes were taken, and what waits in the buffer.
#[derive(Drop)]
struct Told {
    state: Portions,
    taken: usize,
    at: usize,
}

// `taken B events K`.
fn given_line(buf: &mut [u8], at: usize, given: usize, events: usize) -> usize
    ensures { Added buf.old at (given_line given events) buf.new result }
{
    let n = print::labelled(buf, at, b"taken", given as u64);
    let m = print::labelled(buf, n, b" events", events as u64);
    print::line_end(buf, m)
}

// What stands behind a call's events: what it took and listed, or why it is refused.
fn ending(buf: &mut [u8], at: usize, c: Result<(), Refusal>, given: usize, events: usize) -> usize
    ensures { Added buf.old at (ending_of c given events) buf.new result }
{
    match c {
        Ok(()) => given_line(buf, at, given, events),
        Err(y) => lines::refusal_line(buf, at, y),
    }
}

// One call: its events, then what it took or why it is refused.
fn one(
    st: Portions,
    x: &[u8],
    tags: &mut [u64],
    numbers: &mut [u16],
    values: &mut [u64],
    sums: &mut [u64],
    buf: &mut [u8],
    at: usize,
) -> Told
    ensures { Telling st x.now
        (room_in tags.old numbers.old values.old sums.old)
        buf.old at result buf.new }
{
    let r = portions::follow(st, x, tags, numbers, values, sums);
    let n = event_lines::event_lines(buf, at, tags, numbers, values, sums, r.events);
    let state = r.state;
    let refusal = r.refusal;
    Told {
        state,
        taken: r.taken,
        at: ending(buf, n, refusal, x.len(), r.events),
    }
}

// A call for each of n sizes, which stand in p from byte 6 on, and one for what is left.
fn calls_into(
    p: &[u8],
    n: usize,
    x: &[u8],
    tags: &mut [u64],
    numbers: &mut [u16],
    values: &mut [u64],
    sums: &mut [u64],
    buf: &mut [u8],
    at: usize,
) -> usize
    requires { n < 65536 }
    ensures { Added buf.old at
        (calls_text (room_in tags.old numbers.old values.old sums.old) []
        x.now (sizes_at p.now 6 n)) buf.new result }
{
    let mut st = steps::start();
    let mut from: usize = 0;
    let mut to = at;
    for i in 0..n {
        let size = little_endian::u32_from_le_bytes(p, 6 + 4 * i) as usize;
        let y = utils::part(x, from, size);
        let t = one(st, y, tags, numbers, values, sums, buf, to);
        st = t.state;
        from += t.taken;
        to = t.at;
    }
    let left = utils::part(x, from, x.len());
    if left.len() == 0 {
        return to;
    }
    let t = one(st, left, tags, numbers, values, sums, buf, to);
    t.at
}

// The answer to a request of kind 12, whose sizes are all there.
pub fn calls(p: &[u8], buf: &mut [u8], at: usize) -> usize
    ensures { Added buf.old at (portions_text p.now) buf.new result }
{
    let mut tags = [0u64; MOST];
    let mut numbers = [0u16; MOST];
    let mut values = [0u64; MOST];
    let mut sums = [0u64; 49152];
    let room = (little_endian::u32_from_le_bytes(p, 0) as usize).min(MOST);
    let n = little_endian::u16_from_le_bytes(p, 4) as usize;
    calls_into(
        p,
        n,
        utils::part(p, 6 + 4 * n, p.len()),
        &mut tags[0..room],
        &mut numbers[0..room],
        &mut values[0..room],
        &mut sums[0..3 * room],
        buf,
        at,
    )
}
