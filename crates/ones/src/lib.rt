// The ones of one chunk word (RFC 3611, 4.1): their numbers stored, and where the crate's test first fails. What the
// lists of a block and the cursor are made of.
#![tactic(auto)]

ghost use Rattle.std.specs.Prelude.{◌≡◌, ◌+◌, ◌-◌, ◌*◌, ◌%◌, ◌^◌, ◌<◌, ◌≤◌, length, take, drop, if◌then◌else◌, nat_lt};
ghost use Rattle.def_standard.specs.Chunks.{covers_of, values_in};
ghost use Rattle.laws.specs.Stores.{Wrote};
ghost use Rattle.ones.specs.Along.{progression, past, along, fitting};
ghost use Rattle.range.specs.Failing.{first_fail};
ghost use Rattle.ones.specs.Places.{rest_of};
ghost use Rattle.ones.specs.Stops.{stop_at};
ghost use Rattle.ones.specs.Digits.{Top};
ghost use Rattle.def_crate.specs.Sequence.{moved_by};

// As many numbers as a word can list.
pub fn weight(w: u16) -> u32
    ensures { result ≡ (if nat_lt w 16384 then 0 else covers_of w) }
{
    if w < 0x4000 {
        return 0;
    }
    chunk::covers(w) as u32
}

// The word that has a word's places from one on: a shorter run, or a vector that ends in zeros.
pub fn rest_of(w: u16, place: usize) -> u16
    ensures { result ≡ rest_of w place }
{
    if w < 0x8000 {
        return w - place.min(chunk::run_length(w) as usize) as u16;
    }
    0x8000 + (((w as u32) << place.min(15)) & 0x7fff) as u16
}

// The place of a number's highest one, counted from below.
fn top_bit(v: u32) -> usize
    requires { 0 < v }
    ensures { Top v result }
{
    31 - u32::leading_zeros(v) as usize
}

fn without_top(v: u32, j: usize) -> u32
    requires { Top v j }
    ensures { result ≡ v - 2 ^ j }
{
    v - (1u32 << j)
}

// The number q steps on.
fn number_on(first: u16, q: usize, step: u16) -> u16
    requires { q ≤ 15 }
    ensures { result ≡ (first + q * step) % 65536 }
{
    ((first as usize + q * step as usize) % 65536) as u16
}

// What storing a run leaves: the index past its numbers, and the number after them.
#[derive(Drop)]
pub struct Stored {
    pub n: usize,
    pub next: u16,
}

// Stores a run's numbers, one step apart.
pub fn store_run(out: &mut [u16], at: usize, count: usize, first: u16, step: u16) -> Stored
    requires { at + count ≤ length out.old }
    ensures wrote { Wrote out.old at (progression step first count) out.new result.n }
    ensures next_value { result.next ≡ past step first count }
{
    let mut x = first;
    for n in at..at + count {
        out[n] = x;
        x = x.wrapping_add(step);
    }
    Stored {
        n: at + count,
        next: x,
    }
}

// Stores the numbers of a vector's ones, up to a place: one turn for each, from the highest bit down.
fn store_vector(out: &mut [u16], at: usize, w: u16, room: usize, first: u16, step: u16) -> usize
    requires { (32768 ≤ w) × (room ≤ 15) × (at + length (along step first (take room (values_in w))) ≤ length
        out.old) }
    ensures { Wrote out.old at (along step first (take room (values_in w))) out.new result }
{
    let mut v = (chunk::vector_bits(w) as u32) >> (15 - room);
    let mut n = at;
    while v != 0 {
        let j = top_bit(v);
        out[n] = number_on(first, room - 1 - j, step);
        v = without_top(v, j);
        n += 1;
    }
    n
}

// Stores the numbers of a word's ones, up to a place. Kinds are told apart once for each word.
pub fn store_word(out: &mut [u16], at: usize, w: u16, room: usize, first: u16, step: u16) -> usize
    requires { at + length (along step first (take room (values_in w))) ≤ length out.old }
    ensures { Wrote out.old at (along step first (take room (values_in w))) out.new result }
{
    if w < 0x4000 {
        return at;
    }
    if w < 0x8000 {
        let ones = room.min(chunk::run_length(w) as usize);
        let r = store_run(out, at, ones, first, step);
        return r.n;
    }
    store_vector(out, at, w, room.min(15), first, step)
}

// The place of a vector's first one that fails; 15 where none does.
// Port of: rle.rs RleSequenceIter::next with xr_offset_sequence; differs: it gives the place, not the numbers before
// it.
fn stop_in_vector(w: u16, start: u16, end: u16, thinning: u8) -> usize
    requires { 32768 ≤ w }
    ensures { result ≡ stop_at start end thinning w }
{
    let mut v = chunk::vector_bits(w) as u32;
    while v != 0 {
        let j = top_bit(v);
        let q = 14 - j;
        if !range::passes(start, end, range::moved_by(q as u16, thinning, start)) {
            return q;
        }
        v = without_top(v, j);
    }
    15
}

// The place of a word's first one whose number fails the crate's test; how many places it has where none does.
// `first` is the first place that fails, whatever its value.
pub fn stop_at(w: u16, first: usize, start: u16, end: u16, thinning: u8) -> usize
    requires { first ≡ first_fail start end thinning }
    ensures { result ≡ stop_at start end thinning w }
{
    let covered = chunk::covers(w) as usize;
    if covered <= first {
        return covered;
    }
    if w < 0x4000 {
        return covered;
    }
    if w < 0x8000 {
        return first;
    }
    stop_in_vector(w, start, end, thinning)
}

// The first place that fails, after the start has moved on by a word. Mostly a subtraction.
pub fn next_fail(
    first: usize,
    covered: u16,
    thinning: u8,
    start: u16,
    moved: u16,
    end: u16,
) -> usize
    requires { (first ≡ first_fail start end thinning) × (moved ≡ moved_by covered thinning start) }
    ensures { result ≡ first_fail moved end thinning }
{
    if first == range::NEVER {
        if start < end {
            return first;
        }
        return range::first_fail(moved, end, thinning);
    }
    if (covered as usize) < first {
        return first - covered as usize;
    }
    range::first_fail(moved, end, thinning)
}

// Stores the numbers of the ones among some places of a word, from a place on and one step apart, where there is room
// for all of them; else nothing. Answers the index past those stored. (The cursor stops and goes on inside a word.)
pub fn put_places(
    out: &mut [u16],
    at: usize,
    w: u16,
    place: usize,
    room: usize,
    first: u16,
    step: u16,
) -> usize
    ensures { Wrote out.old at
        (fitting (length out.old) at (along step first (take room (drop place (values_in w)))))
        out.new result }
{
    let rest = rest_of(w, place);
    if out.len() < at {
        return at;
    }
    if out.len() - at < chunk::ones_before(rest, room) {
        return at;
    }
    store_word(out, at, rest, room, first, step)
}
