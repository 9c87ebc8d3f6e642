// The questions of xrprobe that are answered by a list (README, "xrprobe", kinds 2, 4, 9, 10 and 14): memory of so
// much room is lent with a pattern in it, the library's function is asked, and the list's line or the refusal is added
// to the buffer. Each function promises that it has added exactly def_probe's line: that `spoilt` is never printed is
// part of its proof.
#![tactic(auto)]

ghost use Rattle.std.specs.Prelude.{min, ◌≡◌, cond, false, length};
ghost use Rattle.def_questions.specs.Packets.{pairs_asked, entries_asked};
ghost use Rattle.def_questions.specs.ByNumber.{numbers_by, words_by};
ghost use Rattle.def_marks.specs.Marks.{marks_asked};
ghost use Rattle.def_text.specs.Buffer.{Added};
ghost use Rattle.def_dump.specs.Lines.{numbers_line, words_line, pairs_line, entries_line};
ghost use Rattle.def_probe.specs.Requests.{most_listed, line_in, stretch_in};
ghost use Rattle.lent.specs.Pattern.{mark16};
ghost use Rattle.lent.specs.Telling.{whole_entries, tell_list, tell_pairs, tell_entries, tell_stretch};

use def_cursor::{Cursor, Stretch};
use def_refusals::Refusal;
use def_wire::Reading;

// The most room of a list.
const MOST: usize = 16384;

fn both(a: bool, b: bool) -> bool
    ensures { result ≡ cond a b false }
{
    if a { b } else { false }
}

fn tell_numbers(buf: &mut [u8], at: usize, list: &[u16], a: Result<usize, Refusal>) -> usize
    ensures { Added buf.old at (tell_list mark16 numbers_line a list.now)
        buf.new result }
{
    match a {
        Ok(n) => {
            let m = lines::numbers_line(buf, at, list, n);
            lent::said_whole(buf, m, lent::stands(list, n))
        }
        Err(x) => {
            let m = lines::refusal_line(buf, at, x);
            lent::said_whole(buf, m, lent::stands(list, 0))
        }
    }
}

fn tell_words(buf: &mut [u8], at: usize, list: &[u16], a: Result<usize, Refusal>) -> usize
    ensures { Added buf.old at (tell_list mark16 words_line a list.now)
        buf.new result }
{
    match a {
        Ok(n) => {
            let m = lines::words_line(buf, at, list, n);
            lent::said_whole(buf, m, lent::stands(list, n))
        }
        Err(x) => {
            let m = lines::refusal_line(buf, at, x);
            lent::said_whole(buf, m, lent::stands(list, 0))
        }
    }
}

fn numbers_into(
    r: Reading,
    s: &[u8],
    k: usize,
    t: u8,
    list: &mut [u16],
    buf: &mut [u8],
    at: usize,
) -> usize
    ensures { Added buf.old at
        (line_in (length list.old) numbers_line (numbers_by r s.now k t)) buf.new result }
{
    lent::fill(list);
    let a = by_number::numbers(r, s, k, t, list);
    tell_numbers(buf, at, list, a)
}

// Block k's numbers, asked by a number.
pub fn numbers(
    r: Reading,
    s: &[u8],
    k: usize,
    t: u8,
    room: usize,
    buf: &mut [u8],
    at: usize,
) -> usize
    ensures { Added buf.old at
        (line_in (min room most_listed) numbers_line (numbers_by r s.now k t)) buf.new result }
{
    let mut list = [0u16; MOST];
    let n = room.min(MOST);
    numbers_into(r, s, k, t, &mut list[0..n], buf, at)
}

fn words_into(
    r: Reading,
    s: &[u8],
    k: usize,
    t: u8,
    list: &mut [u16],
    buf: &mut [u8],
    at: usize,
) -> usize
    ensures { Added buf.old at
        (line_in (length list.old) words_line (words_by r s.now k t)) buf.new result }
{
    lent::fill(list);
    let a = by_number::words(r, s, k, t, list);
    tell_words(buf, at, list, a)
}

// Block k's chunk words, asked by a number.
pub fn words(r: Reading, s: &[u8], k: usize, t: u8, room: usize, buf: &mut [u8], at: usize) -> usize
    ensures { Added buf.old at
        (line_in (min room most_listed) words_line (words_by r s.now k t)) buf.new result }
{
    let mut list = [0u16; MOST];
    let n = room.min(MOST);
    words_into(r, s, k, t, &mut list[0..n], buf, at)
}

fn made_into(ms: &[u8], list: &mut [u16], buf: &mut [u8], at: usize) -> usize
    ensures { Added buf.old at
        (line_in (length list.old) words_line (marks_asked ms.now)) buf.new result }
{
    lent::fill(list);
    let a = marks::words(ms, list);
    tell_words(buf, at, list, a)
}

// The words made from marks.
pub fn made(ms: &[u8], room: usize, buf: &mut [u8], at: usize) -> usize
    ensures { Added buf.old at
        (line_in (min room most_listed) words_line (marks_asked ms.now)) buf.new result }
{
    let mut list = [0u16; MOST];
    let n = room.min(MOST);
    made_into(ms, &mut list[0..n], buf, at)
}

fn tell_pairs(buf: &mut [u8], at: usize, ns: &[u16], ts: &[u32], a: Result<usize, Refusal>) -> usize
    ensures { Added buf.old at (tell_pairs a ns.now ts.now)
        buf.new result }
{
    match a {
        Ok(n) => {
            let m = lines::pairs_line(buf, at, ns, ts, n);
            lent::said_whole(buf, m, both(lent::stands(ns, n), lent::stands(ts, n)))
        }
        Err(x) => {
            let m = lines::refusal_line(buf, at, x);
            lent::said_whole(buf, m, both(lent::stands(ns, 0), lent::stands(ts, 0)))
        }
    }
}

// Two lists of equal room.
fn pairs_into(
    r: Reading,
    s: &[u8],
    k: usize,
    ns: &mut [u16],
    ts: &mut [u32],
    buf: &mut [u8],
    at: usize,
) -> usize
    requires { length ts.old ≡ length ns.old }
    ensures { Added buf.old at
        (line_in (length ns.old) pairs_line (pairs_asked r s.now k)) buf.new result }
{
    lent::fill(ns);
    lent::fill(ts);
    let a = packet_receipt_time::pairs_in(r, s, k, ns, ts);
    tell_pairs(buf, at, ns, ts, a)
}

// Block k's pairs.
pub fn pairs(r: Reading, s: &[u8], k: usize, room: usize, buf: &mut [u8], at: usize) -> usize
    ensures { Added buf.old at
        (line_in (min room most_listed) pairs_line (pairs_asked r s.now k)) buf.new result }
{
    let mut ns = [0u16; MOST];
    let mut ts = [0u32; MOST];
    let n = room.min(MOST);
    pairs_into(r, s, k, &mut ns[0..n], &mut ts[0..n], buf, at)
}

// Whether three lists stand from an index on.
fn stand(a: &[u32], b: &[u32], c: &[u32], n: usize) -> bool
    ensures { result ≡ whole_entries n a.now b.now c.now }
{
    let bc = both(lent::stands(b, n), lent::stands(c, n));
    both(lent::stands(a, n), bc)
}

fn tell_entries(
    buf: &mut [u8],
    at: usize,
    a: &[u32],
    b: &[u32],
    c: &[u32],
    r: Result<usize, Refusal>,
) -> usize
    ensures { Added buf.old at
        (tell_entries r a.now b.now c.now) buf.new result }
{
    match r {
        Ok(n) => {
            let m = lines::entries_line(buf, at, a, b, c, n);
            lent::said_whole(buf, m, stand(a, b, c, n))
        }
        Err(x) => {
            let m = lines::refusal_line(buf, at, x);
            lent::said_whole(buf, m, stand(a, b, c, 0))
        }
    }
}

// Three lists of equal room.
fn entries_into(
    r: Reading,
    s: &[u8],
    k: usize,
    a: &mut [u32],
    b: &mut [u32],
    c: &mut [u32],
    buf: &mut [u8],
    at: usize,
) -> usize
    requires { (length b.old ≡ length a.old) × (length c.old ≡ length a.old) }
    ensures { Added buf.old at
        (line_in (length a.old) entries_line (entries_asked r s.now k)) buf.new result }
{
    lent::fill(a);
    lent::fill(b);
    lent::fill(c);
    let x = dlrr::entries_in(r, s, k, a, b, c);
    tell_entries(buf, at, a, b, c, x)
}

// Block k's entries.
pub fn entries(r: Reading, s: &[u8], k: usize, room: usize, buf: &mut [u8], at: usize) -> usize
    ensures { Added buf.old at
        (line_in (min room most_listed) entries_line (entries_asked r s.now k)) buf.new result }
{
    let mut a = [0u32; MOST];
    let mut b = [0u32; MOST];
    let mut c = [0u32; MOST];
    let n = room.min(MOST);
    entries_into(r, s, k, &mut a[0..n], &mut b[0..n], &mut c[0..n], buf, at)
}

fn tell_stretch(buf: &mut [u8], at: usize, list: &[u16], a: Result<Stretch, Refusal>) -> usize
    ensures { Added buf.old at (tell_stretch a list.now) buf.new result }
{
    match a {
        Ok(g) => {
            let next = g.next;
            let n = lines::taken_line(buf, at, g.taken, next);
            let m = lines::numbers_line(buf, n, list, g.listed);
            lent::said_whole(buf, m, lent::stands(list, g.listed))
        }
        Err(x) => {
            let m = lines::refusal_line(buf, at, x);
            lent::said_whole(buf, m, lent::stands(list, 0))
        }
    }
}

fn stretch_into(
    s: &[u8],
    k: usize,
    t: u8,
    c: Cursor,
    budget: usize,
    list: &mut [u16],
    buf: &mut [u8],
    at: usize,
) -> usize
    ensures { Added buf.old at
        (stretch_in s.now k t c budget (length list.old)) buf.new result }
{
    lent::fill(list);
    let a = by_number::advance(s, k, t, c, budget, list);
    tell_stretch(buf, at, list, a)
}

// At most budget steps of the number cursor in block k, asked by a number.
pub fn stretch(
    s: &[u8],
    k: usize,
    t: u8,
    c: Cursor,
    budget: usize,
    room: usize,
    buf: &mut [u8],
    at: usize,
) -> usize
    ensures { Added buf.old at
        (stretch_in s.now k t c budget (min room most_listed)) buf.new result }
{
    let mut list = [0u16; MOST];
    let n = room.min(MOST);
    stretch_into(s, k, t, c, budget, &mut list[0..n], buf, at)
}
