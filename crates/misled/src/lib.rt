// Whether an old reader would be misled by a record's block (RULES, "Job lists and writing"): asked of the record and
// of how many bytes stand behind its block. Nothing is laid out, and words are passed once, many at a time where that
// can be done, not position by position.
#![tactic(auto)]

ghost use Rattle.std.specs.Prelude.{◌≡◌, ◌+◌, ◌*◌, ◌%◌, ◌<◌, ◌≤◌, length};
ghost use Rattle.def_standard.specs.Chunks.{covers_of};
ghost use Rattle.def_jobs.specs.Jobs.{le16, job_fields, job_words};
ghost use Rattle.jobs.specs.Places.{job_of};
ghost use Rattle.block_size.specs.Judged.{Fielded};
ghost use Rattle.misled.specs.Misled.{shared_of, goes_on, misled_times, misled_echoes, misled_by};
ghost use Rattle.misled.specs.Known.{FirstOne, covered_in, QuietIn, Over};

use def_standard::Range;
use def_wire::{Fields, Kind, Ranged};

// The fields of a body of types 1 to 3; the kind makes no difference.
fn fields_of(body: &[u8]) -> Fields
    requires { le16 body.now 8 ≤ 15 }
    ensures { result ≡ job_fields (job_of 1 body.now) }
{
    let thinning = little_endian::u16_from_le_bytes(body, 8);
    Fields {
        ssrc: little_endian::u32_from_le_bytes(body, 0),
        begin: little_endian::u16_from_le_bytes(body, 4),
        end: little_endian::u16_from_le_bytes(body, 6),
        thinning: thinning as u8,
    }
}

// The positions that both readings list, as the same numbers: counted from begin, as old readers count.
fn shared_of(f: Fields) -> Range
    ensures { result ≡ shared_of f }
{
    let g = range::range_of(f);
    if g.begin == f.begin {
        return g;
    }
    Range {
        begin: f.begin,
        size: 0,
        thinning: f.thinning,
    }
}

// The first place of a word, from one on, that has value one; a place past its last where none has.
fn one_from(w: u16, place: usize) -> usize
    requires { place < covers_of w }
    ensures { FirstOne w place result }
{
    if w < 0x4000 {
        return w as usize;
    }
    if w < 0x8000 {
        return place;
    }
    let rest = u32::from(w) << (17 + place);
    place + rest.leading_zeros() as usize
}

// How many positions so many words from an index on cover. Low and high bytes are added apart, since 16 bits hold
// either sum.
fn covered_in(body: &[u8], from: usize, n: usize) -> usize
    requires { (from + 2 * n ≤ length body.now) × (n ≤ 256) }
    ensures { result ≡ covered_in body.now from n }
{
    let mut low: u16 = 0;
    let mut high: u16 = 0;
    for k in 0..n {
        let c = chunk::covers(little_endian::load16(body, from + 2 * k));
        low += c % 256;
        high += c / 256;
    }
    high as usize * 256 + low as usize
}

// What words outside the range come to: the position behind them, on the circle of 65,536, and a number that is below
// 0x4000 only where none of them has a one.
#[derive(Drop)]
struct Outside {
    p: u16,
    ones: u16,
}

// Each word goes into the number without its lowest one bit, as 0x4000 and 0x8000 have no ones either.
fn outside_in(body: &[u8], from: usize, n: usize, start: u16) -> Outside
    requires { from + 2 * n ≤ length body.now }
    ensures p_value { result.p ≡ (start + covered_in body.now from n) % 65536 }
    ensures quiet_in { result.ones < 16384 → QuietIn body.now from n }
{
    let mut p = start;
    let mut ones: u16 = 0;
    for k in 0..n {
        let w = little_endian::load16(body, from + 2 * k);
        p = std::num::wrapping_add_u16(p, chunk::covers(w));
        ones = ones | (w & std::num::wrapping_sub_u16(w, 1));
    }
    Outside { p, ones }
}

// Where the pass over the words stands: `left` positions are still inside the range, and `p` is the first position of
// the word at `at`, on the circle of 65,536.
#[derive(Drop)]
struct Pass {
    left: usize,
    p: u16,
    at: usize,
}

// Passes up to 256 words at once, where they end inside the range, or begin outside it and none of them has a one;
// else none.
fn stretch(body: &[u8], left: usize, p: u16, at: usize) -> Pass
    requires { at ≤ length body.now }
    ensures { Over body.now left p at result.left result.p result.at }
{
    let n = 256usize.min((body.len() - at) / 2);
    let to = at + 2 * n;
    if left == 0 {
        let s = outside_in(body, at, n, p);
        if s.ones < 0x4000 {
            return Pass {
                left,
                p: s.p,
                at: to,
            };
        }
    } else {
        let c = covered_in(body, at, n);
        if c <= left {
            return Pass {
                left: left.saturating_sub(c),
                p: std::num::wrapping_add_u16(p, (c % 65536) as u16),
                at: to,
            };
        }
    }
    Pass { left, p, at }
}

// Types 1 and 2: whether the crate's list goes on past what is shared. Stretches are passed at once as long as that can
// be done; the words of one that cannot be, those before `singly`, are gone through one by one.
fn goes_on(body: &[u8], g: Range, end: u16) -> bool
    requires { Fielded body.now 2 }
    ensures { result ≡ goes_on g end 0 (job_words (job_of 1 body.now)) }
{
    let mut left = range::inside_count(g);
    let mut p: u16 = 0;
    let mut at: usize = 10;
    let mut singly: usize = 10;
    while at < body.len() {
        if singly <= at {
            let s = stretch(body, left, p, at);
            if at < s.at {
                left = s.left;
                p = s.p;
                at = s.at;
                continue;
            }
            singly = at + 512;
        }
        let w = little_endian::load16(body, at);
        let covered = chunk::covers(w);
        if left < covered as usize {
            let q = one_from(w, left);
            if q < covered as usize {
                let start = range::number_at(g, p as usize);
                return range::passes(start, end, range::number_at(g, p as usize + q));
            }
            left = 0;
        } else {
            left -= covered as usize;
        }
        p = std::num::wrapping_add_u16(p, covered);
        at += 2;
    }
    false
}

// Type 3, of so many own times and so many up to the packet's end: whether the crate lists more or fewer.
fn misled_times(f: Fields, own: usize, all: usize) -> bool
    ensures { result ≡ misled_times f own all }
{
    let listed = range::first_fail(f.begin, f.end, f.thinning).min(all);
    listed != range::inside_count(shared_of(f)).min(own)
}

// Type 5: the crate takes a block of 1, 5, 9, .. entries, and lists all that stands behind them too.
fn misled_echoes(entries: usize, behind: usize) -> bool
    ensures { result ≡ misled_echoes entries behind }
{
    if entries % 4 != 1 {
        return false;
    }
    12 <= behind
}

// Whether an old reader would be misled by a record's block with so many bytes behind it; by a bad record's never, as
// it asks for none.
pub fn misled(kind: u16, body: &[u8], behind: usize) -> bool
    ensures { result ≡ misled_by (job_of kind body.now) behind }
{
    if !block_size::is_block(kind, body) {
        return false;
    }
    match jobs::kind_of(kind) {
        Some(k) => match k {
            Kind::Spans(s) => match s {
                Ranged::Chunks(_) => {
                    let f = fields_of(body);
                    goes_on(body, shared_of(f), f.end)
                }
                Ranged::Times => {
                    let own = (body.len() - 10) / 4;
                    misled_times(fields_of(body), own, own + behind / 4)
                }
            },
            Kind::Clock => false,
            Kind::Echoes => misled_echoes(body.len() / 12, behind),
            Kind::Statistics => false,
        },
        None => false,
    }
}
