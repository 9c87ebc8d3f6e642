// The library's answers as numbers, for callers in other languages: each a flat copy of an answer.
#![tactic(auto)]

ghost use Rattle.std.specs.Prelude.{◌≡◌};
ghost use Rattle.flat.specs.Flat.{reading_of, chunk_asked, flat_refusal, flat_of, flat_located, flat_fields};
ghost use Rattle.flat.specs.Flat.{flat_time, flat_stretch, flat_chunk, flat_checked, flat_followed, flat_summary};
ghost use Rattle.flat.specs.Flat.{summary_row, no_sums};

use def_cursor::Stretch;
use def_refusals::Refusal;
use def_standard::Chunk;
use def_wire::{ByteSpread, Fields, LongTime, Reading, Spread, Summary, Sums};
use states::{Followed, Portions};

// Code 0 and what was found; or RULES' number of the refusal and its two values.
#[repr(C)]
#[derive(Drop)]
pub struct Flat {
    pub code: u32,
    pub first: u64,
    pub second: u64,
}

// The same with the fields of a block of type 1, 2 or 3 beside it, 0 where they are refused.
#[repr(C)]
#[derive(Drop)]
pub struct FlatFields {
    pub code: u32,
    pub first: u64,
    pub second: u64,
    pub ssrc: u32,
    pub begin: u16,
    pub end: u16,
    pub thinning: u8,
}

// The same with where a number cursor stands next, how many steps it took and how many numbers it listed, 0 where it
// is refused.
#[repr(C)]
#[derive(Drop)]
pub struct FlatStretch {
    pub code: u32,
    pub first: u64,
    pub second: u64,
    pub word: u64,
    pub place: u64,
    pub position: u64,
    pub taken: u64,
    pub listed: u64,
}

// What stands at a place of a packet: where the next block begins, how many bytes the block's view has, and what its
// header bytes say.
#[repr(C)]
#[derive(Drop)]
pub struct FlatBlock {
    pub next: u64,
    pub size: u64,
    pub length: u32,
    pub kind: u8,
    pub specific: u8,
}

// The answer to a call on a packet that comes in portions: code 0 or the refusal, how many bytes were taken, how many
// events were listed, and the state for the next call.
#[repr(C)]
#[derive(Drop)]
pub struct FlatFollowed {
    pub code: u32,
    pub first: u64,
    pub second: u64,
    pub taken: u64,
    pub events: u64,
    pub state: Portions,
}

// The same with what a Statistics Summary block shows beside it, 0 where it is refused. The flags say which numbers are
// there, as in the block's specific byte: L 128, D 64, J 32, ToH 16 and 8; a number that is absent is 0.
#[repr(C)]
#[derive(Drop)]
pub struct FlatSummary {
    pub code: u32,
    pub first: u64,
    pub second: u64,
    pub ssrc: u32,
    pub lost: u32,
    pub duplicates: u32,
    pub jitter_min: u32,
    pub jitter_max: u32,
    pub jitter_mean: u32,
    pub jitter_deviation: u32,
    pub begin: u16,
    pub end: u16,
    pub flags: u8,
    pub hops_min: u8,
    pub hops_max: u8,
    pub hops_mean: u8,
    pub hops_deviation: u8,
}

// The reading that a number asks for.
pub fn reading(r: u8) -> Reading
    ensures { result ≡ reading_of r }
{
    if r == 0 {
        Reading::Standard
    } else {
        Reading::Crate
    }
}

// The kind of chunk word that a number asks for.
pub fn kind(k: u8, value: u32) -> Chunk
    ensures { result ≡ chunk_asked k value }
{
    if k == 0 {
        return Chunk::Null;
    }
    if k == 1 {
        return Chunk::Skip(value);
    }
    if k == 2 {
        return Chunk::Run(value);
    }
    Chunk::Vector(value)
}

// A refusal's number and its two values.
pub fn refusal(x: Refusal) -> Flat
    ensures { result ≡ flat_refusal x }
{
    let n = refusal_number::number(x);
    Flat {
        code: n.number as u32,
        first: n.first as u64,
        second: n.second as u64,
    }
}

// A count.
pub fn answer(a: Result<usize, Refusal>) -> Flat
    ensures { result ≡ flat_of a }
{
    match a {
        Ok(n) => Flat {
            code: 0,
            first: n as u64,
            second: 0,
        },
        Err(x) => refusal(x),
    }
}

// Where a view lies.
pub fn located(a: Result<(usize, usize), Refusal>) -> Flat
    ensures { result ≡ flat_located a }
{
    match a {
        Ok((at, n)) => Flat {
            code: 0,
            first: at as u64,
            second: n as u64,
        },
        Err(x) => refusal(x),
    }
}

// A block's fields.
pub fn fields(a: Result<Fields, Refusal>) -> FlatFields
    ensures { result ≡ flat_fields a }
{
    match a {
        Ok(g) => FlatFields {
            code: 0,
            first: 0,
            second: 0,
            ssrc: g.ssrc,
            begin: g.begin,
            end: g.end,
            thinning: g.thinning,
        },
        Err(x) => {
            let f = refusal(x);
            FlatFields {
                code: f.code,
                first: f.first,
                second: f.second,
                ssrc: 0,
                begin: 0,
                end: 0,
                thinning: 0,
            }
        }
    }
}

// A 64-bit time.
pub fn time(a: Result<LongTime, Refusal>) -> Flat
    ensures { result ≡ flat_time a }
{
    match a {
        Ok(t) => Flat {
            code: 0,
            first: t.0,
            second: 0,
        },
        Err(x) => refusal(x),
    }
}

// A cursor's stretch.
pub fn stretch(a: Result<Stretch, Refusal>) -> FlatStretch
    ensures { result ≡ flat_stretch a }
{
    match a {
        Ok(t) => {
            let next = t.next;
            FlatStretch {
                code: 0,
                first: 0,
                second: 0,
                word: next.word as u64,
                place: next.place as u64,
                position: next.position as u64,
                taken: t.taken as u64,
                listed: t.listed as u64,
            }
        }
        Err(x) => {
            let f = refusal(x);
            FlatStretch {
                code: f.code,
                first: f.first,
                second: f.second,
                word: 0,
                place: 0,
                position: 0,
                taken: 0,
                listed: 0,
            }
        }
    }
}

// A chunk word's kind and its value.
pub fn kind_number(c: Chunk) -> Flat
    ensures { result ≡ flat_chunk c }
{
    match c {
        Chunk::Null => Flat {
            code: 0,
            first: 0,
            second: 0,
        },
        Chunk::Skip(m) => Flat {
            code: 0,
            first: 1,
            second: m as u64,
        },
        Chunk::Run(m) => Flat {
            code: 0,
            first: 2,
            second: m as u64,
        },
        Chunk::Vector(v) => Flat {
            code: 0,
            first: 3,
            second: v as u64,
        },
    }
}

// Whether something is refused: code 0 and no values where it is not.
fn checked(c: Result<(), Refusal>) -> Flat
    ensures { result ≡ flat_checked c }
{
    match c {
        Ok(()) => Flat {
            code: 0,
            first: 0,
            second: 0,
        },
        Err(x) => refusal(x),
    }
}

// A call on a packet that comes in portions.
pub fn followed(r: Followed) -> FlatFollowed
    ensures { result ≡ flat_followed r }
{
    let c = r.refusal;
    let f = checked(c);
    let s = r.state;
    FlatFollowed {
        code: f.code,
        first: f.first,
        second: f.second,
        taken: r.taken as u64,
        events: r.events as u64,
        state: s,
    }
}

// An answer with a summary's flags and numbers beside it.
fn summary_row(f: Flat, flags: u8, n: Sums) -> FlatSummary
    ensures { result ≡ summary_row f flags n }
{
    let j = n.jitter;
    let h = n.hops;
    FlatSummary {
        code: f.code,
        first: f.first,
        second: f.second,
        ssrc: n.ssrc,
        lost: n.lost,
        duplicates: n.duplicates,
        jitter_min: j.least,
        jitter_max: j.most,
        jitter_mean: j.mean,
        jitter_deviation: j.deviation,
        begin: n.begin,
        end: n.end,
        flags,
        hops_min: h.least,
        hops_max: h.most,
        hops_mean: h.mean,
        hops_deviation: h.deviation,
    }
}

fn no_sums() -> Sums
    ensures { result ≡ no_sums }
{
    Sums {
        ssrc: 0,
        begin: 0,
        end: 0,
        lost: 0,
        duplicates: 0,
        jitter: Spread {
            least: 0,
            most: 0,
            mean: 0,
            deviation: 0,
        },
        hops: ByteSpread {
            least: 0,
            most: 0,
            mean: 0,
            deviation: 0,
        },
    }
}

// A summary.
pub fn summary(a: Result<Summary, Refusal>) -> FlatSummary
    ensures { result ≡ flat_summary a }
{
    match a {
        Ok(s) => {
            let f = Flat {
                code: 0,
                first: 0,
                second: 0,
            };
            summary_row(f, stats::flags_of(s), stats::sums_of(s))
        }
        Err(x) => summary_row(refusal(x), 0, no_sums()),
    }
}
