// The numbers of a Statistics Summary block and its flags (RFC 3611, 4.6; def_wire/specs/Summary.antt): what is shown
// of them, and back.
#![tactic(auto)]

ghost use Rattle.std.specs.Prelude.{◌≡◌, ◌≤◌, cond, is_some};
ghost use Rattle.def_wire.specs.Summary.{hops_by, summary_from, toh_of, flags_of, is_set, hops_of, sums_of};

use def_wire::{ByteSpread, HopsOr, Spread, Summary, Sums};

// By ToH.
fn hops_by(toh: u8, x: ByteSpread) -> HopsOr
    ensures { result ≡ hops_by toh x }
{
    match toh {
        0 => HopsOr::NoHops,
        1 => HopsOr::Ttl(x),
        2 => HopsOr::HopLimit(x),
        _ => HopsOr::Unknown,
    }
}

// Whether a flag is set.
fn is_set(bit: u8, flags: u8) -> bool
    requires { 1 ≤ bit }
    ensures { result ≡ is_set bit flags }
{
    flags / bit % 2 == 1
}

// What is shown of a block's numbers, by its specific byte: a number whose flag is clear is none, which is another answer
// than 0.
pub fn summary_from(flags: u8, n: Sums) -> Summary
    ensures { result ≡ summary_from flags n }
{
    Summary {
        ssrc: n.ssrc,
        begin: n.begin,
        end: n.end,
        lost: is_set(128, flags).then_some(n.lost),
        duplicates: is_set(64, flags).then_some(n.duplicates),
        jitter: is_set(32, flags).then_some(n.jitter),
        hops: hops_by(flags / 8 % 4, n.hops),
    }
}

// The flag of what is there.
fn flag<T: Copy>(bit: u8, x: Option<T>) -> u8
    ensures { (result ≡ cond (is_some x) bit 0) × (result ≤ bit) }
{
    if x.is_some() { bit } else { 0 }
}

// ToH, 0 to 3.
pub fn toh_of(h: HopsOr) -> u8
    ensures { (result ≡ toh_of h) × (result ≤ 3) }
{
    match h {
        HopsOr::NoHops => 0,
        HopsOr::Ttl(_) => 1,
        HopsOr::HopLimit(_) => 2,
        HopsOr::Unknown => 3,
    }
}

// The flags of what is shown; the reserved bits are clear.
pub fn flags_of(s: Summary) -> u8
    ensures { result ≡ flags_of s }
{
    flag(128, s.lost) + flag(64, s.duplicates) + flag(32, s.jitter) + toh_of(s.hops) * 8
}

// Four numbers that are absent.
const NO_JITTER: Spread = Spread {
    least: 0,
    most: 0,
    mean: 0,
    deviation: 0,
};

fn no_hops() -> ByteSpread
    ensures { result ≡ Rattle.def_wire.specs.Summary.byte_spread 0 0 0 0 }
{
    ByteSpread {
        least: 0,
        most: 0,
        mean: 0,
        deviation: 0,
    }
}

fn hops_of(h: HopsOr) -> ByteSpread
    ensures { result ≡ hops_of h }
{
    match h {
        HopsOr::NoHops => no_hops(),
        HopsOr::Ttl(x) => x,
        HopsOr::HopLimit(x) => x,
        HopsOr::Unknown => no_hops(),
    }
}

// The numbers of what is shown, 0 where one is absent.
pub fn sums_of(s: Summary) -> Sums
    ensures { result ≡ sums_of s }
{
    Sums {
        ssrc: s.ssrc,
        begin: s.begin,
        end: s.end,
        lost: s.lost.unwrap_or(0),
        duplicates: s.duplicates.unwrap_or(0),
        jitter: s.jitter.unwrap_or(NO_JITTER),
        hops: hops_of(s.hops),
    }
}
