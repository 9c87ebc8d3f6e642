// The Statistics Summary block (RFC 3611, 4.6): what it shows, in the standard reading.
#![tactic(auto)]

ghost use Rattle.std.specs.Prelude.{◌≡◌};
ghost use Rattle.def_wire.specs.Summary.{spread, byte_spread, sums_at, summary_at, summary_of};
ghost use Rattle.def_questions.specs.Packets.{summary_asked};

use def_refusals::Refusal;
use def_wire::{ByteSpread, Reading, Spread, Summary, Sums};

// The four numbers of jitter and the four bytes of TTL or hop limit, as they stand.
fn jitter_at(v: &[u8]) -> Spread
    ensures { result ≡ (sums_at v.now).jitter }
{
    Spread {
        least: utils::u32_from_be_bytes(v, 20),
        most: utils::u32_from_be_bytes(v, 24),
        mean: utils::u32_from_be_bytes(v, 28),
        deviation: utils::u32_from_be_bytes(v, 32),
    }
}

fn hops_at(v: &[u8]) -> ByteSpread
    ensures { result ≡ (sums_at v.now).hops }
{
    ByteSpread {
        least: utils::byte_at(v, 36),
        most: utils::byte_at(v, 37),
        mean: utils::byte_at(v, 38),
        deviation: utils::byte_at(v, 39),
    }
}

// All numbers as they stand.
fn sums_at(v: &[u8]) -> Sums
    ensures { result ≡ sums_at v.now }
{
    let jitter = jitter_at(v);
    let hops = hops_at(v);
    Sums {
        ssrc: utils::u32_from_be_bytes(v, 4),
        begin: utils::u16_from_be_bytes(v, 8),
        end: utils::u16_from_be_bytes(v, 10),
        lost: utils::u32_from_be_bytes(v, 12),
        duplicates: utils::u32_from_be_bytes(v, 16),
        jitter,
        hops,
    }
}

// What a view shows, whatever its type and length are.
pub fn summary_at(v: &[u8]) -> Summary
    ensures { result ≡ summary_at v.now }
{
    let h = xr::header_data(v);
    stats::summary_from(xr::type_specific_byte(h), sums_at(v))
}

// What a block of type 6 shows: 10, 7; of the crate, which has no such question, always 10.
pub fn summary(r: Reading, v: &[u8]) -> Result<Summary, Refusal>
    ensures { result ≡ summary_of r v.now }
{
    block::check_statistics(r, v)?;
    Ok(summary_at(v))
}

// The same of block k of a packet: 1 to 6, 9, 10, 7.
pub fn summary_in(r: Reading, s: &[u8], k: usize) -> Result<Summary, Refusal>
    ensures { result ≡ summary_asked r s.now k }
{
    let (at, n) = xr::locate(r, s, k)?;
    summary(r, utils::part(s, at, n))
}
