// A packet's frame into a lent buffer: its first eight bytes, and its padding (RFC 3611, 2; RULES, "Job lists and
// writing").
#![tactic(auto)]

ghost use Rattle.std.specs.Prelude.{◌≡◌, ◌∷◌, ◌++◌, ◌+◌, ◌-◌, ◌/◌, ◌≤◌, length, replicate};
ghost use Rattle.def_wire.specs.Bytes.{two, four};
ghost use Rattle.laws.specs.Stores.{Wrote};
ghost use Rattle.def_jobs.specs.Layout.{first_byte, padding_bytes};

use xr::Xr;

// Bit P of the first byte, beside version 2 (RFC 3550, 6.4.1).
fn first_byte(padding: usize) -> u8
    ensures { result ≡ first_byte padding }
{
    if padding == 0 { 128 } else { 160 }
}

// A packet's first eight bytes: `size` bytes in all, of which `padding` stand behind the blocks.
// Port of: mod.rs XrBuilder::write_into_unchecked; differs: padding sets P, and a buffer of less than eight bytes takes
// what there is room for.
pub fn write_header(out: &mut [u8], padding: usize, size: usize, sender: u32) -> usize
    ensures { Wrote out.old 0
        (first_byte padding ∷ 207 ∷ two ((size - 4) / 4) ++ four sender) out.new result }
{
    utils::put16(out, 0, utils::pair(first_byte(padding), Xr::PACKET_TYPE));
    utils::put16(out, 2, (size.saturating_sub(4) / 4 % 65536) as u16);
    utils::put32(out, 4, sender);
    8
}

// So many zero bytes.
fn zero_bytes(out: &mut [u8], at: usize, count: usize) -> usize
    requires { at + count ≤ length out.old }
    ensures { Wrote out.old at (replicate count 0) out.new result }
{
    let end = at + count;
    out[at..end].fill(0);
    end
}

// The padding of so many bytes: zeros, and their count last (RFC 3550, 6.4.1). The Rust's XrBuilder has none.
pub fn write_padding(out: &mut [u8], at: usize, n: usize) -> usize
    requires { (n ≤ 252) × (at + n ≤ length out.old) }
    ensures { Wrote out.old at (padding_bytes n) out.new result }
{
    if n == 0 {
        return at;
    }
    let count = n as u8;
    let last = zero_bytes(out, at, n - 1);
    out[last] = count;
    last + 1
}
