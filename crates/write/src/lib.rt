// The packet of a job list, into a lent buffer (RULES, "Job lists and writing"). One pass judges and sizes, careful
// writing's second one looks for what misleads, and the last one writes; each byte is written once. Port of: xr/mod.rs
// XrBuilder with RtcpPacketWriterExt::write_into; differs: a job list in place of builders, padding is sized and
// written, and 12, 14, 15 and 11 are judged here.
#![tactic(auto)]

ghost use Rattle.std.specs.Prelude.{◌≡◌, ◌++◌, ◌+◌, ◌-◌, ◌≤◌, length, drop};
ghost use Rattle.def_refusals.specs.Answers.{Listed};
ghost use Rattle.laws.specs.Stores.{Wrote};
ghost use Rattle.def_jobs.specs.Jobs.{jobs_of, jobs_fault};
ghost use Rattle.def_jobs.specs.Layout.{blocks_bytes, layout_of};
ghost use Rattle.def_jobs.specs.Writing.{mislead_fault, packet_of};
ghost use Rattle.jobs.specs.Places.{jobs_behind};
ghost use Rattle.packet_size.specs.Sizes.{size_answer};
ghost use Rattle.misled.specs.Misled.{misled_fault};

use def_jobs::Layout;
use def_refusals::Refusal;

// The blocks of the records from a place on.
fn write_blocks(layout: Layout, list: &[u8], from: usize, out: &mut [u8], start: usize) -> usize
    requires { (from ≤ length list.now) × (jobs_fault 1 (jobs_behind (drop from list.now)) ≡ Ok tt)
        × (start + length (blocks_bytes layout (jobs_behind (drop from list.now))) ≤ length out.old) }
    ensures { Wrote out.old start (blocks_bytes layout (jobs_behind (drop from list.now)))
        out.new result }
{
    let mut at = from;
    let mut n = start;
    while at < list.len() {
        let body = jobs::whole_body(list, at);
        n = builder::write_block(layout, jobs::whole_kind(list, at), body, out, n);
        at += 6 + body.len();
    }
    n
}

// A packet of `size` bytes, which the buffer has room for.
fn lay_out(layout: Layout, list: &[u8], size: usize, out: &mut [u8])
    requires { (size_answer layout (jobs_of list.now) ≡ Ok size) × (size ≤ length out.old) }
    ensures { out.new ≡ layout_of layout (jobs_of list.now) ++ drop size out.old }
{
    let header = jobs::body_at(list, 0);
    let padding = usize::from(little_endian::u16_from_le_bytes(header, 4));
    let blocks = frame::write_header(
        out,
        padding,
        size,
        little_endian::u32_from_le_bytes(header, 0),
    );
    let end = write_blocks(layout, list, jobs::next_at(list, 0), out, blocks);
    frame::write_padding(out, end, padding);
}

// The packet, where the buffer has room for it; else 11.
fn put(layout: Layout, list: &[u8], size: usize, out: &mut [u8]) -> Result<usize, Refusal>
    requires { size_answer layout (jobs_of list.now) ≡ Ok size }
    ensures { Listed (Ok (layout_of layout (jobs_of list.now))) out.old result
        out.new }
{
    if out.len() < size {
        return Err(Refusal::NoRoom(size, out.len()));
    }
    lay_out(layout, list, size, out);
    Ok(size)
}

// The packet in the plain layout, and its length: 12, 14, 11. Bytes behind the packet stay, and a refused call writes
// nothing.
pub fn write_plain(list: &[u8], out: &mut [u8]) -> Result<usize, Refusal>
    ensures { Listed (packet_of Layout.Plain list.now) out.old result out.new }
{
    let size = packet_size::packet_size(Layout::Plain, list)?;
    put(Layout::Plain, list, size, out)
}

// 15 with the first of the records from a place on that misleads; their blocks have so many bytes.
fn misled_behind(list: &[u8], from: usize, bytes: usize) -> Result<(), Refusal>
    requires { (from ≤ length list.now) × (jobs_fault 1 (jobs_behind (drop from list.now)) ≡ Ok tt)
        × (bytes ≡ length (blocks_bytes Layout.Careful (jobs_behind (drop from list.now)))) }
    ensures { result ≡ misled_fault 0 (jobs_behind (drop from list.now)) }
{
    let mut at = from;
    let mut behind = bytes;
    let mut k: usize = 0;
    while at < list.len() {
        let body = jobs::whole_body(list, at);
        let kind = jobs::whole_kind(list, at);
        behind -= block_size::block_size(Layout::Careful, kind, body);
        if misled::misled(kind, body, behind) {
            return Err(Refusal::Misleads(k));
        }
        k += 1;
        at += 6 + body.len();
    }
    Ok(())
}

// 15 of a packet of `size` bytes: none with padding, as the crate then refuses the packet.
fn misleading(list: &[u8], size: usize) -> Result<(), Refusal>
    requires { size_answer Layout.Careful (jobs_of list.now) ≡ Ok size }
    ensures { result ≡ mislead_fault Layout.Careful (layout_of Layout.Careful (jobs_of list.now))
        (length (jobs_of list.now) - 1) }
{
    if little_endian::u16_from_le_bytes(jobs::body_at(list, 0), 4) != 0 {
        return Ok(());
    }
    misled_behind(list, jobs::next_at(list, 0), size - 8)
}

// The packet in the careful layout, and its length: 12, 14, 15, 11. An old reader of it is not misled. Bytes behind the
// packet stay, and a refused call writes nothing.
pub fn write_careful(list: &[u8], out: &mut [u8]) -> Result<usize, Refusal>
    ensures { Listed (packet_of Layout.Careful list.now) out.old result out.new }
{
    let size = packet_size::packet_size(Layout::Careful, list)?;
    misleading(list, size)?;
    put(Layout::Careful, list, size, out)
}
