// The questions of xrprobe that are not answered by a list of numbers (README, "xrprobe", kinds 3, 5 to 8, 11 and
// 13): the library's function is asked, and the answer's line or the refusal is added to the buffer. A packet and a
// chunk word are made in memory of so much room, lent with a pattern in it. Each function promises that it has added
// exactly def_probe's line.
#![tactic(auto)]

ghost use Rattle.std.specs.Prelude.{min, length};
ghost use Rattle.def_refusals.specs.Answers.{Listed};
ghost use Rattle.def_wire.specs.Packet.{count_of, locate};
ghost use Rattle.def_standard.specs.Chunks.{word_bytes};
ghost use Rattle.def_questions.specs.Packets.{time_asked, summary_asked};
ghost use Rattle.def_questions.specs.ByNumber.{fields_by};
ghost use Rattle.def_jobs.specs.Writing.{packet_of};
ghost use Rattle.def_text.specs.Buffer.{Added};
ghost use Rattle.def_dump.specs.Lines.{packet_line};
ghost use Rattle.def_probe.specs.Requests.{most_written, most_made, line_in, fields_told, time_told, blocks_told, view_told};
ghost use Rattle.def_probe.specs.Requests.{word_told, summary_told};
ghost use Rattle.lent.specs.Pattern.{mark8};
ghost use Rattle.lent.specs.Telling.{tell_list};

use def_jobs::Layout;
use def_refusals::Refusal;
use def_standard::Chunk;
use def_wire::Reading;
use xr::Xr;

// The most room that is lent to a packet.
const MOST: usize = 262144;

// Block k's fields, asked by a number.
pub fn fields(r: Reading, s: &[u8], k: usize, t: u8, buf: &mut [u8], at: usize) -> usize
    ensures { Added buf.old at (fields_told (fields_by r s.now k t)) buf.new result }
{
    match by_number::fields(r, s, k, t) {
        Ok(f) => lines::fields_line(buf, at, f),
        Err(x) => lines::refusal_line(buf, at, x),
    }
}

// Block k's time.
pub fn time(r: Reading, s: &[u8], k: usize, buf: &mut [u8], at: usize) -> usize
    ensures { Added buf.old at (time_told (time_asked r s.now k)) buf.new result }
{
    match block::time_in(r, s, k) {
        Ok(t) => lines::time_line(buf, at, t.0),
        Err(x) => lines::refusal_line(buf, at, x),
    }
}

// Block k's summary.
pub fn summed(r: Reading, s: &[u8], k: usize, buf: &mut [u8], at: usize) -> usize
    ensures { Added buf.old at (summary_told (summary_asked r s.now k))
        buf.new result }
{
    match summary::summary_in(r, s, k) {
        Ok(x) => summary_lines::summary_lines(buf, at, x),
        Err(x) => lines::refusal_line(buf, at, x),
    }
}

// A packet's count of blocks and its sender.
pub fn parsed(r: Reading, s: &[u8], buf: &mut [u8], at: usize) -> usize
    ensures { Added buf.old at (blocks_told s.now (count_of r s.now))
        buf.new result }
{
    match xr::Xr::parse(r, s) {
        Ok(x) => lines::blocks_line(buf, at, x.blocks, x.ssrc),
        Err(x) => lines::refusal_line(buf, at, x),
    }
}

// Where block k's view lies, how long it is, and its header bytes.
pub fn viewed(r: Reading, s: &[u8], k: usize, buf: &mut [u8], at: usize) -> usize
    ensures { Added buf.old at (view_told s.now (locate r s.now k))
        buf.new result }
{
    match xr::locate(r, s, k) {
        Ok((offset, size)) => {
            let h = xr::header_data(xr::view(r, s, k));
            lines::view_line(buf, at, offset, size, &h)
        }
        Err(x) => lines::refusal_line(buf, at, x),
    }
}

fn tell_packet(buf: &mut [u8], at: usize, out: &[u8], a: Result<usize, Refusal>) -> usize
    ensures { Added buf.old at (tell_list mark8 packet_line a out.now)
        buf.new result }
{
    match a {
        Ok(n) => {
            let m = lines::packet_line(buf, at, out, n);
            lent::said_whole(buf, m, lent::stands(out, n))
        }
        Err(x) => {
            let m = lines::refusal_line(buf, at, x);
            lent::said_whole(buf, m, lent::stands(out, 0))
        }
    }
}

// The packet of a job list in a layout.
fn write_in(layout: Layout, list: &[u8], out: &mut [u8]) -> Result<usize, Refusal>
    ensures { Listed (packet_of layout list.now) out.old result out.new }
{
    match layout {
        Layout::Plain => write::write_plain(list, out),
        Layout::Careful => write::write_careful(list, out),
    }
}

fn written_into(layout: Layout, list: &[u8], out: &mut [u8], buf: &mut [u8], at: usize) -> usize
    ensures { Added buf.old at
        (line_in (length out.old) packet_line (packet_of layout list.now)) buf.new result }
{
    lent::fill(out);
    let a = write_in(layout, list, out);
    tell_packet(buf, at, out, a)
}

// The packet of a job list, in a layout.
pub fn written(layout: Layout, list: &[u8], room: usize, buf: &mut [u8], at: usize) -> usize
    ensures { Added buf.old at
        (line_in (min room most_written) packet_line (packet_of layout list.now)) buf.new result }
{
    let mut out = [0u8; MOST];
    let n = room.min(MOST);
    written_into(layout, list, &mut out[0..n], buf, at)
}

// The line of a chunk word's two bytes.
fn word_of(buf: &mut [u8], at: usize, bytes: &[u8]) -> usize
    ensures { Added buf.old at (word_told bytes.now) buf.new result }
{
    lines::word_line(buf, at, utils::byte_at(bytes, 0), utils::byte_at(bytes, 1))
}

fn tell_word(buf: &mut [u8], at: usize, out: &[u8], a: Result<usize, Refusal>) -> usize
    ensures { Added buf.old at (tell_list mark8 word_told a out.now) buf.new result }
{
    match a {
        Ok(n) => {
            let m = word_of(buf, at, utils::part(out, 0, n));
            lent::said_whole(buf, m, lent::stands(out, n))
        }
        Err(x) => {
            let m = lines::refusal_line(buf, at, x);
            lent::said_whole(buf, m, lent::stands(out, 0))
        }
    }
}

fn made_into(chunk: Chunk, out: &mut [u8], buf: &mut [u8], at: usize) -> usize
    ensures { Added buf.old at
        (line_in (length out.old) word_told (word_bytes chunk)) buf.new result }
{
    lent::fill(out);
    let a = chunk::write_chunk(chunk, out);
    tell_word(buf, at, out, a)
}

// One chunk word.
pub fn made(chunk: Chunk, room: usize, buf: &mut [u8], at: usize) -> usize
    ensures { Added buf.old at
        (line_in (min room most_made) word_told (word_bytes chunk)) buf.new result }
{
    let mut out = [0u8; 8];
    let n = room.min(8);
    made_into(chunk, &mut out[0..n], buf, at)
}
