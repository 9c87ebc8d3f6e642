// The lines that the dump and xrprobe print (RULES, "Views, cursors and the dump"; README, "xrprobe"). The text goes
// through a lent buffer, as print's functions do, and each function promises that it has added exactly its line
// (def_dump/specs/Lines.antt).
#![tactic(auto)]

ghost use Rattle.std.specs.Prelude.{◌≡◌, take};
ghost use Rattle.def_text.specs.Buffer.{Added};
ghost use Rattle.def_text.specs.Numerals.{ascii, two_in_turn, three_in_turn};
ghost use Rattle.def_dump.specs.Lines.{refused_line, refusal_line, block_line, fields_line, time_line, list_line};
ghost use Rattle.def_dump.specs.Lines.{numbers_line, words_line, taken_line, word_line, blocks_line, view_line, packet_line};

use def_cursor::Cursor;
use def_refusals::Refusal;
use def_wire::Fields;

// `refused N`: the refusal's number alone.
pub fn refused_line(buf: &mut [u8], at: usize, x: Refusal) -> usize
    ensures { Added buf.old at (refused_line x) buf.new result }
{
    let row = refusal_number::number(x);
    let n = print::labelled(buf, at, b"refused", row.number as u64);
    print::line_end(buf, n)
}

// `ssrc S begin B end E thinning T`.
pub fn fields_line(buf: &mut [u8], at: usize, f: Fields) -> usize
    ensures { Added buf.old at (fields_line f) buf.new result }
{
    let n = print::labelled(buf, at, b"ssrc", f.ssrc as u64);
    let m = print::labelled(buf, n, b" begin", f.begin as u64);
    let o = print::labelled(buf, m, b" end", f.end as u64);
    let p = print::labelled(buf, o, b" thinning", f.thinning as u64);
    print::line_end(buf, p)
}

// `time N`.
pub fn time_line(buf: &mut [u8], at: usize, time: u64) -> usize
    ensures { Added buf.old at (time_line time) buf.new result }
{
    let n = print::labelled(buf, at, b"time", time);
    print::line_end(buf, n)
}

// `numbers ..`.
pub fn numbers_line(buf: &mut [u8], at: usize, list: &[u16], count: usize) -> usize
    ensures { Added buf.old at
        (numbers_line (take count list.now))
        buf.new result }
{
    let n = print::text(buf, at, b"numbers");
    let m = print::list16(buf, n, list, count);
    print::line_end(buf, m)
}

// `pairs n t n t ..`.
pub fn pairs_line(buf: &mut [u8], at: usize, numbers: &[u16], times: &[u32], count: usize) -> usize
    ensures { Added buf.old at
        (list_line (ascii "pairs") (two_in_turn (take count numbers.now) (take count times.now)))
        buf.new result }
{
    let n = print::text(buf, at, b"pairs");
    let m = print::list_pairs(buf, n, numbers, times, count);
    print::line_end(buf, m)
}

// `entries s l d s l d ..`.
pub fn entries_line(
    buf: &mut [u8],
    at: usize,
    a: &[u32],
    b: &[u32],
    c: &[u32],
    count: usize,
) -> usize
    ensures { Added buf.old at
        (list_line (ascii "entries")
        (three_in_turn (take count a.now) (take count b.now) (take count c.now)))
        buf.new result }
{
    let n = print::text(buf, at, b"entries");
    let m = print::list_entries(buf, n, a, b, c, count);
    print::line_end(buf, m)
}

// `block K type T length L`.
pub fn block_line(buf: &mut [u8], at: usize, k: usize, kind: u8, length: usize) -> usize
    ensures { Added buf.old at (block_line k kind length) buf.new result }
{
    let n = print::labelled(buf, at, b"block", k as u64);
    let m = print::labelled(buf, n, b" type", kind as u64);
    let o = print::labelled(buf, m, b" length", length as u64);
    print::line_end(buf, o)
}

// `refused N A B`.
pub fn refusal_line(buf: &mut [u8], at: usize, x: Refusal) -> usize
    ensures { Added buf.old at (refusal_line x) buf.new result }
{
    let row = refusal_number::number(x);
    let n = print::labelled(buf, at, b"refused", row.number as u64);
    let m = print::number(buf, n, row.first as u64);
    let o = print::number(buf, m, row.second as u64);
    print::line_end(buf, o)
}

// `words ..`.
pub fn words_line(buf: &mut [u8], at: usize, list: &[u16], count: usize) -> usize
    ensures { Added buf.old at
        (words_line (take count list.now))
        buf.new result }
{
    let n = print::text(buf, at, b"words");
    let m = print::list16(buf, n, list, count);
    print::line_end(buf, m)
}

// `taken K word W place P position Q`.
pub fn taken_line(buf: &mut [u8], at: usize, taken: usize, next: Cursor) -> usize
    ensures { Added buf.old at (taken_line taken next) buf.new result }
{
    let n = print::labelled(buf, at, b"taken", taken as u64);
    let m = print::labelled(buf, n, b" word", next.word as u64);
    let o = print::labelled(buf, m, b" place", next.place as u64);
    let p = print::labelled(buf, o, b" position", next.position as u64);
    print::line_end(buf, p)
}

// `word hhhh`.
pub fn word_line(buf: &mut [u8], at: usize, hi: u8, lo: u8) -> usize
    ensures { Added buf.old at (word_line hi lo) buf.new result }
{
    let n = print::text(buf, at, b"word ");
    let m = print::hex(buf, n, hi);
    let o = print::hex(buf, m, lo);
    print::line_end(buf, o)
}

// `blocks N ssrc S`.
pub fn blocks_line(buf: &mut [u8], at: usize, blocks: usize, ssrc: u32) -> usize
    ensures { Added buf.old at (blocks_line blocks ssrc) buf.new result }
{
    let n = print::labelled(buf, at, b"blocks", blocks as u64);
    let m = print::labelled(buf, n, b" ssrc", ssrc as u64);
    print::line_end(buf, m)
}

// `view OFFSET LENGTH header hhhhhhhh`.
pub fn view_line(buf: &mut [u8], at: usize, offset: usize, size: usize, header: &[u8]) -> usize
    ensures { Added buf.old at (view_line offset size header.now) buf.new result }
{
    let n = print::labelled(buf, at, b"view", offset as u64);
    let m = print::number(buf, n, size as u64);
    let o = print::text(buf, m, b" header ");
    let p = print::hex_list(buf, o, header, header.len());
    print::line_end(buf, p)
}

// `packet HEX`: the first so many bytes of a list.
pub fn packet_line(buf: &mut [u8], at: usize, bytes: &[u8], count: usize) -> usize
    ensures { Added buf.old at
        (packet_line (take count bytes.now))
        buf.new result }
{
    let n = print::text(buf, at, b"packet ");
    let m = print::hex_list(buf, n, bytes, count);
    print::line_end(buf, m)
}
