// Both readings of a packet as text (RULES, "Views, cursors and the dump"). The text goes through a lent buffer, as
// print's functions do, and each function promises that it has added exactly its part of `dump_text`
// (def_dump/specs/Dump.antt). A list is filled where it is shown: into few items, and where these are too few, into as
// many as are shown of one list at most, so that a short list does not cost what a long one does.
#![tactic(auto)]

ghost use Rattle.std.specs.Prelude.{◌≡◌};
ghost use Rattle.def_wire.specs.Packet.{count_of};
ghost use Rattle.def_wire.specs.Block.{check_of, fields_of, time_of};
ghost use Rattle.def_wire.specs.Summary.{summary_of};
ghost use Rattle.def_questions.specs.Questions.{numbers_shown, pairs_shown, entries_shown};
ghost use Rattle.def_text.specs.Buffer.{Added};
ghost use Rattle.def_dump.specs.Lines.{numbers_line, pairs_line, entries_line};
ghost use Rattle.def_dump.specs.Dump.{list_or, fields_or, time_or, contents_of, unless_unfit, block_text, blocks_text};
ghost use Rattle.def_dump.specs.Dump.{summary_or, reading_text, dump_text};

use def_wire::{Kind, Ranged, Reading, Rle};

// The longest packet that is dumped.
const MAX_INPUT: usize = 65536;

// The most items that are shown of one list.
const MOST: usize = 16384;

// As many as most lists have.
const FEW: usize = 64;

// The fields of a block that is fit to be read, or `refused 8`.
fn fields_or(r: Reading, g: Ranged, v: &[u8], buf: &mut [u8], at: usize) -> usize
    ensures { Added buf.old at (fields_or (fields_of r g v.now)) buf.new result }
{
    match block::fields(r, g, v) {
        Ok(f) => lines::fields_line(buf, at, f),
        Err(x) => lines::refused_line(buf, at, x),
    }
}

// A list of over 64 items. (This and the two like it are not compiled in place: each block's call would else touch the
// room of their lists, page by page.)
#[inline(never)]
fn many_numbers(r: Reading, a: Rle, v: &[u8], buf: &mut [u8], at: usize) -> usize
    ensures { Added buf.old at (list_or numbers_line (numbers_shown r a v.now))
        buf.new result }
{
    let mut list = [0u16; MOST];
    match numbers::numbers(r, a, v, &mut list) {
        Ok(n) => lines::numbers_line(buf, at, &list, n),
        Err(x) => lines::refused_line(buf, at, x),
    }
}

fn numbers_or(r: Reading, a: Rle, v: &[u8], buf: &mut [u8], at: usize) -> usize
    ensures { Added buf.old at (list_or numbers_line (numbers_shown r a v.now))
        buf.new result }
{
    let mut list = [0u16; FEW];
    match numbers::numbers(r, a, v, &mut list) {
        Ok(n) => lines::numbers_line(buf, at, &list, n),
        Err(_) => many_numbers(r, a, v, buf, at),
    }
}

#[inline(never)]
fn many_pairs(r: Reading, v: &[u8], buf: &mut [u8], at: usize) -> usize
    ensures { Added buf.old at (list_or pairs_line (pairs_shown r v.now))
        buf.new result }
{
    let mut list = [0u16; MOST];
    let mut times = [0u32; MOST];
    match packet_receipt_time::pairs(r, v, &mut list, &mut times) {
        Ok(n) => lines::pairs_line(buf, at, &list, &times, n),
        Err(x) => lines::refused_line(buf, at, x),
    }
}

fn pairs_or(r: Reading, v: &[u8], buf: &mut [u8], at: usize) -> usize
    ensures { Added buf.old at (list_or pairs_line (pairs_shown r v.now))
        buf.new result }
{
    let mut list = [0u16; FEW];
    let mut times = [0u32; FEW];
    match packet_receipt_time::pairs(r, v, &mut list, &mut times) {
        Ok(n) => lines::pairs_line(buf, at, &list, &times, n),
        Err(_) => many_pairs(r, v, buf, at),
    }
}

fn time_or(r: Reading, v: &[u8], buf: &mut [u8], at: usize) -> usize
    ensures { Added buf.old at (time_or (time_of r v.now)) buf.new result }
{
    match block::time(r, v) {
        Ok(t) => lines::time_line(buf, at, t.0),
        Err(x) => lines::refused_line(buf, at, x),
    }
}

#[inline(never)]
fn many_entries(r: Reading, v: &[u8], buf: &mut [u8], at: usize) -> usize
    ensures { Added buf.old at (list_or entries_line (entries_shown r v.now))
        buf.new result }
{
    let mut a = [0u32; MOST];
    let mut b = [0u32; MOST];
    let mut c = [0u32; MOST];
    match dlrr::entries(r, v, &mut a, &mut b, &mut c) {
        Ok(n) => lines::entries_line(buf, at, &a, &b, &c, n),
        Err(x) => lines::refused_line(buf, at, x),
    }
}

fn entries_or(r: Reading, v: &[u8], buf: &mut [u8], at: usize) -> usize
    ensures { Added buf.old at (list_or entries_line (entries_shown r v.now))
        buf.new result }
{
    let mut a = [0u32; FEW];
    let mut b = [0u32; FEW];
    let mut c = [0u32; FEW];
    match dlrr::entries(r, v, &mut a, &mut b, &mut c) {
        Ok(n) => lines::entries_line(buf, at, &a, &b, &c, n),
        Err(_) => many_entries(r, v, buf, at),
    }
}

fn summary_or(r: Reading, v: &[u8], buf: &mut [u8], at: usize) -> usize
    ensures { Added buf.old at (summary_or (summary_of r v.now)) buf.new result }
{
    match summary::summary(r, v) {
        Ok(s) => summary_lines::summary_lines(buf, at, s),
        Err(x) => lines::refused_line(buf, at, x),
    }
}

// What stands behind the line of a block of types 1 to 3 that is fit to be read: its fields and its list.
fn ranged(r: Reading, g: Ranged, v: &[u8], buf: &mut [u8], at: usize) -> usize
    ensures { Added buf.old at (contents_of r (Kind.Spans g) v.now)
        buf.new result }
{
    let n = fields_or(r, g, v, buf, at);
    match g {
        Ranged::Chunks(a) => numbers_or(r, a, v, buf, n),
        Ranged::Times => pairs_or(r, v, buf, n),
    }
}

// What stands behind a block's line, by its kind.
fn contents(r: Reading, k: Kind, v: &[u8], buf: &mut [u8], at: usize) -> usize
    ensures { Added buf.old at (contents_of r k v.now) buf.new result }
{
    match k {
        Kind::Spans(g) => ranged(r, g, v, buf, at),
        Kind::Clock => time_or(r, v, buf, at),
        Kind::Echoes => entries_or(r, v, buf, at),
        Kind::Statistics => summary_or(r, v, buf, at),
    }
}

// The same, or one `refused 7`.
fn contents_or(r: Reading, k: Kind, v: &[u8], buf: &mut [u8], at: usize) -> usize
    ensures { Added buf.old at
        (unless_unfit (check_of r k v.now) (contents_of r k v.now)) buf.new result }
{
    match block::check(r, k, v) {
        Ok(()) => contents(r, k, v, buf, at),
        Err(x) => lines::refused_line(buf, at, x),
    }
}

// Block k, of which v is the view: its line, and what it shows. Of types that the reading does not know, type and
// length only.
fn one_block(r: Reading, k: usize, v: &[u8], buf: &mut [u8], at: usize) -> usize
    ensures { Added buf.old at (block_text r k v.now) buf.new result }
{
    let h = xr::header_data(v);
    let n = lines::block_line(buf, at, k, xr::block_type(h), xr::block_length(h));
    match records::kind_in(r, xr::block_type(h)) {
        Some(kind) => contents_or(r, kind, v, buf, n),
        None => n,
    }
}

// The blocks of an accepted packet, one after the other.
fn blocks(r: Reading, packet: &[u8], count: usize, buf: &mut [u8], at: usize) -> usize
    requires { count_of r packet.now ≡ Ok count }
    ensures { Added buf.old at (blocks_text r packet.now 0 count)
        buf.new result }
{
    let mut place: usize = 8;
    let mut n = at;
    for k in 0..count {
        n = one_block(r, k, reader::view_from(r, packet, place), buf, n);
        place = reader::moved_from(packet, place);
    }
    n
}

// A reading that refuses the packet is `refused N` alone.
fn one_reading(r: Reading, packet: &[u8], buf: &mut [u8], at: usize) -> usize
    ensures { Added buf.old at (reading_text r packet.now) buf.new result }
{
    match xr::count(r, packet) {
        Ok(count) => blocks(r, packet, count, buf, at),
        Err(x) => lines::refused_line(buf, at, x),
    }
}

// Both readings of a packet.
pub fn dump(packet: &[u8], buf: &mut [u8], at: usize) -> usize
    ensures { Added buf.old at (dump_text packet.now) buf.new result }
{
    if MAX_INPUT < packet.len() {
        return print::text(buf, at, b"refused 11\n");
    }
    let n = print::text(buf, at, b"reading standard\n");
    let m = one_reading(Reading::Standard, packet, buf, n);
    let o = print::text(buf, m, b"reading crate\n");
    one_reading(Reading::Crate, packet, buf, o)
}
