// The reading questions, chunk words from marks, and writing in both layouts, for Rust and C: each takes numbers and
// slices and answers numbers. A slice is a pointer and a length. A reading is a number: 0 the standard, anything else
// the crate's. A packet's blocks are counted from 0.
#![tactic(auto)]

ghost use Rattle.std.specs.Prelude.{◌≡◌, length};
ghost use Rattle.def_wire.specs.Packet.{count_of, locate};
ghost use Rattle.def_wire.specs.Block.{rle_of, ranged_of, fields_of, time_of};
ghost use Rattle.def_standard.specs.Chunks.{chunk_of, word_bytes};
ghost use Rattle.def_cursor.specs.Cursor.{cursor as here, advance_by, filled_by};
ghost use Rattle.def_questions.specs.Questions.{words_shown, pairs_shown, entries_shown};
ghost use Rattle.def_wire.specs.Summary.{summary_of};
ghost use Rattle.def_questions.specs.Packets.{time_asked, pairs_asked, entries_asked, summary_asked};
ghost use Rattle.def_questions.specs.ByNumber.{fields_by, numbers_by, numbers_view_by, words_by};
ghost use Rattle.def_questions.specs.ByNumber.{on_rle, on_ranged, not_served};
ghost use Rattle.def_jobs.specs.Writing.{packet_of};
ghost use Rattle.def_marks.specs.Marks.{marks_asked};
ghost use Rattle.flat.specs.Flat.{reading_of, flat_of, flat_located, flat_fields, flat_time, chunk_asked};
ghost use Rattle.flat.specs.Flat.{flat_parsed, flat_block, flat_stretch, flat_chunk, flat_summary};
ghost use Rattle.flat.specs.Lists.{FlatListed, FlatPairs, FlatEntries, FlatStretched, FlatFollowing};
ghost use Rattle.states.specs.Steps.{start};

use def_cursor::Cursor;
use def_jobs::Layout;
use flat::{Flat, FlatBlock, FlatFields, FlatFollowed, FlatStretch, FlatSummary};
use states::Portions;
use xr::Xr;

// How many blocks a packet has: 1 to 6.
#[unsafe(no_mangle)]
pub extern "C" fn xr_count(r: u8, packet: &[u8]) -> Flat
    ensures { result ≡ flat_of (count_of (reading_of r) packet.now) }
{
    flat::answer(xr::count(flat::reading(r), packet))
}

// Where block k's view begins in the packet, and how many bytes it has: 1 to 6, 9.
#[unsafe(no_mangle)]
pub extern "C" fn xr_locate(r: u8, packet: &[u8], k: usize) -> Flat
    ensures { result ≡ flat_located (locate (reading_of r) packet.now k) }
{
    flat::located(xr::locate(flat::reading(r), packet, k))
}

// The fields of block k, asked as type t (1, 2 or 3): 1 to 6, 9, 10, 7, 8.
#[unsafe(no_mangle)]
pub extern "C" fn xr_fields(r: u8, packet: &[u8], k: usize, t: u8) -> FlatFields
    ensures { result ≡ flat_fields (fields_by (reading_of r) packet.now k t) }
{
    flat::fields(by_number::fields(flat::reading(r), packet, k, t))
}

// The time of block k, of type 4: 1 to 6, 9, 10, 7.
#[unsafe(no_mangle)]
pub extern "C" fn xr_time(r: u8, packet: &[u8], k: usize) -> Flat
    ensures { result ≡ flat_time (time_asked (reading_of r) packet.now k) }
{
    flat::time(block::time_in(flat::reading(r), packet, k))
}

// The numbers of block k, asked as type t (1 or 2): 1 to 6, 9, 10, 7, 11. What the header or the walk refuses comes
// out at once.
#[unsafe(no_mangle)]
pub extern "C" fn xr_numbers(r: u8, packet: &[u8], k: usize, t: u8, out: &mut [u16]) -> Flat
    ensures { FlatListed (numbers_by (reading_of r) packet.now k t) out.old result
        out.new }
{
    let q = flat::reading(r);
    match xr::header(q, packet) {
        Ok(stop) => match xr::find(q, packet, stop, k) {
            Ok((at, n)) => flat::answer(by_number::numbers_view(
                q,
                t,
                utils::part(packet, at, n),
                out,
            )),
            Err(x) => flat::refusal(x),
        },
        Err(x) => flat::refusal(x),
    }
}

// The numbers of a block's view, as xr_locate says where it lies: 10, 7, 11.
#[unsafe(no_mangle)]
pub extern "C" fn xr_numbers_view(r: u8, t: u8, view: &[u8], out: &mut [u16]) -> Flat
    ensures { FlatListed (numbers_view_by (reading_of r) t view.now) out.old result
        out.new }
{
    flat::answer(by_number::numbers_view(flat::reading(r), t, view, out))
}

// The chunk words of block k, asked as type t: 1 to 6, 9, 10, 7, 11.
#[unsafe(no_mangle)]
pub extern "C" fn xr_words(r: u8, packet: &[u8], k: usize, t: u8, out: &mut [u16]) -> Flat
    ensures { FlatListed (words_by (reading_of r) packet.now k t) out.old result
        out.new }
{
    flat::answer(by_number::words(flat::reading(r), packet, k, t, out))
}

// The pairs of block k, of type 3, into two lists side by side: 1 to 6, 9, 10, 7, 11.
#[unsafe(no_mangle)]
pub extern "C" fn xr_pairs(
    r: u8,
    packet: &[u8],
    k: usize,
    numbers: &mut [u16],
    times: &mut [u32],
) -> Flat
    ensures { FlatPairs (pairs_asked (reading_of r) packet.now k) numbers.old
        times.old result numbers.new times.new }
{
    flat::answer(packet_receipt_time::pairs_in(flat::reading(r), packet, k, numbers, times))
}

// The entries of block k, of type 5: 1 to 6, 9, 10, 7, 11.
#[unsafe(no_mangle)]
pub extern "C" fn xr_entries(
    r: u8,
    packet: &[u8],
    k: usize,
    ssrcs: &mut [u32],
    lasts: &mut [u32],
    delays: &mut [u32],
) -> Flat
    ensures { FlatEntries (entries_asked (reading_of r) packet.now k) ssrcs.old
        lasts.old delays.old result ssrcs.new lasts.new delays.new }
{
    flat::answer(dlrr::entries_in(flat::reading(r), packet, k, ssrcs, lasts, delays))
}

// Makes one chunk word of a kind (0 Null, 1 a run of zeros, 2 a run of ones, else a vector), big-endian: 13, 11.
#[unsafe(no_mangle)]
pub extern "C" fn xr_chunk(k: u8, value: u32, out: &mut [u8]) -> Flat
    ensures { FlatListed (word_bytes (chunk_asked k value)) out.old result out.new }
{
    flat::answer(chunk::write_chunk(flat::kind(k, value), out))
}

// Makes the chunk words of marks, one byte for each position, 1 heard and 0 not; what was found is the words' number:
// 14, 17, 11.
#[unsafe(no_mangle)]
pub extern "C" fn xr_words_from_marks(marks: &[u8], out: &mut [u16]) -> Flat
    ensures { FlatListed (marks_asked marks.now) out.old result out.new }
{
    flat::answer(marks::words(marks, out))
}

// Writes the packet of a job list in the plain layout; what was found is its length: 12, 14, 11.
#[unsafe(no_mangle)]
pub extern "C" fn xr_write_plain(list: &[u8], out: &mut [u8]) -> Flat
    ensures { FlatListed (packet_of Layout.Plain list.now) out.old result out.new }
{
    flat::answer(write::write_plain(list, out))
}

// Writes the packet of a job list in the careful layout; what was found is its length: 12, 14, 15, 11.
#[unsafe(no_mangle)]
pub extern "C" fn xr_write_careful(list: &[u8], out: &mut [u8]) -> Flat
    ensures { FlatListed (packet_of Layout.Careful list.now) out.old result
        out.new }
{
    flat::answer(write::write_careful(list, out))
}

// At most budget steps of the standard number cursor in block k, asked as type t (1 or 2): 1 to 6, 9, 10, 7, 16, 11.
#[unsafe(no_mangle)]
pub extern "C" fn xr_cursor(
    packet: &[u8],
    k: usize,
    t: u8,
    word: usize,
    place: usize,
    position: usize,
    budget: usize,
    out: &mut [u16],
) -> FlatStretch
    ensures { FlatStretched packet.now k t (here word place position) budget out.old result
        out.new }
{
    let c = Cursor {
        word,
        place,
        position,
    };
    flat::stretch(by_number::advance(packet, k, t, c, budget, out))
}

// The state before the first byte of a packet that comes in portions. Never refused.
#[unsafe(no_mangle)]
pub extern "C" fn xr_portions_start() -> Portions
    ensures { result ≡ start }
{
    steps::start()
}

// Takes some bytes of such a packet, or none, and lists their events; the answer has the state for the next call: 1, 2,
// 3, 18, 19, 11, 6, 7.
#[unsafe(no_mangle)]
pub extern "C" fn xr_follow(
    state: Portions,
    bytes: &[u8],
    tags: &mut [u64],
    numbers: &mut [u16],
    values: &mut [u64],
    sums: &mut [u64],
) -> FlatFollowed
    ensures { FlatFollowing state bytes.now tags.old numbers.old
        values.old sums.old result tags.new numbers.new values.new
        sums.new }
{
    flat::followed(portions::follow(state, bytes, tags, numbers, values, sums))
}

// How many blocks a packet has, and its sender's SSRC: 1 to 6.
#[unsafe(no_mangle)]
pub extern "C" fn xr_parse(r: u8, packet: &[u8]) -> Flat
    ensures { result ≡ flat_parsed packet.now (count_of (reading_of r) packet.now) }
{
    match Xr::parse(flat::reading(r), packet) {
        Ok(p) => Flat {
            code: 0,
            first: p.blocks as u64,
            second: p.ssrc as u64,
        },
        Err(x) => flat::refusal(x),
    }
}

// What stands at a place of a packet: where the next block begins, how many bytes the block's view has from there on,
// and its header bytes. From 8 on, as often as xr_parse counts blocks, it comes to each block in turn, each at the cost
// of one. Past the end the view is empty, its bytes count as 0, and the place stays.
#[unsafe(no_mangle)]
pub extern "C" fn xr_block_at(r: u8, packet: &[u8], at: usize) -> FlatBlock
    ensures { result ≡ flat_block (reading_of r) packet.now at }
{
    let next = reader::next_place(packet, at);
    let view = reader::view_at(flat::reading(r), packet, at);
    let h = xr::header_data(view);
    FlatBlock {
        next: next as u64,
        size: view.len() as u64,
        length: xr::block_length(h) as u32,
        kind: xr::block_type(h),
        specific: xr::type_specific_byte(h),
    }
}

// The questions of a block's view, as xr_locate or xr_block_at says where it lies. The fields, asked as type t (1, 2 or
// 3): 10, 7, 8.
#[unsafe(no_mangle)]
pub extern "C" fn xr_fields_view(r: u8, t: u8, view: &[u8]) -> FlatFields
    ensures { result ≡ flat_fields (on_ranged (ranged_of t) (λ g. fields_of (reading_of r) g view.now)
        (Err (not_served view.now))) }
{
    flat::fields(by_number::fields_view(flat::reading(r), t, view))
}

// What a block of type 6 shows; of the crate's reading, which has no such question, always 10: 10, 7.
#[unsafe(no_mangle)]
pub extern "C" fn xr_summary_view(r: u8, view: &[u8]) -> FlatSummary
    ensures { result ≡ flat_summary (summary_of (reading_of r) view.now) }
{
    flat::summary(summary::summary(flat::reading(r), view))
}

// The same of block k of a packet: 1 to 6, 9, 10, 7.
#[unsafe(no_mangle)]
pub extern "C" fn xr_summary(r: u8, packet: &[u8], k: usize) -> FlatSummary
    ensures { result ≡ flat_summary (summary_asked (reading_of r) packet.now k) }
{
    flat::summary(summary::summary_in(flat::reading(r), packet, k))
}

// The time, of type 4: 10, 7.
#[unsafe(no_mangle)]
pub extern "C" fn xr_time_view(r: u8, view: &[u8]) -> Flat
    ensures { result ≡ flat_time (time_of (reading_of r) view.now) }
{
    flat::time(block::time(flat::reading(r), view))
}

// The chunk words, asked as type t (1 or 2): 10, 7, 11.
#[unsafe(no_mangle)]
pub extern "C" fn xr_words_view(r: u8, t: u8, view: &[u8], out: &mut [u16]) -> Flat
    ensures { FlatListed (on_rle (rle_of t) (λ b. words_shown (reading_of r) b view.now)
        (Err (not_served view.now))) out.old result out.new }
{
    flat::answer(by_number::words_view(flat::reading(r), t, view, out))
}

// The pairs, of type 3, into two lists side by side: 10, 7, 11.
#[unsafe(no_mangle)]
pub extern "C" fn xr_pairs_view(r: u8, view: &[u8], numbers: &mut [u16], times: &mut [u32]) -> Flat
    ensures { FlatPairs (pairs_shown (reading_of r) view.now) numbers.old
        times.old result numbers.new times.new }
{
    flat::answer(packet_receipt_time::pairs(flat::reading(r), view, numbers, times))
}

// The entries, of type 5: 10, 7, 11.
#[unsafe(no_mangle)]
pub extern "C" fn xr_entries_view(
    r: u8,
    view: &[u8],
    ssrcs: &mut [u32],
    lasts: &mut [u32],
    delays: &mut [u32],
) -> Flat
    ensures { FlatEntries (entries_shown (reading_of r) view.now) ssrcs.old
        lasts.old delays.old result ssrcs.new lasts.new delays.new }
{
    flat::answer(dlrr::entries(flat::reading(r), view, ssrcs, lasts, delays))
}

// At most budget steps of the standard number cursor, asked as type t (1 or 2): 10, 7, 16, 11.
#[unsafe(no_mangle)]
pub extern "C" fn xr_cursor_view(
    t: u8,
    view: &[u8],
    word: usize,
    place: usize,
    position: usize,
    budget: usize,
    out: &mut [u16],
) -> FlatStretch
    ensures { (result ≡ flat_stretch (advance_by t view.now (here word place position) budget
        (length out.old)))
        × (out.new ≡ filled_by t view.now (here word place position) budget out.old) }
{
    let c = Cursor {
        word,
        place,
        position,
    };
    flat::stretch(by_number::advance_view(t, view, c, budget, out))
}

// What a chunk word is: its kind by xr_chunk's number, and its value.
#[unsafe(no_mangle)]
pub extern "C" fn xr_chunk_of(word: u16) -> Flat
    ensures { result ≡ flat_chunk (chunk_of word) }
{
    flat::kind_number(chunk::chunk_of(word))
}
