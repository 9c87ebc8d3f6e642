// The reader that the dump walks with: it holds the packet it was given, and its place (RULES, "Views, cursors
// and the dump"). The work is in functions over a slice and a place, which take any place; the functions over `Reader`
// are thin and call one of them each. Port of: xr/mod.rs XrBlockIter, XrBlock; differs: a place past the packet's end
// has an answer too, and the walk's checks are xr::count's.
#![tactic(auto)]

ghost use Rattle.std.specs.Prelude.{◌≡◌, ◌≤◌};
ghost use Rattle.def_wire.specs.Packet.{length_at, next_place, view_from, start_from};

use def_wire::Reading;

// The length L of the block at a place, by its four header bytes; those past the end count as 0.
fn length_from(s: &[u8], at: usize) -> usize
    ensures { (result ≡ length_at s.now at) × (result ≤ 262144) }
{
    xr::block_length(xr::header_data(utils::part(s, at, 4)))
}

// The view of the block at a place, that part of the caller's packet itself: its own L bytes for the standard,
// everything left for the crate, and never past the packet's end. Port of: XrBlock, its data.
pub fn view_at(r: Reading, s: &[u8], at: usize) -> &[u8]
    ensures { (result.now ≡ view_from r s.now at)
        × (result.ref_ptr ≡ start_from s.entry.ref_ptr s.now at) }
{
    let own = length_from(s, at);
    let all = s.len();
    match r {
        Reading::Standard => utils::part(s, at, own),
        Reading::Crate => utils::part(s, at, all),
    }
}

// Where the next block begins; past the end there is none, and the place stays. Port of: XrBlockIter::next.
pub fn next_place(s: &[u8], at: usize) -> usize
    ensures { result ≡ next_place s.now at }
{
    if at < s.len() {
        let next = at + length_from(s, at);
        return next;
    }
    at
}

// A packet that is held, and a place in it.
#[derive(Drop)]
pub struct Reader<'a> {
    pub packet: &'a [u8],
    pub at: usize,
}

// At the packet's first block: 8 bytes precede it. Port of: Xr::block_iter.
pub fn new<'a>(packet: &'a [u8]) -> Reader<'a>
    ensures { (result.packet ≡ packet.entry) × (result.at ≡ 8) }
{
    Reader { packet, at: 8 }
}

// The same packet at the next block. Port of: XrBlockIter::next; differs: handed back, where the Rust moves itself.
pub fn moved<'a>(r: Reader<'a>) -> Reader<'a>
    ensures { (result.packet ≡ r.entry.packet) × (result.at ≡ next_place r.entry.packet.now r.entry.at) }
{
    Reader {
        packet: r.packet,
        at: next_place(r.packet, r.at),
    }
}

// Its block's view, that part of the packet that it holds. Port of: XrBlock, its data; differs: the reading is asked.
pub fn view<'a>(r: Reader<'a>, reading: Reading) -> &'a [u8]
    ensures { (result.now ≡ view_from reading r.entry.packet.now r.entry.at)
        × (result.ref_ptr ≡ start_from r.entry.packet.ref_ptr r.entry.packet.now r.entry.at) }
{
    view_at(reading, r.packet, r.at)
}

// By a reader at a place, for a caller that keeps the place, as the dump's loop does: the block's view there.
pub fn view_from(reading: Reading, packet: &[u8], at: usize) -> &[u8]
    ensures { (result.now ≡ view_from reading packet.now at)
        × (result.ref_ptr ≡ start_from packet.entry.ref_ptr packet.now at) }
{
    view(Reader { packet, at }, reading)
}

// Where the next block begins.
pub fn moved_from(packet: &[u8], at: usize) -> usize
    ensures { result ≡ next_place packet.now at }
{
    moved(Reader { packet, at }).at
}
