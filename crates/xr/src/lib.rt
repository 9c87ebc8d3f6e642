// The packet: header checks, the walk over its blocks, and their views, in both readings.
// Port of: xr/mod.rs Xr, XrBlockIter, XrBlock; utils.rs parser::check_packet.
#![tactic(auto)]

ghost use Rattle.std.specs.Prelude.{◌≡◌, ◌+◌, ◌*◌, ◌-◌, ◌%◌, ◌≤◌, ◌<◌, length, get_or};
ghost use Rattle.def_wire.specs.Packet.{least_of, is_bad_padding, header_of, length_at, walk_from, count_of};
ghost use Rattle.def_wire.specs.Packet.{size_at, locate, part_at, bytes_at};
ghost use Rattle.def_wire.specs.Block.{header_data};
ghost use Rattle.xr.specs.Parsed.{parsed_of};
ghost use Rattle.xr.specs.Walks.{Walking, Reach, Walk};

use def_refusals::Refusal;
use def_wire::Reading;

// An accepted packet: how many blocks it has, and who sent it.
#[derive(Drop)]
pub struct Xr {
    pub blocks: usize,
    pub ssrc: u32,
}

// What a walk finds: the count of blocks or why it ends, and where a wanted block begins.
#[derive(Drop)]
struct Walked {
    count: Result<usize, Refusal>,
    place: usize,
}

impl Xr {
    // RFC 3611, 2.
    pub const PACKET_TYPE: u8 = 207;

    // The crate reading's least length. Port of: RtcpPacket::MIN_PACKET_LEN.
    pub const MIN_PACKET_LEN: usize = 12;

    // The standard reading's: header and sender SSRC, and no blocks.
    pub const LEAST_LEN: usize = 8;

    // The packet, where 1 to 6 do not apply. Port of: Xr::parse; differs: the reading is asked, and padding is judged
    // in full.
    pub fn parse(r: Reading, s: &[u8]) -> Result<Xr, Refusal>
        ensures { result ≡ parsed_of r s.now }
    {
        let blocks = count(r, s)?;
        Ok(Xr {
            blocks,
            ssrc: utils::u32_from_be_bytes(s, 4),
        })
    }
}

fn least(r: Reading) -> usize
    ensures { result ≡ least_of r }
{
    match r {
        Reading::Standard => Xr::LEAST_LEN,
        Reading::Crate => Xr::MIN_PACKET_LEN,
    }
}

// The length that the field of a packet or a block at a place says: (f + 1) * 4.
fn length_at(s: &[u8], at: usize) -> usize
    requires { at + 4 ≤ length s.now }
    ensures value { result ≡ length_at s.now at }
    ensures upper_bound { result ≤ 262144 }
{
    let i = at + 2;
    length_of(s[i], s[i + 1])
}

// The length that a length field's two bytes say (RFC 3611, 2 and 3): the length in 32-bit words less one. The one
// place that computes it.
fn length_of(hi: u8, lo: u8) -> usize
    ensures { (result ≡ (hi * 256 + lo + 1) * 4) × (result ≤ 262144) }
{
    (usize::from(utils::pair(hi, lo)) + 1) * 4
}

fn is_bad_padding(n: usize, len: usize) -> bool
    requires { 8 ≤ len }
    ensures { result ≡ is_bad_padding n len }
{
    if n == 0 {
        return true;
    }
    if n % 4 != 0 {
        return true;
    }
    len - 8 < n
}

// Where the blocks end, or the first of 1 to 5 that applies. Port of: utils.rs check_packet; differs: row 5 in full.
pub fn header(r: Reading, s: &[u8]) -> Result<usize, Refusal>
    ensures { result ≡ header_of r s.now }
{
    let fewest = least(r);
    if s.len() < fewest {
        return Err(Refusal::TooShort(fewest, s.len()));
    }
    let first = s[0];
    let kind = s[1];
    if first / 64 != 2 {
        return Err(Refusal::WrongVersion);
    }
    if kind != Xr::PACKET_TYPE {
        return Err(Refusal::WrongPacketType);
    }
    let says = length_at(s, 0);
    if says != s.len() {
        return Err(Refusal::WrongLength(says, s.len()));
    }
    if first / 32 % 2 != 1 {
        return Ok(s.len());
    }
    let n = usize::from(s[s.len() - 1]);
    if is_bad_padding(n, s.len()) {
        return Err(Refusal::BadPadding(n));
    }
    match r {
        Reading::Standard => Ok(s.len() - n),
        Reading::Crate => Ok(s.len()),
    }
}

// The walk to block k, or to where the blocks end: how many blocks were passed, and where it stands.
fn reach(s: &[u8], stop: usize, k: usize) -> Walked
    requires { (stop ≤ length s.now) × (stop % 4 ≡ 0) × (8 ≤ stop) }
    ensures { Reach s.now stop k result.count result.place }
{
    let mut at: usize = 8;
    for n in 0..k {
        if stop <= at {
            return Walked {
                count: Ok(n),
                place: at,
            };
        }
        let len = length_at(s, at);
        if stop - at < len {
            return Walked {
                count: Err(Refusal::BlockTooLong(len, stop - at)),
                place: at,
            };
        }
        at += len;
    }
    Walked {
        count: Ok(k),
        place: at,
    }
}

// The walk from a block on to where the blocks end. Nothing is noted here, since most of a walk is this.
fn walk_on(s: &[u8], stop: usize, from: usize, passed: usize) -> Result<usize, Refusal>
    requires { (stop ≤ length s.now) × (stop % 4 ≡ 0) × Walking s.now stop from passed }
    ensures { result ≡ walk_from s.now stop (length s.now) 8 0 }
{
    let mut at = from;
    let mut left = stop - from;
    let mut n = passed;
    while left != 0 {
        let len = length_at(s, at);
        if left < len {
            return Err(Refusal::BlockTooLong(len, left));
        }
        at += len;
        left -= len;
        n += 1;
    }
    Ok(n)
}

// The walk to where the blocks end, noting where block k begins.
fn walk(s: &[u8], stop: usize, k: usize) -> Walked
    requires { (stop ≤ length s.now) × (stop % 4 ≡ 0) × (8 ≤ stop) }
    ensures { Walk s.now stop k result.count result.place }
{
    let w = reach(s, stop, k);
    let passed = w.count;
    let place = w.place;
    match passed {
        Ok(n) => Walked {
            count: walk_on(s, stop, place, n),
            place,
        },
        Err(x) => Walked {
            count: Err(x),
            place,
        },
    }
}

// How many blocks the packet has, or the first of 1 to 6 that applies. Port of: Xr::parse.
pub fn count(r: Reading, s: &[u8]) -> Result<usize, Refusal>
    ensures { result ≡ count_of r s.now }
{
    let stop = header(r, s)?;
    let w = walk(s, stop, 0);
    w.count
}

// The same as `locate`, for a caller that has asked the header: 6 or 9. Port of: XrBlockIter::next.
pub fn find(r: Reading, s: &[u8], stop: usize, k: usize) -> Result<(usize, usize), Refusal>
    requires { header_of r s.now ≡ Ok stop }
    ensures { result ≡ locate r s.now k }
{
    let w = walk(s, stop, k);
    let place = w.place;
    let n = w.count?;
    if k < n {
        return at_place(r, s, place);
    }
    Err(Refusal::NoBlock(n))
}

// Where block k's view lies, its first byte and how many bytes it has, or the first of 1 to 6 and 9 that applies.
pub fn locate(r: Reading, s: &[u8], k: usize) -> Result<(usize, usize), Refusal>
    ensures { result ≡ locate r s.now k }
{
    let stop = header(r, s)?;
    find(r, s, stop, k)
}

// A block's view: its own L bytes, or everything left.
fn at_place(r: Reading, s: &[u8], place: usize) -> Result<(usize, usize), Refusal>
    requires { place + 4 ≤ length s.now }
    ensures { result ≡ Ok (place, size_at r s.now place) }
{
    match r {
        Reading::Standard => Ok((place, length_at(s, place))),
        Reading::Crate => Ok((place, s.len() - place)),
    }
}

// Block k's view, that part of the caller's packet itself; the empty start of the packet where there is none.
pub fn view(r: Reading, s: &[u8], k: usize) -> &[u8]
    ensures result_value { result.now ≡ bytes_at s.now (locate r s.now k) }
    ensures ref_ptr_value { result.ref_ptr ≡ part_at s.entry.ref_ptr (locate r s.now k) }
{
    match locate(r, s, k) {
        Ok((at, n)) => utils::part(s, at, n),
        Err(_) => utils::part(s, 0, 0),
    }
}

// A block's four header bytes, handed out together. Port of: XrBlock::header_data.
pub fn header_data(v: &[u8]) -> [u8; 4]
    ensures { result ≡ header_data v.now }
{
    if v.len() < 4 {
        return [
            utils::byte_at(v, 0),
            utils::byte_at(v, 1),
            utils::byte_at(v, 2),
            utils::byte_at(v, 3),
        ];
    }
    [v[0], v[1], v[2], v[3]]
}

// The type, the specific byte and the length L, taken from the four header bytes. Port of: XrBlockParserExt.
pub fn block_type(h: [u8; 4]) -> u8
    ensures { result ≡ get_or h 0 0 }
{
    h[0]
}

pub fn type_specific_byte(h: [u8; 4]) -> u8
    ensures { result ≡ get_or h 1 0 }
{
    h[1]
}

pub fn block_length(h: [u8; 4]) -> usize
    ensures { (result ≡ (get_or h 2 0 * 256 + get_or h 3 0 + 1) * 4) × (result ≤ 262144) }
{
    length_of(h[2], h[3])
}
