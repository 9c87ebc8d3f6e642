// One chunk word, taken apart and built by shifts and masks: kind bit, run bit, 14-bit length, place in the vector,
// most significant first (RFC 3611, 4.1.1 to 4.1.3; RULES, "Packet and blocks"). Port of: rle.rs RleChunk.
#![tactic(auto)]

ghost use Rattle.std.specs.Prelude.{◌≡◌, ◌+◌, ◌-◌, ◌/◌, ◌%◌, ◌^◌, ◌≤◌, length};
ghost use Rattle.def_refusals.specs.Answers.{Listed};
ghost use Rattle.def_standard.specs.Chunks.{covers_of, value_of, chunk_of, word_of, word_bytes};
ghost use Rattle.chunk.specs.Ones.{ones_before};

use def_refusals::Refusal;
use def_standard::Chunk;

// 1 where the word is a bit vector, else 0. Port of: rle.rs RleChunk::parse, as the next three.
pub fn kind_bit(w: u16) -> u16
    ensures { result ≡ w / 32768 }
{
    w >> 15
}

// A run's value.
pub fn run_bit(w: u16) -> u16
    ensures { result ≡ w / 16384 % 2 }
{
    (w >> 14) & 1
}

// A run's length.
pub fn run_length(w: u16) -> u16
    ensures { result ≡ w % 16384 }
{
    w & 0x3fff
}

// A vector's 15 bits.
pub fn vector_bits(w: u16) -> u16
    ensures { result ≡ w % 32768 }
{
    w & 0x7fff
}

// The bit at place q of a vector, most significant first; from place 14 on it is the lowest bit. Port of: rle.rs
// RleChunkIter::next.
pub fn place_bit(w: u16, q: u16) -> u16
    ensures { result ≡ w / 2 ^ (14 - q) % 2 }
{
    if q < 14 { (w >> (14 - q)) & 1 } else { w & 1 }
}

// How many positions a word covers. Port of: rle.rs RleChunk::length.
pub fn covers(w: u16) -> u16
    ensures { result ≡ covers_of w }
{
    if kind_bit(w) == 0 { run_length(w) } else { 15 }
}

// The value at a place of a word. Port of: rle.rs RleChunkIter::next, its tests; differs: it answers for every place.
pub fn value(w: u16, q: u16) -> u16
    ensures { result ≡ value_of w q }
{
    if kind_bit(w) == 0 {
        run_bit(w)
    } else {
        place_bit(w, q)
    }
}

// How many of a word's first places have value one, by arithmetic and a count of bits. Port of: rle.rs
// RleChunkIter::next, called until it ends; differs: not place by place, and only up to the room asked.
pub fn ones_before(w: u16, room: usize) -> usize
    ensures { result ≡ length (ones_before w room) }
{
    if kind_bit(w) == 0 {
        if run_bit(w) == 0 {
            return 0;
        }
        return room.min(run_length(w) as usize);
    }
    let unasked = 15 - room.min(15);
    u32::count_ones((vector_bits(w) as u32) >> unasked) as usize
}

// A word's kind. Port of: rle.rs RleChunk::parse.
pub fn chunk_of(w: u16) -> Chunk
    ensures { result ≡ chunk_of w }
{
    if w == 0 {
        return Chunk::Null;
    }
    if kind_bit(w) == 0 {
        if run_bit(w) == 0 {
            return Chunk::Skip(run_length(w) as u32);
        }
        return Chunk::Run(run_length(w) as u32);
    }
    Chunk::Vector(vector_bits(w) as u32)
}

// A run of n ones.
fn run_word(n: u16) -> u16
    requires { n ≤ 16383 }
    ensures { result ≡ 16384 + n }
{
    0x4000 | n
}

// A vector of the 15 bits v.
fn vector_word(v: u16) -> u16
    requires { v ≤ 32767 }
    ensures { result ≡ 32768 + v }
{
    0x8000 | v
}

// The word of a kind, or 13 (RULES, "Refusal numbers"). Port of: rle.rs RleChunk::write_into; differs: refuses where
// the Rust masks, and a run of ones of no length, which the Rust writes.
pub fn word_of(c: Chunk) -> Result<u16, Refusal>
    ensures { result ≡ word_of c }
{
    match c {
        Chunk::Null => Ok(0),
        Chunk::Skip(n) => {
            if n <= 0x3fff {
                Ok(n as u16)
            } else {
                Err(Refusal::ValueTooLarge(n as usize))
            }
        }
        Chunk::Run(n) => {
            if n == 0 {
                return Err(Refusal::ValueTooLarge(0));
            }
            if n <= 0x3fff {
                Ok(run_word(n as u16))
            } else {
                Err(Refusal::ValueTooLarge(n as usize))
            }
        }
        Chunk::Vector(v) => {
            if v <= 0x7fff {
                Ok(vector_word(v as u16))
            } else {
                Err(Refusal::ValueTooLarge(v as usize))
            }
        }
    }
}

// Makes one chunk word in the bytes lent, 13 before 11 (RULES, "Refusal numbers"). Port of: rle.rs
// RleChunk::write_into; differs: 13 where the Rust masks, 11 where it panics.
pub fn write_chunk(c: Chunk, out: &mut [u8]) -> Result<usize, Refusal>
    ensures { Listed (word_bytes c) out.old result out.new }
{
    let word = word_of(c)?;
    if out.len() < 2 {
        return Err(Refusal::NoRoom(2, out.len()));
    }
    utils::put16(out, 0, word);
    Ok(2)
}
