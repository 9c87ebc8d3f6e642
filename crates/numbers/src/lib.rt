// The numbers and the chunk words of loss and duplicate blocks, of a view and of a packet, in both readings.
// Types 1 and 2 differ in the asked type alone. Port of: rle.rs Rle::sequence_iter and chunk_iter.
#![tactic(auto)]

ghost use Rattle.std.specs.Prelude.{◌≡◌};
ghost use Rattle.def_refusals.specs.Answers.{Listed};
ghost use Rattle.def_questions.specs.Questions.{numbers_shown, words_shown};
ghost use Rattle.def_questions.specs.Packets.{numbers_asked, words_asked};
ghost use Rattle.numbers.specs.Words.{word_bytes};

use def_refusals::Refusal;
use def_wire::{Reading, Rle};

// The bytes of the words that a reading reads: all of the block's own, or all but the block's last word.
fn word_bytes(r: Reading, v: &[u8]) -> &[u8]
    ensures { result.now ≡ word_bytes r v.now }
{
    match r {
        Reading::Standard => utils::part(v, 12, v.len()),
        Reading::Crate => {
            let l = xr::block_length(xr::header_data(v));
            utils::part(v, 12, l.saturating_sub(14))
        }
    }
}

// The numbers of a block's view in the standard reading: 10, 7 by the length, 7 by the words, 11. The words are gone
// over once before they are listed (rle_standard).
fn standard_numbers(a: Rle, v: &[u8], out: &mut [u16]) -> Result<usize, Refusal>
    ensures { Listed (numbers_shown Reading.Standard a v.now) out.old result
        out.new }
{
    block::check_length(a, v)?;
    let g = range::range_of(block::fields_at(v));
    rle_standard::fill_clear(word_bytes(Reading::Standard, v), g, v.len(), out)
}

// In the crate reading: 10, 7, 11.
fn crate_numbers(a: Rle, v: &[u8], out: &mut [u16]) -> Result<usize, Refusal>
    ensures { Listed (numbers_shown Reading.Crate a v.now) out.old result
        out.new }
{
    block::check_chunks(Reading::Crate, a, v)?;
    let f = block::fields_at(v);
    rle::fill_crate(
        word_bytes(Reading::Crate, v),
        f.end,
        f.thinning,
        f.begin,
        out,
    )
}

// The numbers of a block's view, asked as type 1 or 2: 10, 7, 11.
pub fn numbers(r: Reading, a: Rle, v: &[u8], out: &mut [u16]) -> Result<usize, Refusal>
    ensures { Listed (numbers_shown r a v.now) out.old result out.new }
{
    match r {
        Reading::Standard => standard_numbers(a, v, out),
        Reading::Crate => crate_numbers(a, v, out),
    }
}

// The chunk words of a block's view, asked as type 1 or 2: 10, 7, 11.
pub fn words(r: Reading, a: Rle, v: &[u8], out: &mut [u16]) -> Result<usize, Refusal>
    ensures { Listed (words_shown r a v.now) out.old result out.new }
{
    block::check_chunks(r, a, v)?;
    rle_words::fill_words(word_bytes(r, v), out)
}

// The numbers of block k of a packet: 1 to 6, 9, 10, 7, 11.
pub fn numbers_in(r: Reading, s: &[u8], k: usize, a: Rle, out: &mut [u16]) -> Result<usize, Refusal>
    ensures { Listed (numbers_asked r s.now k a) out.old result out.new }
{
    let (at, n) = xr::locate(r, s, k)?;
    numbers(r, a, utils::part(s, at, n), out)
}

// The chunk words of block k of a packet: 1 to 6, 9, 10, 7, 11.
pub fn words_in(r: Reading, s: &[u8], k: usize, a: Rle, out: &mut [u16]) -> Result<usize, Refusal>
    ensures { Listed (words_asked r s.now k a) out.old result out.new }
{
    let (at, n) = xr::locate(r, s, k)?;
    words(r, a, utils::part(s, at, n), out)
}
