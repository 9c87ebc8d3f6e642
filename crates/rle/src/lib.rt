// The numbers of loss and duplicate blocks in the crate reading, from the bytes of their words (RULES, "Crate
// reading"). Which bytes those are, and the checks before, are the callers'. rle_standard has the standard reading's.
#![tactic(auto)]

mod list;

ghost use Rattle.std.specs.Prelude.{◌≡◌, length, take};
ghost use Rattle.def_wire.specs.Bytes.{words16};
ghost use Rattle.def_refusals.specs.Answers.{Listed};
ghost use Rattle.def_crate.specs.Crate.{crate_numbers_from};
ghost use Rattle.rle.specs.Most.{longest};

use def_refusals::Refusal;

// The crate reading's functions read no more bytes than the longest packet has.
const LONGEST: usize = 262144;

// How many numbers the crate lists, of at most the first 262,144 bytes: a longer slice is no part of a packet, and
// its count need not fit. One pass over the words. Port of: rle.rs Rle::sequence_iter and its count; differs: no walk
// over positions.
pub fn count_crate(bytes: &[u8], end: u16, thinning: u8, begin: u16) -> usize
    ensures { result ≡ length (crate_numbers_from end thinning begin (words16 (take longest bytes.now))) }
{
    let size = LONGEST.min(bytes.len());
    list::tally_crate(&bytes[..size], end, thinning, begin)
}

// Lists the crate's numbers, up to the first that fails, or 11. Port of: rle.rs Rle::sequence_iter.
pub fn fill_crate(
    bytes: &[u8],
    end: u16,
    thinning: u8,
    begin: u16,
    out: &mut [u16],
) -> Result<usize, Refusal>
    ensures { Listed (Ok (crate_numbers_from end thinning begin
        (words16 (take longest bytes.now)))) out.old result out.new }
{
    let size = LONGEST.min(bytes.len());
    let part = &bytes[..size];
    let most = list::at_most(part);
    if most == 0 {
        return Ok(0);
    }
    if out.len() < most {
        let need = list::tally_crate(part, end, thinning, begin);
        if out.len() < need {
            return Err(Refusal::NoRoom(need, out.len()));
        }
    }
    Ok(list::list_crate(part, end, thinning, begin, out))
}
