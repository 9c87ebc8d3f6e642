// The numbers of loss and duplicate blocks in the standard reading (RFC 3611, 4.1 and 4.2), from the bytes of their
// words. Which bytes those are, and the checks before, are the callers'.
#![tactic(auto)]

mod list;

ghost use Rattle.std.specs.Prelude.{◌≡◌, ◌||◌, length, drop};
ghost use Rattle.def_wire.specs.Bytes.{words16};
ghost use Rattle.def_wire.specs.Block.{lost_run, has, clear_rule};
ghost use Rattle.def_refusals.specs.Answers.{on_fine, Listed};
ghost use Rattle.def_standard.specs.Standard.{numbers_of};

use def_refusals::Refusal;
use def_standard::Range;

// What a pass over words finds: how many numbers they list, and whether a run of ones of no length is among those up
// to the index where it stopped.
#[derive(Drop)]
struct Counted {
    n: usize,
    lost: bool,
    at: usize,
}

// One pass over the words, by arithmetic, up to the range's end (RFC 3611, 4.1; RULES, "Standard reading").
fn tally(bytes: &[u8], g: Range) -> Counted
    ensures n_value { result.n ≡ length (numbers_of g (words16 bytes.now)) }
    ensures bytes_value { has lost_run (words16 bytes.now)
        ≡ (result.lost || has lost_run (words16 (drop result.at bytes.now))) }
{
    let mut left = range::inside_count(g);
    let mut n: usize = 0;
    let mut lost = false;
    let (words, _) = bytes.as_chunks();
    for (i, word) in words.iter().enumerate() {
        let w = u16::from_be_bytes(*word);
        if w == 0x4000 {
            lost = true;
        }
        n += chunk::ones_before(w, left);
        let covered = chunk::covers(w) as usize;
        if left <= covered {
            return Counted {
                n,
                lost,
                at: 2 * i + 2,
            };
        }
        left -= covered;
    }
    Counted {
        n,
        lost,
        at: bytes.len(),
    }
}

// How many numbers the words list. Port of: rle.rs Rle::sequence_iter and its count; differs: the standard reading, and
// no walk over positions.
pub fn count_standard(bytes: &[u8], g: Range) -> usize
    ensures { result ≡ length (numbers_of g (words16 bytes.now)) }
{
    let t = tally(bytes, g);
    t.n
}

// Lists the numbers, or 11 with the room needed and the room lent, nothing written. Port of: rle.rs Rle::sequence_iter.
pub fn fill_standard(bytes: &[u8], g: Range, out: &mut [u16]) -> Result<usize, Refusal>
    ensures { Listed (Ok (numbers_of g (words16 bytes.now))) out.old result
        out.new }
{
    if out.len() < range::inside_count(g) {
        let need = count_standard(bytes, g);
        if out.len() < need {
            return Err(Refusal::NoRoom(need, out.len()));
        }
    }
    Ok(list::list_standard(bytes, g, out))
}

// Whether a run of ones of no length is among the words from an index on, or was found before.
fn is_lost(bytes: &[u8], lost: bool, at: usize) -> bool
    ensures { result ≡ (lost || has lost_run (words16 (drop at bytes.now))) }
{
    if lost {
        return true;
    }
    word_scan::has_lost_run(utils::part(bytes, at, bytes.len()))
}

// Lists the numbers of the words of a block of L bytes: 7, where a run of ones of no length is among them, then 11. It
// is found in the pass that counts, and behind the range's end, or where nothing is counted, by word_scan.
pub fn fill_clear(bytes: &[u8], g: Range, l: usize, out: &mut [u16]) -> Result<usize, Refusal>
    ensures { Listed (on_fine (clear_rule l (words16 bytes.now))
        (Ok (numbers_of g (words16 bytes.now)))) out.old result out.new }
{
    if range::inside_count(g) <= out.len() {
        if word_scan::has_lost_run(bytes) {
            return Err(Refusal::BadBlockLength(12, l));
        }
        return Ok(list::list_standard(bytes, g, out));
    }
    let t = tally(bytes, g);
    if is_lost(bytes, t.lost, t.at) {
        return Err(Refusal::BadBlockLength(12, l));
    }
    if out.len() < t.n {
        return Err(Refusal::NoRoom(t.n, out.len()));
    }
    Ok(list::list_standard(bytes, g, out))
}
