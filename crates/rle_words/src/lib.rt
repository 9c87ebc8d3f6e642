// The chunk words of loss and duplicate blocks (RFC 3611, 4.1 and 4.2), from their bytes. Which bytes those are, and
// the checks before, are the callers'.
#![tactic(auto)]

ghost use Rattle.std.specs.Prelude.{◌≡◌, ◌≤◌, length};
ghost use Rattle.def_wire.specs.Bytes.{words16};
ghost use Rattle.def_refusals.specs.Answers.{Listed};
ghost use Rattle.laws.specs.Stores.{Filled};

use def_refusals::Refusal;

// How many whole words there are.
pub fn count_words(bytes: &[u8]) -> usize
    ensures { result ≡ length (words16 bytes.now) }
{
    bytes.len() / 2
}

// The words themselves. Port of: rle.rs RleBlockIter::next; differs: which words there are is the caller's.
fn list_words(bytes: &[u8], out: &mut [u16]) -> usize
    requires { length (words16 bytes.now) ≤ length out.old }
    ensures { Filled (words16 bytes.now) out.old result out.new }
{
    let (words, _) = bytes.as_chunks();
    for (n, word) in words.iter().enumerate() {
        out[n] = u16::from_be_bytes(*word);
    }
    words.len()
}

// Lists the chunk words themselves, or 11. Port of: rle.rs Rle::chunk_iter; differs: words, not kinds
// (chunk::chunk_of gives a word's kind).
pub fn fill_words(bytes: &[u8], out: &mut [u16]) -> Result<usize, Refusal>
    ensures { Listed (Ok (words16 bytes.now)) out.old result out.new }
{
    let need = count_words(bytes);
    if need <= out.len() {
        Ok(list_words(bytes, out))
    } else {
        Err(Refusal::NoRoom(need, out.len()))
    }
}
