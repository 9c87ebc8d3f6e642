// The list, into a slice that has room for it. Private to the crate.
ghost use Rattle.std.specs.Prelude.{◌≤◌, length};
ghost use Rattle.def_wire.specs.Bytes.{words16};
ghost use Rattle.def_standard.specs.Standard.{numbers_of};
ghost use Rattle.laws.specs.Stores.{Filled};

use def_standard::Range;

// Lists the numbers into a slice that has room for them. Port of: rle.rs RleSequenceIter::next; differs: the standard
// reading.
pub(crate) fn list_standard(bytes: &[u8], g: Range, out: &mut [u16]) -> usize
    requires { length (numbers_of g (words16 bytes.now)) ≤ length out.old }
    ensures { Filled (numbers_of g (words16 bytes.now)) out.old result out.new }
{
    let step = range::doubled(1, g.thinning);
    let mut left = range::inside_count(g);
    let mut first = g.begin;
    let mut n: usize = 0;
    let (words, _) = bytes.as_chunks();
    for word in words {
        let w = u16::from_be_bytes(*word);
        n = ones::store_word(out, n, w, left, first, step);
        let covered = chunk::covers(w);
        if left <= covered as usize {
            return n;
        }
        left -= covered as usize;
        first = range::moved_by(covered, g.thinning, first);
    }
    n
}
