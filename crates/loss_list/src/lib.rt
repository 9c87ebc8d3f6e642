// The job list of one loss record, as a report on marks wants it (RULES, "Chunk words from marks" and "Job lists and
// writing"): the header record of a sender, without padding, and the record with its words, little-endian. The Rust
// has no job lists.
#![tactic(auto)]

ghost use Rattle.std.specs.Prelude.{◌++◌, ◌+◌, ◌*◌, ◌≤◌, length};
ghost use Rattle.def_refusals.specs.Answers.{Listed};
ghost use Rattle.def_jobs.specs.Layout.{bytes_of};
ghost use Rattle.def_marks.specs.Report.{low2, low4, header_bytes, loss_list};
ghost use Rattle.laws.specs.Stores.{Wrote};

use def_refusals::Refusal;

// The bytes of the two records without words, and of the second one's fields alone.
const EMPTY: usize = 28;

const FIELDS: usize = 10;

// Bytes at an index; gives the index past them.
fn put(out: &mut [u8], at: usize, bytes: &[u8]) -> usize
    requires { at + length bytes.now ≤ length out.old }
    ensures { Wrote out.old at bytes.now out.new result }
{
    let end = at + bytes.len();
    out[at..end].copy_from_slice(bytes);
    end
}

// A number's two bytes, the low one first.
fn put2(out: &mut [u8], at: usize, x: u16) -> usize
    requires { at + 2 ≤ length out.old }
    ensures { Wrote out.old at (low2 x) out.new result }
{
    put(out, at, &x.to_le_bytes())
}

// Four bytes.
fn put4(out: &mut [u8], at: usize, n: u32) -> usize
    requires { at + 4 ≤ length out.old }
    ensures { Wrote out.old at (low4 n) out.new result }
{
    put(out, at, &n.to_le_bytes())
}

// A record's first six bytes: its body's length in 32 bits, and its kind.
fn put_head(out: &mut [u8], at: usize, size: usize, kind: u16) -> usize
    requires { at + 6 ≤ length out.old }
    ensures { Wrote out.old at (low4 size ++ low2 kind) out.new result }
{
    let next = put4(out, at, (size % 4294967296) as u32);
    put2(out, next, kind)
}

// The header record: the sender, and no padding.
fn put_header(out: &mut [u8], sender: u32) -> usize
    requires { 12 ≤ length out.old }
    ensures { Wrote out.old 0 (header_bytes sender) out.new result }
{
    let ssrc = put_head(out, 0, 6, 0);
    let padding = put4(out, ssrc, sender);
    put2(out, padding, 0)
}

// A loss record's fields, with a thinning of 0.
fn put_fields(out: &mut [u8], at: usize, media: u32, begin: u16, end: u16) -> usize
    requires { at + 10 ≤ length out.old }
    ensures { Wrote out.old at (low4 media ++ (low2 begin ++ (low2 end ++ low2 0)))
        out.new result }
{
    let from = put4(out, at, media);
    let to = put2(out, from, begin);
    let thinning = put2(out, to, end);
    put2(out, thinning, 0)
}

// The words, one by one.
fn put_words(out: &mut [u8], at: usize, words: &[u16]) -> usize
    requires { at + 2 * length words.now ≤ length out.old }
    ensures { Wrote out.old at (bytes_of low2 words.now) out.new result }
{
    let mut n = at;
    for word in words {
        n = put2(out, n, *word);
    }
    n
}

// Both records, where there is room for them.
fn put_list(sender: u32, media: u32, begin: u16, end: u16, words: &[u16], out: &mut [u8]) -> usize
    requires { 28 + 2 * length words.now ≤ length out.old }
    ensures { Wrote out.old 0 (loss_list sender media begin end words.now)
        out.new result }
{
    let record = put_header(out, sender);
    let fields = put_head(out, record, FIELDS + 2 * words.len(), 1);
    let first = put_fields(out, fields, media, begin, end);
    put_words(out, first, words)
}

// The job list of these words into a lent buffer, or 11.
pub fn loss_list(
    sender: u32,
    media: u32,
    begin: u16,
    end: u16,
    words: &[u16],
    out: &mut [u8],
) -> Result<usize, Refusal>
    ensures { Listed (Ok (loss_list sender media begin end words.now)) out.old result
        out.new }
{
    let need = EMPTY + 2 * words.len();
    if need <= out.len() {
        Ok(put_list(sender, media, begin, end, words, out))
    } else {
        Err(Refusal::NoRoom(need, out.len()))
    }
}
