// Chunk words from heard marks (RFC 3611, 4.1.1 and 4.1.2; RULES, "Chunk words from marks"). The Rust has no such
// function. The marks are judged first, many at a time; then each word is made from 15 marks at once, and a run gone
// through four marks at a time. The words are counted before only where the lent list could be too short.
#![tactic(auto)]

ghost use Rattle.std.specs.Prelude.{◌≡◌, true, ◌+◌, ◌*◌, ◌≤◌, ◌<◌, length, drop, position, nat_lt};
ghost use Rattle.def_refusals.specs.Answers.{Listed};
ghost use Rattle.def_marks.specs.Marks.{bits_of, is_run, run_length, word_for, taken_by, words_of, bad_from};
ghost use Rattle.def_marks.specs.Marks.{marks_fault, marks_asked};
ghost use Rattle.laws.specs.Stores.{Filled};
ghost use Rattle.marked.specs.Marked.{Marks};
ghost use Rattle.marks.specs.Gathered.{gathered, joined};
ghost use Rattle.marks.specs.Runs.{Same, Ends};

use def_refusals::Refusal;

// The most marks, and the most words that they can need.
const MAX_MARKS: usize = 65536;

const MAX_WORDS: usize = 4370;

// The longest run.
const LONGEST: usize = 16383;

// How many marks are judged at once.
const BLOCK: usize = 4096;

// The bits that some byte has. It is 0 or 1 exactly where each byte is.
fn union(marks: &[u8]) -> u8
    ensures { (result ≤ 1 → Marks marks.now) × (Marks marks.now → result ≤ 1) }
{
    let mut seen: u8 = 0;
    for mark in marks {
        seen |= *mark;
    }
    seen
}

// Where the first byte is that is neither 0 nor 1.
fn first_bad(marks: &[u8]) -> Option<usize>
    ensures { result ≡ position (λ m. nat_lt 1 m) marks.now }
{
    marks.iter().position(|mark| 1 < *mark)
}

// 17 from a place on, with the index of the first byte that is neither 0 nor 1.
fn fault_from(marks: &[u8], from: usize) -> Result<(), Refusal>
    requires { from ≤ length marks.now }
    ensures { result ≡ bad_from from (drop from marks.now) }
{
    match first_bad(&marks[from..]) {
        Some(i) => Err(Refusal::BadMark(from + i)),
        None => Ok(()),
    }
}

// 17. Only in a block that has such a byte is it looked for.
fn judge(marks: &[u8]) -> Result<(), Refusal>
    ensures { result ≡ bad_from 0 marks.now }
{
    let mut at: usize = 0;
    for block in marks.chunks(BLOCK) {
        if 1 < union(block) {
            return fault_from(marks, at);
        }
        at += block.len();
    }
    Ok(())
}

// 14, then 17.
fn fault(marks: &[u8]) -> Result<(), Refusal>
    ensures { result ≡ marks_fault marks.now }
{
    if MAX_MARKS < marks.len() {
        return Err(Refusal::TooMany(marks.len(), MAX_MARKS));
    }
    judge(marks)
}

// Four marks, each the lowest bit of its byte, as four bits: neighbours side by side, and these again.
fn gather(x: u32) -> u16
    requires { x ≤ 0x01010101 }
    ensures { result ≡ gathered x }
{
    let twos = x + x / 128;
    let fours = twos + twos / 16384;
    (fours % 16) as u16
}

// Fifteen marks. The twelfth is in the third four and in the last.
fn join(a: u32, b: u32, c: u32, d: u32) -> u16
    requires { (a ≤ 0x01010101) × (b ≤ 0x01010101) × (c ≤ 0x01010101) × (d ≤ 0x01010101) }
    ensures { result ≡ joined a b c d }
{
    gather(a) * 2048 + gather(b) * 128 + gather(c) * 8 + gather(d) % 8
}

// Fifteen marks from a place on as bits, the first the highest; a mark past the end is 0.
fn fifteen_bits(marks: &[u8], at: usize) -> u16
    requires { Marks marks.now × (at < length marks.now) × (length marks.now ≤ 65536) }
    ensures { result ≡ bits_of 15 (drop at marks.now) }
{
    if 15 <= marks.len() - at {
        return join(
            utils::load32(marks, at),
            utils::load32(marks, at + 4),
            utils::load32(marks, at + 8),
            utils::load32(marks, at + 11),
        );
    }
    join(
        utils::u32_from_be_bytes(marks, at),
        utils::u32_from_be_bytes(marks, at + 4),
        utils::u32_from_be_bytes(marks, at + 8),
        utils::u32_from_be_bytes(marks, at + 11),
    )
}

// Four marks that are m, as one number.
fn four_of(m: u8) -> u32
    requires { m ≤ 1 }
    ensures { result ≡ m * 0x01010101 }
{
    if m == 0 { 0 } else { 0x01010101 }
}

// Whether the next fifteen marks are equal.
fn are_equal(marks: &[u8], at: usize) -> bool
    requires { Marks marks.now × (at + 15 ≤ length marks.now) }
    ensures { result ≡ is_run (drop at marks.now) }
{
    let all = four_of(marks[at]);
    if utils::load32(marks, at) != all {
        return false;
    }
    if utils::load32(marks, at + 4) != all {
        return false;
    }
    if utils::load32(marks, at + 8) != all {
        return false;
    }
    utils::load32(marks, at + 11) == all
}

// Whether the next word is a run: fifteen marks are there, and they are equal.
fn is_run(marks: &[u8], at: usize) -> bool
    requires { Marks marks.now × (at < length marks.now) }
    ensures { result ≡ is_run (drop at marks.now) }
{
    if at + 15 <= marks.len() {
        return are_equal(marks, at);
    }
    false
}

// Goes on, four marks at a time, as long as they are m, and not past a place.
fn past_fours(marks: &[u8], from: usize, stop: usize, m: u8) -> usize
    requires { Marks marks.now × (m ≤ 1) × (from ≤ stop) × (stop ≤ length marks.now) }
    ensures { Same marks.now m from result × (result ≤ stop) }
{
    let all = four_of(m);
    let fours = (stop - from) / 4;
    for k in 0..fours {
        let i = from + 4 * k;
        if utils::load32(marks, i) != all {
            return i;
        }
    }
    from + 4 * fours
}

// The same one by one, up to the first mark that is another.
fn past_singles(marks: &[u8], from: usize, stop: usize, m: u8) -> usize
    requires { (from ≤ stop) × (stop ≤ length marks.now) }
    ensures { Same marks.now m from result × Ends marks.now m stop result }
{
    for i in from..stop {
        if marks[i] != m {
            return i;
        }
    }
    stop
}

// The length of the run from a place on, at most 16,383.
fn run_length(marks: &[u8], at: usize) -> usize
    requires { Marks marks.now × (is_run (drop at marks.now) ≡ true) }
    ensures { result ≡ run_length (drop at marks.now) }
{
    let m = marks[at];
    let stop = at + LONGEST.min(marks.len() - at);
    let i = past_fours(marks, at + 15, stop, m);
    past_singles(marks, i, stop, m) - at
}

// A word, and how many marks it takes.
#[derive(Drop)]
struct Made {
    word: u16,
    taken: usize,
}

fn next_word(marks: &[u8], at: usize) -> Made
    requires { Marks marks.now × (at < length marks.now) × (length marks.now ≤ 65536) }
    ensures { (result.word ≡ word_for (drop at marks.now))
        × (result.taken ≡ taken_by (drop at marks.now)) }
{
    if is_run(marks, at) {
        let n = run_length(marks, at);
        return Made {
            word: marks[at] as u16 * 0x4000 + n as u16,
            taken: n,
        };
    }
    Made {
        word: 0x8000 + fifteen_bits(marks, at),
        taken: 15,
    }
}

// How many marks the next word takes.
fn taken(marks: &[u8], at: usize) -> usize
    requires { Marks marks.now × (at < length marks.now) }
    ensures { result ≡ taken_by (drop at marks.now) }
{
    if is_run(marks, at) {
        return run_length(marks, at);
    }
    15
}

// How many words there are.
fn count_words(marks: &[u8]) -> usize
    requires { Marks marks.now × (length marks.now ≤ 65536) }
    ensures { result ≡ length (words_of marks.now) }
{
    let mut at: usize = 0;
    let mut n: usize = 0;
    while at < marks.len() {
        n += 1;
        at += taken(marks, at);
    }
    n
}

// The words, where there is room for them.
fn store_words(marks: &[u8], out: &mut [u16]) -> usize
    requires { Marks marks.now × (length marks.now ≤ 65536)
        × (length (words_of marks.now) ≤ length out.old) }
    ensures { Filled (words_of marks.now) out.old result out.new }
{
    let mut at: usize = 0;
    let mut n: usize = 0;
    while at < marks.len() {
        let s = next_word(marks, at);
        out[n] = s.word;
        n += 1;
        at += s.taken;
    }
    n
}

// The words of marks that are not refused, or 11. A list with a word for each 15 marks is long enough.
fn make(marks: &[u8], out: &mut [u16]) -> Result<usize, Refusal>
    requires { Marks marks.now × (length marks.now ≤ 65536) }
    ensures { Listed (Ok (words_of marks.now)) out.old result out.new }
{
    if 15 * out.len().min(MAX_WORDS) < marks.len() {
        let need = count_words(marks);
        if out.len() < need {
            return Err(Refusal::NoRoom(need, out.len()));
        }
    }
    Ok(store_words(marks, out))
}

// The chunk words of marks into a lent list: 14, 17, 11.
pub fn words(marks: &[u8], out: &mut [u16]) -> Result<usize, Refusal>
    ensures { Listed (marks_asked marks.now) out.old result out.new }
{
    fault(marks)?;
    make(marks, out)
}
