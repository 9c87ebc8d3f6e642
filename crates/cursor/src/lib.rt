// The standard number cursor (RULES, "Views, cursors and the dump"): a call takes a budget of steps from a place of a
// block's words, lists that stretch's numbers, and reports how many steps it took and where the next call goes on.
#![tactic(auto)]

ghost use Rattle.std.specs.Prelude.{◌≡◌, true, ◌+◌, ◌-◌, ◌≤◌, ◌<◌, min, length, get_or};
ghost use Rattle.def_wire.specs.Bytes.{words16};
ghost use Rattle.def_standard.specs.Range.{circle};
ghost use Rattle.range.specs.Inside.{inside_count};
ghost use Rattle.def_cursor.specs.Cursor.{legal, steps_in, Stretched, StretchedIn};
ghost use Rattle.cursor.specs.Steps.{moved_in, Gone, Advancing};

use def_cursor::{Cursor, Stretch};
use def_refusals::Refusal;
use def_standard::Range;
use def_wire::{Reading, Rle};

// The word at an index of the words.
fn word_at(bytes: &[u8], i: usize) -> u16
    requires { i < length (words16 bytes.now) }
    ensures { result ≡ get_or (words16 bytes.now) i 0 }
{
    let at = 2 * i;
    utils::pair(bytes[at], bytes[at + 1])
}

// How many steps a word takes: one for each place, and one to pass a word that covers none.
fn steps_in(w: u16) -> usize
    ensures { result ≡ steps_in w }
{
    let covered = chunk::covers(w) as usize;
    if covered == 0 { 1 } else { covered }
}

// A place of the words or their end, with a position of at most 65,536: else 16.
fn is_legal(bytes: &[u8], c: Cursor) -> bool
    ensures { result ≡ legal (words16 bytes.now) c }
{
    let i = c.word;
    let words = bytes.len() / 2;
    if 65536 < c.position {
        return false;
    }
    if i < words {
        return c.place < steps_in(word_at(bytes, i));
    }
    if i == words {
        return c.place == 0;
    }
    false
}

// The cursor after m steps in the word w, which do not go past it.
fn moved(w: u16, m: usize, c: Cursor) -> Cursor
    requires { (c.position ≤ circle) × (c.place + m ≤ steps_in w) × (c.word + 1 < 18446744073709551616) }
    ensures { result ≡ moved_in w m c }
{
    let passed = m.min(chunk::covers(w) as usize);
    let position = (c.position + passed).min(65536);
    if c.place + m < steps_in(w) {
        return Cursor {
            word: c.word,
            place: c.place + m,
            position,
        };
    }
    Cursor {
        word: c.word + 1,
        place: 0,
        position,
    }
}

// At most budget steps from a legal cursor, word by word: in the word at hand all steps at once, and only the numbers
// inside are stored.
fn go(bytes: &[u8], g: Range, c: Cursor, budget: usize, out: &mut [u16]) -> Stretch
    requires g_bound { inside_count g ≤ circle }
    requires c_value { legal (words16 bytes.now) c ≡ true }
    requires budget_in_bounds { budget ≤ length out.old }
    ensures { Gone g (words16 bytes.now) c budget out.old result out.new }
{
    let words = bytes.len() / 2;
    let step = range::doubled(1, g.thinning);
    let inside = range::inside_count(g);
    let mut at = c;
    let mut left = budget;
    let mut n: usize = 0;
    while left != 0 {
        let i = at.word;
        if words <= i {
            let taken = budget - left;
            return Stretch {
                next: at,
                taken,
                listed: n,
            };
        }
        let w = word_at(bytes, i);
        let takes = steps_in(w) - at.place;
        let room = left.min(takes).min(inside.saturating_sub(at.position));
        let first = range::number_at(g, at.position);
        n = ones::put_places(out, n, w, at.place, room, first, step);
        if left < takes {
            return Stretch {
                next: moved(w, left, at),
                taken: budget,
                listed: n,
            };
        }
        at = moved(w, takes, at);
        left -= takes;
    }
    Stretch {
        next: at,
        taken: budget,
        listed: n,
    }
}

// A stretch of the words in a range: 16, for budget 0 too; then 11, by the budget.
fn advance_words(
    bytes: &[u8],
    g: Range,
    c: Cursor,
    budget: usize,
    out: &mut [u16],
) -> Result<Stretch, Refusal>
    requires { inside_count g ≤ circle }
    ensures { Advancing g (words16 bytes.now) c budget out.old result out.new }
{
    let stands = is_legal(bytes, c);
    if !stands {
        return Err(Refusal::NoPlace);
    }
    if out.len() < budget {
        return Err(Refusal::NoRoom(budget, out.len()));
    }
    Ok(go(bytes, g, c, budget, out))
}

// Takes at most budget steps in a block, asked as type 1 or 2: 10, 7, 16, 11. It lists the stretch's numbers and
// gives the next cursor and the steps taken. Each call goes over all of the block's words first, for a run of ones of
// no length (word_scan; 7): take as many steps at a time as the block has words, or more. Beside that a call costs what
// the words that it reads and the numbers that it stores cost, whatever the budget (RULES, "Views, cursors and the
// dump"; RFC 3611, 4.1). Port of: rle.rs RleSequenceIter; differs: a budget and a cursor in place of an iterator, and
// the standard reading.
pub fn advance(
    a: Rle,
    v: &[u8],
    c: Cursor,
    budget: usize,
    out: &mut [u16],
) -> Result<Stretch, Refusal>
    ensures { Stretched a v.now c budget out.old result out.new }
{
    block::check_chunks(Reading::Standard, a, v)?;
    let g = range::range_of(block::fields_at(v));
    advance_words(utils::part(v, 12, v.len()), g, c, budget, out)
}

// The same of block k of a packet: 1 to 6, 9, 10, 7, 16, 11.
pub fn advance_in(
    s: &[u8],
    k: usize,
    a: Rle,
    c: Cursor,
    budget: usize,
    out: &mut [u16],
) -> Result<Stretch, Refusal>
    ensures { StretchedIn s.now k a c budget out.old result out.new }
{
    let (at, n) = xr::locate(Reading::Standard, s, k)?;
    advance(a, utils::part(s, at, n), c, budget, out)
}
