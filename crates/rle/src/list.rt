// The lists, into slices that have room for them. Private to the crate.
ghost use Rattle.std.specs.Prelude.{◌≡◌, ◌+◌, ◌-◌, ◌%◌, ◌≤◌, ◌&&◌, leb, ltb, length};
ghost use Rattle.def_wire.specs.Bytes.{words16};
ghost use Rattle.def_crate.specs.Crate.{crate_numbers_from};
ghost use Rattle.laws.specs.Stores.{Filled};
ghost use Rattle.range.specs.Steps.{step_of};
ghost use Rattle.rle.specs.Most.{most_of};
ghost use Rattle.range.specs.Failing.{first_fail};
ghost use Rattle.rle.specs.Runs.{here, Ran};

// As many numbers as the words can list, whatever the range.
pub(crate) fn at_most(bytes: &[u8]) -> usize
    requires { length bytes.now ≤ 262144 }
    ensures { result ≡ most_of (words16 bytes.now) }
{
    let (words, _) = bytes.as_chunks();
    let mut n: u32 = 0;
    for word in words {
        n += ones::weight(u16::from_be_bytes(*word));
    }
    n as usize
}

// The crate's numbers: how many. Port of: rle.rs RleSequenceIter::next; differs: counted by words.
pub(crate) fn tally_crate(bytes: &[u8], end: u16, thinning: u8, begin: u16) -> usize
    requires { length bytes.now ≤ 262144 }
    ensures { result ≡ length (crate_numbers_from end thinning begin (words16 bytes.now)) }
{
    let mut start = begin;
    let mut first = range::first_fail(begin, end, thinning);
    let mut n: usize = 0;
    let (words, _) = bytes.as_chunks();
    for word in words {
        let w = u16::from_be_bytes(*word);
        let covered = chunk::covers(w);
        if 0x4000 <= w {
            let stop = ones::stop_at(w, first, start, end, thinning);
            n += chunk::ones_before(w, stop);
            if stop < covered as usize {
                return n;
            }
        }
        if covered != 0 {
            let moved = range::moved_by(covered, thinning, start);
            first = ones::next_fail(first, covered, thinning, start, moved, end);
            start = moved;
        }
    }
    n
}

// Where the crate's list stands: bytes of the words read, numbers stored, the start as moved so far, and the first
// place from there that fails.
#[derive(Drop)]
struct Stand {
    at: usize,
    n: usize,
    start: u16,
    first: usize,
}

// A word is a run of ones none of whose numbers fails.
fn is_clear_run(w: u16, first: usize) -> bool
    ensures { result ≡ (leb 16384 w && (ltb w 32768 && leb (w % 16384) first)) }
{
    if w < 0x4000 {
        return false;
    }
    if 0x8000 <= w {
        return false;
    }
    chunk::run_length(w) as usize <= first
}

// The runs of ones that come next, as long as none of their numbers fails: of such a word only its length is asked.
fn list_runs(
    bytes: &[u8],
    end: u16,
    thinning: u8,
    from: usize,
    stored: usize,
    begin: u16,
    clear: usize,
    step: u16,
    last: usize,
    out: &mut [u16],
) -> Stand
    requires { (last ≡ length bytes.now - 1) × (from ≤ length bytes.now) ×
        (clear ≡ first_fail begin end thinning) × (step ≡ step_of thinning) ×
        (stored + length (here end thinning bytes.now from begin) ≤ length out.old) }
    ensures { Ran end thinning bytes.now from begin out.old stored result.at result.start
        result.first out.new result.n }
{
    let mut at = from;
    let mut n = stored;
    let mut start = begin;
    let mut first = clear;
    while at < last {
        let w = utils::pair(bytes[at], bytes[at + 1]);
        if !is_clear_run(w, first) {
            return Stand {
                at,
                n,
                start,
                first,
            };
        }
        let count = chunk::run_length(w);
        let r = ones::store_run(out, n, count as usize, start, step);
        n = r.n;
        let next = r.next;
        first = ones::next_fail(first, count, thinning, start, next, end);
        start = next;
        at += 2;
    }
    Stand {
        at,
        n,
        start,
        first,
    }
}

// The index of the last byte; 0 where there is none.
fn last_of(bytes: &[u8]) -> usize
    ensures { result ≡ length bytes.now - 1 }
{
    if bytes.len() == 0 {
        return 0;
    }
    bytes.len() - 1
}

// The crate's numbers, up to the first that fails. Port of: rle.rs RleSequenceIter::next.
pub(crate) fn list_crate(bytes: &[u8], end: u16, thinning: u8, begin: u16, out: &mut [u16]) -> usize
    requires { length (crate_numbers_from end thinning begin (words16 bytes.now)) ≤ length out.old }
    ensures { Filled (crate_numbers_from end thinning begin (words16 bytes.now)) out.old result
        out.new }
{
    let step = range::doubled(1, thinning);
    let last = last_of(bytes);
    let mut start = begin;
    let mut first = range::first_fail(begin, end, thinning);
    let mut at: usize = 0;
    let mut n: usize = 0;
    while at < last {
        let r = list_runs(bytes, end, thinning, at, n, start, first, step, last, out);
        at = r.at;
        n = r.n;
        start = r.start;
        first = r.first;
        if last <= at {
            return n;
        }
        let w = utils::pair(bytes[at], bytes[at + 1]);
        let covered = chunk::covers(w);
        if 0x4000 <= w {
            let upto = ones::stop_at(w, first, start, end, thinning);
            n = ones::store_word(out, n, w, upto, start, step);
            if upto < covered as usize {
                return n;
            }
        }
        if covered != 0 {
            let next = range::moved_by(covered, thinning, start);
            first = ones::next_fail(first, covered, thinning, start, next, end);
            start = next;
        }
        at += 2;
    }
    n
}
