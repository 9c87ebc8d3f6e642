// Little-endian numbers stored big-endian, eight bytes at a time.
// Port of: the Rust's `to_be_bytes` with `copy_from_slice` for each number; differs: the numbers are a record's bytes,
// and a turn of the loop loads eight of them before it stores them, so that they go by one load and one store.
#![tactic(auto)]

ghost use Rattle.std.specs.Prelude.{◌≡◌, ℕ, ◌+◌, ◌≤◌, ◌<◌, List, [], length, drop};
ghost use Rattle.std.proofs.lemmas.List.Edits.{sets};
ghost use Rattle.def_wire.specs.Bytes.{two, four};
ghost use Rattle.def_jobs.specs.Jobs.{le16, le32};
ghost use Rattle.laws.specs.Stores.{Wrote};
ghost use Rattle.std.proofs.Common.{rules};
ghost use Rattle.swap.specs.Swapped.{swapped16, swapped32, words4, numbers2};
ghost use Rattle.swap.specs.Eights.{eight_at};
ghost use Rattle.little_endian.specs.Pieces.{Pieces};
ghost use Rattle.little_endian.proofs.SwapLaws.{words, fours, numbers, pairs, swapped16-end, swapped32-end};

// The 16-bit number at k. (`copy_from_slice` of an array was tried here and below: it is slower on short lists.)
pub fn put_word(body: &[u8], k: usize, out: &mut [u8], n: usize)
    requires { (k + 2 ≤ length body.now) × (n + 2 ≤ length out.old) }
    ensures { out.new ≡ sets out.old n (two (le16 body.now k)) }
{
    let lo = body[k];
    let hi = body[k + 1];
    out[n] = hi;
    out[n + 1] = lo;
}

// The 32-bit number at k. Its bytes are loaded before any is stored, so that they go by one load and one store.
pub fn put_number(body: &[u8], k: usize, out: &mut [u8], n: usize)
    requires { (k + 4 ≤ length body.now) × (n + 4 ≤ length out.old) }
    ensures { out.new ≡ sets out.old n (four (le32 body.now k)) }
{
    let a = body[k];
    let b = body[k + 1];
    let c = body[k + 2];
    let d = body[k + 3];
    out[n] = d;
    out[n + 1] = c;
    out[n + 2] = b;
    out[n + 3] = a;
}

// The eight bytes from k on.
fn eight_at(body: &[u8], k: usize) -> [u8; 8]
    requires { k + 8 ≤ length body.now }
    ensures { result ≡ eight_at body.now k }
{
    [
        body[k],
        body[k + 1],
        body[k + 2],
        body[k + 3],
        body[k + 4],
        body[k + 5],
        body[k + 6],
        body[k + 7],
    ]
}

// Stored one by one, and lent: so the compiler makes one store of them, which it does neither of `copy_from_slice` nor of
// an array that is passed by value (both tried: three times as slow).
fn store8(out: &mut [u8], n: usize, x: &[u8; 8])
    requires { n + 8 ≤ length out.old }
    ensures { out.new ≡ sets out.old n (eight_at x.now 0) }
{
    out[n] = x[0];
    out[n + 1] = x[1];
    out[n + 2] = x[2];
    out[n + 3] = x[3];
    out[n + 4] = x[4];
    out[n + 5] = x[5];
    out[n + 6] = x[6];
    out[n + 7] = x[7];
}

// Four 16-bit numbers from k on.
fn put_words4(body: &[u8], k: usize, out: &mut [u8], n: usize)
    requires { (k + 8 ≤ length body.now) × (n + 8 ≤ length out.old) }
    ensures { out.new ≡ sets out.old n (words4 body.now k) }
{
    let x = eight_at(body, k);
    store8(out, n, &[x[1], x[0], x[3], x[2], x[5], x[4], x[7], x[6]]);
}

// Two 32-bit numbers from k on.
fn put_numbers2(body: &[u8], k: usize, out: &mut [u8], n: usize)
    requires { (k + 8 ≤ length body.now) × (n + 8 ≤ length out.old) }
    ensures { out.new ≡ sets out.old n (numbers2 body.now k) }
{
    let x = eight_at(body, k);
    store8(out, n, &[x[3], x[2], x[1], x[0], x[7], x[6], x[5], x[4]]);
}

// A width of numbers: how a list of bytes is swapped number by number (`one`), and eight bytes at once (`eight`).
trait Width {
    const SIZE: usize;

    ghost SIZE: { ℕ };

    ghost swapped: { List ℕ → List ℕ };

    ghost one: { List ℕ → ℕ → List ℕ };

    ghost eight: { List ℕ → ℕ → List ℕ };

    fn put_one(body: &[u8], k: usize, out: &mut [u8], n: usize)
        requires { (k + SIZE ≤ length body.now) × (n + SIZE ≤ length out.old) }
        ensures { out.new ≡ sets out.old n (one body.now k) };

    fn put_eight(body: &[u8], k: usize, out: &mut [u8], n: usize)
        requires { (k + 8 ≤ length body.now) × (n + 8 ≤ length out.old) }
        ensures { out.new ≡ sets out.old n (eight body.now k) };

    ghost size: { 0 < SIZE };

    ghost ones: { (s : List ℕ) → Pieces swapped s SIZE (one s) };

    ghost eights: { (s : List ℕ) → Pieces swapped s 8 (eight s) };

    ghost ended: { (s : List ℕ) (k : ℕ) → length s < k + SIZE → swapped (drop k s) ≡ [] };
}

// Those of 16 bits.
struct Words;

impl Width for Words {
    const SIZE: usize = 2;

    ghost SIZE = { 2 };

    ghost swapped = { swapped16 };

    ghost one = { λ s k. two (le16 s k) };

    ghost eight = { words4 };

    fn put_one(body: &[u8], k: usize, out: &mut [u8], n: usize) {
        put_word(body, k, out, n);
    }

    fn put_eight(body: &[u8], k: usize, out: &mut [u8], n: usize) {
        put_words4(body, k, out, n);
    }

    ghost size = { Prim.search rules };

    ghost ones = { words };

    ghost eights = { fours };

    ghost ended = { swapped16-end };
}

// Those of 32 bits.
struct Numbers;

impl Width for Numbers {
    const SIZE: usize = 4;

    ghost SIZE = { 4 };

    ghost swapped = { swapped32 };

    ghost one = { λ s k. four (le32 s k) };

    ghost eight = { numbers2 };

    fn put_one(body: &[u8], k: usize, out: &mut [u8], n: usize) {
        put_number(body, k, out, n);
    }

    fn put_eight(body: &[u8], k: usize, out: &mut [u8], n: usize) {
        put_numbers2(body, k, out, n);
    }

    ghost size = { Prim.search rules };

    ghost ones = { numbers };

    ghost eights = { pairs };

    ghost ended = { swapped32-end };
}

// The numbers of a width in a body from a place on: eight bytes at a time, and those that are left one by one.
fn swap<W: Width>(body: &[u8], from: usize, out: &mut [u8], at: usize) -> usize
    requires { (from ≤ length body.now) × (at + length (W.swapped (drop from body.now)) ≤ length out.old) }
    ensures { Wrote out.old at (W.swapped (drop from body.now)) out.new result }
{
    let mut k = from;
    let mut n = at;
    while 8 <= body.len() - k {
        W::put_eight(body, k, out, n);
        k += 8;
        n += 8;
    }
    while W::SIZE <= body.len() - k {
        W::put_one(body, k, out, n);
        k += W::SIZE;
        n += W::SIZE;
    }
    n
}

// The 16-bit numbers of a body from a place on.
pub fn swap16(body: &[u8], from: usize, out: &mut [u8], at: usize) -> usize
    requires { (from ≤ length body.now) × (at + length (swapped16 (drop from body.now)) ≤ length out.old) }
    ensures { Wrote out.old at (swapped16 (drop from body.now)) out.new result }
{
    swap::<Words>(body, from, out, at)
}

// The 32-bit numbers of a body from a place on.
pub fn swap32(body: &[u8], from: usize, out: &mut [u8], at: usize) -> usize
    requires { (from ≤ length body.now) × (at + length (swapped32 (drop from body.now)) ≤ length out.old) }
    ensures { Wrote out.old at (swapped32 (drop from body.now)) out.new result }
{
    swap::<Numbers>(body, from, out, at)
}
