// Text for standard output, through a lent buffer: a full buffer is written out, and the text goes on from its start
// (RULES, "Text through a lent buffer"). `at` is how many bytes of the buffer wait; each function answers the new `at`,
// and promises that it has added exactly its text (def_text/specs/Buffer.antt). That what is written out reaches
// standard output is the one thing that no contract can say.
#![tactic(auto)]

ghost use Rattle.std.specs.Prelude.{◌+◌, ◌≤◌, ◌<◌, ◌≡◌, [], ◌∷◌, length, take};
ghost use Rattle.laws.specs.Stores.{Wrote};
ghost use Rattle.io.specs.Digits.{last_digits, IsDigitCount};
ghost use Rattle.def_text.specs.Buffer.{Added};
ghost use Rattle.def_text.specs.Numerals.{glyph as glyph_of, decimal_of, hex_of, hexes_of, spaced, spaced_all};
ghost use Rattle.def_text.specs.Numerals.{labelled as labelled_of, line_end, two_in_turn, three_in_turn};

// The file descriptor of standard output.
const STDOUT_FILENO: i32 = 1;

// Writes what waits to a file descriptor, and empties the buffer.
pub fn send(fd: i32, buf: &[u8], at: usize) -> usize
    ensures { result ≡ 0 }
{
    io::write_all(fd, &buf[..at.min(buf.len())]);
    0
}

// The same to standard output.
pub fn flush(buf: &[u8], at: usize) -> usize
    ensures { result ≡ 0 }
{
    send(STDOUT_FILENO, buf, at)
}

pub fn byte(buf: &mut [u8], at: usize, b: u8) -> usize
    ensures { Added buf.old at (b ∷ []) buf.new result }
{
    if at < buf.len() {
        buf[at] = b;
        return at + 1;
    }
    flush(buf, at);
    if 0 < buf.len() {
        buf[0] = b;
        return 1;
    }
    0
}

// A text for which there is room.
fn copied(buf: &mut [u8], at: usize, t: &[u8]) -> usize
    requires { at + length t.now ≤ length buf.old }
    ensures { Wrote buf.old at t.now buf.new result }
{
    let end = at + t.len();
    buf[at..end].copy_from_slice(t);
    end
}

// A text byte by byte, whatever room there is.
fn slowly(buf: &mut [u8], at: usize, t: &[u8]) -> usize
    ensures { Added buf.old at t.now buf.new result }
{
    let mut n = at;
    for b in t {
        n = byte(buf, n, *b);
    }
    n
}

pub fn text(buf: &mut [u8], at: usize, t: &[u8]) -> usize
    ensures { Added buf.old at t.now buf.new result }
{
    if at <= buf.len() && t.len() <= buf.len() - at {
        return copied(buf, at, t);
    }
    slowly(buf, at, t)
}

// How many decimal digits a number has: 0 has one, as 1 has.
fn places(n: u64) -> usize
    ensures { (IsDigitCount 10 1 n result) × (result ≤ 20) }
{
    n.max(1).ilog10() as usize + 1
}

fn digit(d: u64) -> u8
    requires { d < 10 }
    ensures { result ≡ glyph_of d }
{
    b'0' + d as u8
}

// A number's last k digits, for which there is room.
fn spell(buf: &mut [u8], at: usize, n: u64, k: usize) -> usize
    requires { at + k ≤ length buf.old }
    ensures { Wrote buf.old at (last_digits 10 k n) buf.new result }
{
    let mut rest = n;
    for i in (0..k).rev() {
        buf[at + i] = digit(rest % 10);
        rest /= 10;
    }
    at + k
}

// A number's digits, whatever room there is.
fn decimal_slowly(buf: &mut [u8], at: usize, n: u64) -> usize
    ensures { Added buf.old at (decimal_of n) buf.new result }
{
    let mut made = [0u8; 20];
    let k = io::decimal(n, &mut made);
    slowly(buf, at, &made[..k])
}

pub fn decimal(buf: &mut [u8], at: usize, n: u64) -> usize
    ensures { Added buf.old at (decimal_of n) buf.new result }
{
    let k = places(n);
    if at <= buf.len() && k <= buf.len() - at {
        return spell(buf, at, n, k);
    }
    decimal_slowly(buf, at, n)
}

// A space and a number.
pub fn number(buf: &mut [u8], at: usize, n: u64) -> usize
    ensures { Added buf.old at (spaced n) buf.new result }
{
    let n1 = byte(buf, at, b' ');
    decimal(buf, n1, n)
}

// A label, a space and a number.
pub fn labelled(buf: &mut [u8], at: usize, label: &[u8], n: u64) -> usize
    ensures { Added buf.old at (labelled_of label.now n) buf.new result }
{
    let n1 = text(buf, at, label);
    number(buf, n1, n)
}

fn glyph(d: u8) -> u8
    requires { d ≤ 15 }
    ensures { result ≡ glyph_of d }
{
    if d < 10 { b'0' + d } else { b'a' + (d - 10) }
}

// Two lower-case hexadecimal digits.
pub fn hex(buf: &mut [u8], at: usize, b: u8) -> usize
    ensures { Added buf.old at (hex_of b) buf.new result }
{
    let n = byte(buf, at, glyph(b / 16));
    byte(buf, n, glyph(b % 16))
}

pub fn line_end(buf: &mut [u8], at: usize) -> usize
    ensures { Added buf.old at line_end buf.new result }
{
    byte(buf, at, b'\n')
}

// The first n of a list of 16-bit numbers, a space before each.
pub fn list16(buf: &mut [u8], at: usize, list: &[u16], n: usize) -> usize
    ensures { Added buf.old at (spaced_all (take n list.now)) buf.new result }
{
    let mut to = at;
    for x in list.iter().take(n) {
        to = number(buf, to, u64::from(*x));
    }
    to
}

// A pair of numbers.
fn pair(buf: &mut [u8], at: usize, a: u16, b: u32) -> usize
    ensures { Added buf.old at (spaced_all (a ∷ b ∷ [])) buf.new result }
{
    let n = number(buf, at, u64::from(a));
    number(buf, n, u64::from(b))
}

// The first n of two lists side by side.
pub fn list_pairs(buf: &mut [u8], at: usize, numbers: &[u16], times: &[u32], n: usize) -> usize
    ensures { Added buf.old at
        (spaced_all (two_in_turn (take n numbers.now) (take n times.now))) buf.new result }
{
    let mut to = at;
    for (x, time) in numbers.iter().zip(times).take(n) {
        to = pair(buf, to, *x, *time);
    }
    to
}

// Three numbers.
fn triple(buf: &mut [u8], at: usize, a: u32, b: u32, c: u32) -> usize
    ensures { Added buf.old at (spaced_all (a ∷ b ∷ c ∷ [])) buf.new result }
{
    let n = number(buf, at, u64::from(a));
    let m = number(buf, n, u64::from(b));
    number(buf, m, u64::from(c))
}

// The first n of three lists side by side.
pub fn list_entries(buf: &mut [u8], at: usize, a: &[u32], b: &[u32], c: &[u32], n: usize) -> usize
    ensures { Added buf.old at
        (spaced_all (three_in_turn (take n a.now) (take n b.now) (take n c.now)))
        buf.new result }
{
    let mut to = at;
    for ((x, y), z) in a.iter().zip(b).zip(c).take(n) {
        to = triple(buf, to, *x, *y, *z);
    }
    to
}

// The first n bytes of a list, in hexadecimal digits.
pub fn hex_list(buf: &mut [u8], at: usize, list: &[u8], n: usize) -> usize
    ensures { Added buf.old at (hexes_of (take n list.now)) buf.new result }
{
    let mut to = at;
    for b in list.iter().take(n) {
        to = hex(buf, to, *b);
    }
    to
}
