// Lent memory with a pattern in it, and whether the pattern still stands (README, "xrprobe"): xrprobe lends memory in
// this way, so that a call that stores anything behind its items would be seen: a line `spoilt` would follow its
// answer. That it never does is proved (proofs/TellLaws.antt), so no definition of an answer speaks of it.
#![tactic(auto)]

ghost use Rattle.std.specs.Prelude.{ℕ, ◌≡◌, length, drop};
ghost use Rattle.def_text.specs.Buffer.{Added};
ghost use Rattle.lent.specs.Telling.{unless_whole};
ghost use Rattle.lent.specs.Pattern.{mark8 as mark8_of, mark16 as mark16_of, mark32 as mark32_of, pattern, stands};

// What lent memory holds: a number of 8, 16 or 32 bits, of which the pattern has one for each index.
pub trait Marked: Copy + PartialEq {
    ghost mark_of: { ℕ → Self };

    // What stands at an index of the pattern.
    fn mark(i: usize) -> Self
        ensures { result ≡ mark_of i };
}

impl Marked for u8 {
    ghost mark_of = { mark8_of };

    fn mark(i: usize) -> u8 {
        ((i % 251) + 4) as u8
    }
}

impl Marked for u16 {
    ghost mark_of = { mark16_of };

    fn mark(i: usize) -> u16 {
        ((i % 65521) * 40503 % 65536) as u16
    }
}

impl Marked for u32 {
    ghost mark_of = { mark32_of };

    fn mark(i: usize) -> u32 {
        ((i % 65521) * 40503 + 123456789) as u32
    }
}

// The pattern, all over a list.
pub fn fill<T: Marked>(list: &mut [T])
    ensures { list.new ≡ pattern T.mark_of 0 (length list.old) }
{
    for i in 0..list.len() {
        list[i] = T::mark(i);
    }
}

// Whether the pattern stands from an index on.
pub fn stands<T: Marked>(list: &[T], from: usize) -> bool
    ensures { result ≡ stands T.eq T.mark_of from (drop from list.now) }
{
    list.iter()
        .enumerate()
        .skip(from)
        .all(|(i, x)| *x == T::mark(i))
}

// A line `spoilt`, unless the memory is whole.
pub fn said_whole(buf: &mut [u8], at: usize, whole: bool) -> usize
    ensures { Added buf.old at (unless_whole whole) buf.new result }
{
    if whole {
        return at;
    }
    print::text(buf, at, b"spoilt\n")
}
