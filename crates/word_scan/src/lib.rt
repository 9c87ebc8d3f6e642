// Whether a run of ones of no length is among the words of some bytes (RFC 3611, 4.1.1; RULES, "Standard reading").
// One pass with a comparison and nothing else in it: it does not stop at the first one, and it takes each word with its
// second byte worth more, as the machine does, whatever the order in which the word was sent. So the compiler compares
// many words at once.
#![tactic(auto)]

ghost use Rattle.std.specs.Prelude.{◌≡◌};
ghost use Rattle.def_wire.specs.Bytes.{words16};
ghost use Rattle.def_wire.specs.Block.{lost_run, has};
ghost use Rattle.def_jobs.specs.Jobs.{low16};

// Whether a word is among the words of some bytes, whose second byte is worth more.
fn has_low(bytes: &[u8], w: u16) -> bool
    ensures { result ≡ has w (low16 bytes.now) }
{
    let (words, _) = bytes.as_chunks();
    let mut found = false;
    for word in words {
        found |= u16::from_le_bytes(*word) == w;
    }
    found
}

// Among a block's words, which are big-endian.
pub fn has_lost_run(bytes: &[u8]) -> bool
    ensures { result ≡ has lost_run (words16 bytes.now) }
{
    has_low(bytes, 0x0040)
}

// Among a record's words, which are little-endian.
pub fn has_lost_run_low(bytes: &[u8]) -> bool
    ensures { result ≡ has lost_run (low16 bytes.now) }
{
    has_low(bytes, 0x4000)
}
