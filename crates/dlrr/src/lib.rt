// The clock echoes of a DLRR block, into three lent lists, in both readings (RFC 3611, 4.5).
// Port of: dlrr.rs DelaySinceLastReceiverReport::block_iter; differs: the standard reading takes the block's own
// entries, whatever their number.
#![tactic(auto)]

ghost use Rattle.std.specs.Prelude.{◌≡◌, ◌++◌, map, ◌+◌, ◌*◌, ◌-◌, ◌/◌, ◌≤◌, ◌<◌, min, length, drop};
ghost use Rattle.def_standard.specs.Standard.{entries_of};
ghost use Rattle.def_questions.specs.Questions.{entries_shown, ListedEntries, least3};
ghost use Rattle.def_questions.specs.Packets.{entries_asked};
ghost use Rattle.dlrr.specs.Entries.{echo_at, Stored};

use def_refusals::Refusal;
use def_standard::Echo;
use def_wire::{Reading, ShortTime};

// The entry at a place.
fn entry(v: &[u8], at: usize) -> Echo
    requires { at + 12 ≤ length v.now }
    ensures { result ≡ echo_at v.now at }
{
    Echo {
        ssrc: utils::load32(v, at),
        last: ShortTime(utils::load32(v, at + 4)),
        delay: ShortTime(utils::load32(v, at + 8)),
    }
}

// How many whole entries a view has behind its four header bytes.
pub fn count(v: &[u8]) -> usize
    ensures { result ≡ length (entries_of v.now) }
{
    if v.len() < 4 {
        return 0;
    }
    (v.len() - 4) / 12
}

// Stores n entries from the front of each list.
fn store(v: &[u8], n: usize, ssrcs: &mut [u32], lasts: &mut [u32], delays: &mut [u32])
    requires n_value { n ≡ length (entries_of v.now) }
    requires n_bound { n ≤ least3 ssrcs.old lasts.old delays.old }
    ensures { Stored (entries_of v.now) ssrcs.old lasts.old
        delays.old ssrcs.new lasts.new delays.new }
{
    for i in 0..n {
        let e = entry(v, 4 + 12 * i);
        let last = e.last;
        let delay = e.delay;
        ssrcs[i] = e.ssrc;
        lasts[i] = last.0;
        delays[i] = delay.0;
    }
}

// The entries of a block's view: 10, 7, 11.
pub fn entries(
    r: Reading,
    v: &[u8],
    ssrcs: &mut [u32],
    lasts: &mut [u32],
    delays: &mut [u32],
) -> Result<usize, Refusal>
    ensures { ListedEntries (entries_shown r v.now) ssrcs.old lasts.old
        delays.old result ssrcs.new lasts.new delays.new }
{
    block::check_echoes(r, v)?;
    let n = count(v);
    let room = ssrcs.len().min(lasts.len()).min(delays.len());
    if room < n {
        return Err(Refusal::NoRoom(n, room));
    }
    store(v, n, ssrcs, lasts, delays);
    Ok(n)
}

// The entries of block k of a packet: 1 to 6, 9, 10, 7, 11.
pub fn entries_in(
    r: Reading,
    s: &[u8],
    k: usize,
    ssrcs: &mut [u32],
    lasts: &mut [u32],
    delays: &mut [u32],
) -> Result<usize, Refusal>
    ensures { ListedEntries (entries_asked r s.now k) ssrcs.old lasts.old
        delays.old result ssrcs.new lasts.new delays.new }
{
    let (at, n) = xr::locate(r, s, k)?;
    entries(r, utils::part(s, at, n), ssrcs, lasts, delays)
}
