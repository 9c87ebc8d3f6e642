// The standard reading of a packet that comes in portions, some bytes at a time (RULES, "Packets in portions"): a
// state of fixed size goes in by value and comes back, and a call's events go into four lent lists. Nothing of the
// packet is kept but the bytes of an item that is not complete.
#![tactic(auto)]

ghost use Rattle.std.specs.Prelude.{◌≡◌, ◌+◌, ◌≤◌, ◌<◌, length, drop};
ghost use Rattle.def_portions.specs.Lists.{room_in};
ghost use Rattle.def_portions.specs.Calls.{room_fault};
ghost use Rattle.states.specs.Steps.{after, shows, shown_by, settled, settled_events, end_in};
ghost use Rattle.event_lists.specs.Laid.{Laid};
ghost use Rattle.states.specs.Call.{announced_by, taken_in, past_by, past_of, call_fault, Following};
ghost use Rattle.portions.specs.Turn.{WholeAt, TurnCounted, TurnStored};

use def_portions::Event;
use def_refusals::Refusal;
use states::{Followed, Portions, Settled};

// No byte has more events than this: a run of 16,383 numbers and the packet's end. A caller who lends room for so many
// can give one byte at a time and is never refused as 11.
pub const MOST_EVENTS: usize = 16384;

// How many events four lists have room for: the fourth has three numbers for each.
fn room_in(tags: &[u64], numbers: &[u16], values: &[u64], sums: &[u64]) -> usize
    ensures { result ≡ room_in tags.now numbers.now values.now sums.now }
{
    tags.len()
        .min(numbers.len())
        .min(values.len())
        .min(sums.len() / 3)
}

// Stores the events of a complete item, the packet's end not among them, and answers the index past them.
fn put_item(
    st: Portions,
    tags: &mut [u64],
    numbers: &mut [u16],
    values: &mut [u64],
    sums: &mut [u64],
    n: usize,
) -> usize
    requires { n + length (shown_by st) ≤ room_in tags.old numbers.old values.old sums.old }
    ensures { Laid (shown_by st) n tags.old numbers.old values.old
        sums.old tags.new numbers.new values.new sums.new result }
{
    if st.item == states::WORD {
        let k = st.known;
        let step = range::doubled(1, steps::thinning_of(k));
        return event_lists::put_word(
            tags,
            numbers,
            n,
            steps::low16(st.held),
            k.inside,
            k.next,
            step,
        );
    }
    match steps::lone(st) {
        Some(e) => event_lists::put(tags, numbers, values, sums, n, e),
        None => n,
    }
}

// Stores the packet's end, where a state is over.
fn put_end(
    st: Portions,
    tags: &mut [u64],
    numbers: &mut [u16],
    values: &mut [u64],
    sums: &mut [u64],
    n: usize,
) -> usize
    requires { n + length (end_in st) ≤ room_in tags.old numbers.old values.old sums.old }
    ensures { Laid (end_in st) n tags.old numbers.old values.old
        sums.old tags.new numbers.new values.new sums.new result }
{
    if st.item == states::OVER {
        return event_lists::put(tags, numbers, values, sums, n, Event::End);
    }
    n
}

// Stores the events of an item that may be complete, and answers the state behind it and the index past them.
fn put_settled(
    st: Portions,
    tags: &mut [u64],
    numbers: &mut [u16],
    values: &mut [u64],
    sums: &mut [u64],
    n: usize,
) -> Settled
    requires { n + length (settled_events st) ≤ room_in tags.old numbers.old values.old sums.old }
    ensures state_value { result.state ≡ settled st }
    ensures laid { Laid (settled_events st) n tags.old numbers.old values.old
        sums.old tags.new numbers.new values.new sums.new
        result.events }
{
    if st.missing != 0 {
        return Settled {
            state: st,
            events: n,
        };
    }
    match steps::fault(st) {
        Ok(()) => {
            let past = put_item(st, tags, numbers, values, sums, n);
            let next = steps::passed(st);
            let end = put_end(next, tags, numbers, values, sums, past);
            Settled {
                state: next,
                events: end,
            }
        }
        Err(_) => Settled {
            state: st,
            events: n,
        },
    }
}

// One turn over some bytes: the state behind those that it took, and how many events they show; where they are stored,
// the index past them.
#[derive(Drop)]
struct Turn {
    state: Portions,
    events: usize,
    taken: usize,
}

// The length of the block that begins at an index, where all of its bytes are there and nothing is wrong with it;
// else 0.
fn whole_block(s: Portions, x: &[u8], at: usize) -> usize
    requires { at ≤ length x.now }
    ensures { (result ≡ 0 → ⊥) → WholeAt s x.now at result }
{
    if s.item != states::BLOCK {
        return 0;
    }
    if s.missing != 4 {
        return 0;
    }
    if s.held != 0 {
        return 0;
    }
    if s.rest != 0 {
        return 0;
    }
    let left = x.len() - at;
    if left < 4 {
        return 0;
    }
    let w = utils::load32(x, at);
    let l = steps::length_of(w) as usize;
    if left < l {
        return 0;
    }
    match steps::block_fault(s.behind, w) {
        Ok(()) => match block_events::lost_fault(utils::part(x, at, l)) {
            Ok(()) => l,
            Err(_) => 0,
        },
        Err(_) => 0,
    }
}

// How many events the packet's end is: one, where a state is over.
fn ends(st: Portions) -> usize
    ensures { result ≡ length (end_in st) }
{
    if st.item != states::OVER {
        return 0;
    }
    1
}

// A whole block of so many bytes, at once.
fn count_whole(s: Portions, x: &[u8], at: usize, l: usize) -> Turn
    requires x_len_bound { length (shows s (drop at x.now)) ≤ 18446744073709551615 }
    requires whole_at { WholeAt s x.now at l }
    ensures { TurnCounted s x.now at result }
{
    let next = steps::next_block(s.known, s.behind.saturating_sub(l - 4));
    let shown = block_events::count_block(utils::part(x, at, l));
    Turn {
        state: next,
        events: shown + ends(next),
        taken: l,
    }
}

// The bytes of the item at hand.
fn count_some(s: Portions, x: &[u8], at: usize) -> Turn
    requires { (s.missing ≡ 0 → ⊥) × (at < length x.now) }
    ensures { TurnCounted s x.now at result }
{
    let m = s.missing.min(x.len() - at);
    let r = steps::settle(steps::hold(s, x, at, m));
    let next = r.state;
    Turn {
        state: next,
        events: r.events,
        taken: m,
    }
}

fn count_turn(s: Portions, x: &[u8], at: usize) -> Turn
    requires x_len_bound { length (shows s (drop at x.now)) ≤ 18446744073709551615 }
    requires fact { (s.missing ≡ 0 → ⊥) × (at < length x.now) }
    ensures { TurnCounted s x.now at result }
{
    let l = whole_block(s, x, at);
    if l != 0 {
        return count_whole(s, x, at, l);
    }
    count_some(s, x, at)
}

// How many events some bytes show. One pass over them, by arithmetic.
fn count(st: Portions, x: &[u8]) -> usize
    requires { length (shows st x.now) ≤ 18446744073709551615 }
    ensures { result ≡ length (shows st x.now) }
{
    let mut at: usize = 0;
    let mut n: usize = 0;
    let mut s = st;
    while at < x.len() {
        if s.missing == 0 {
            return n;
        }
        let r = count_turn(s, x, at);
        s = r.state;
        n += r.events;
        at += r.taken;
    }
    n
}

// The same with the events stored.
fn put_whole(
    s: Portions,
    x: &[u8],
    at: usize,
    l: usize,
    tags: &mut [u64],
    numbers: &mut [u16],
    values: &mut [u64],
    sums: &mut [u64],
    n: usize,
) -> Turn
    requires x_bound { n + length (shows s (drop at x.now)) ≤ room_in tags.old numbers.old values.old sums.old }
    requires whole_at { WholeAt s x.now at l }
    ensures { TurnStored s x.now at n tags.old numbers.old values.old
        sums.old result tags.new numbers.new values.new sums.new }
{
    let next = steps::next_block(s.known, s.behind.saturating_sub(l - 4));
    let past = block_events::put_block(utils::part(x, at, l), tags, numbers, values, sums, n);
    let all = put_end(next, tags, numbers, values, sums, past);
    Turn {
        state: next,
        events: all,
        taken: l,
    }
}

fn put_some(
    s: Portions,
    x: &[u8],
    at: usize,
    tags: &mut [u64],
    numbers: &mut [u16],
    values: &mut [u64],
    sums: &mut [u64],
    n: usize,
) -> Turn
    requires x_bound { n + length (shows s (drop at x.now)) ≤ room_in tags.old numbers.old values.old sums.old }
    requires fact { (s.missing ≡ 0 → ⊥) × (at < length x.now) }
    ensures { TurnStored s x.now at n tags.old numbers.old values.old
        sums.old result tags.new numbers.new values.new sums.new }
{
    let m = s.missing.min(x.len() - at);
    let r = put_settled(steps::hold(s, x, at, m), tags, numbers, values, sums, n);
    let next = r.state;
    Turn {
        state: next,
        events: r.events,
        taken: m,
    }
}

fn put_turn(
    s: Portions,
    x: &[u8],
    at: usize,
    tags: &mut [u64],
    numbers: &mut [u16],
    values: &mut [u64],
    sums: &mut [u64],
    n: usize,
) -> Turn
    requires x_bound { n + length (shows s (drop at x.now)) ≤ room_in tags.old numbers.old values.old sums.old }
    requires fact { (s.missing ≡ 0 → ⊥) × (at < length x.now) }
    ensures { TurnStored s x.now at n tags.old numbers.old values.old
        sums.old result tags.new numbers.new values.new sums.new }
{
    let l = whole_block(s, x, at);
    if l != 0 {
        return put_whole(s, x, at, l, tags, numbers, values, sums, n);
    }
    put_some(s, x, at, tags, numbers, values, sums, n)
}

// Stores the events of some bytes into lists that have room for them.
fn store(
    st: Portions,
    x: &[u8],
    tags: &mut [u64],
    numbers: &mut [u16],
    values: &mut [u64],
    sums: &mut [u64],
) -> Settled
    requires { length (shows st x.now) ≤ room_in tags.old numbers.old values.old sums.old }
    ensures state_value { result.state ≡ after st x.now }
    ensures laid { Laid (shows st x.now) 0 tags.old numbers.old
        values.old sums.old tags.new numbers.new values.new
        sums.new result.events }
{
    let mut at: usize = 0;
    let mut n: usize = 0;
    let mut s = st;
    while at < x.len() {
        if s.missing == 0 {
            return Settled {
                state: s,
                events: n,
            };
        }
        let r = put_turn(s, x, at, tags, numbers, values, sums, n);
        s = r.state;
        n = r.events;
        at += r.taken;
    }
    Settled {
        state: s,
        events: n,
    }
}

// The announced length, as far as it is known with these bytes; else 0.
fn announced_by(st: Portions, x: &[u8]) -> usize
    ensures { result ≡ announced_by st x.now }
{
    let k = st.known;
    if st.item != states::HEAD {
        return k.announced as usize;
    }
    let m = st.missing;
    if x.len() < m {
        return 0;
    }
    let s = steps::hold(st, x, 0, m);
    steps::good_length(steps::low32(s.held))
}

// How many bytes were taken before.
fn taken_in(st: Portions) -> usize
    ensures { (result ≡ taken_in st) × (result ≤ 4294967295) }
{
    let k = st.known;
    if st.item == states::HEAD {
        return 4usize.saturating_sub(st.missing);
    }
    let all = k.announced as usize;
    all.saturating_sub(st.behind)
        .saturating_sub(st.rest)
        .saturating_sub(st.missing)
}

// 19: more bytes than the header announces.
fn past(announced: usize, given: usize) -> Result<(), Refusal>
    ensures { result ≡ past_by announced given }
{
    if given <= announced {
        return Ok(());
    }
    Err(Refusal::PastEnd(announced, given))
}

// The same of a call. While the header is not known, or not good, nothing is announced.
fn past_end(st: Portions, x: &[u8]) -> Result<(), Refusal>
    ensures { result ≡ past_of st x.now }
{
    let announced = announced_by(st, x);
    let given = taken_in(st) + x.len();
    if st.item == states::HEAD {
        if announced == 0 {
            return Ok(());
        }
        return past(announced, given);
    }
    past(announced, given)
}

// 11: less room than events. They are counted only where the room might be too little.
fn too_little(st: Portions, x: &[u8], room: usize) -> Result<(), Refusal>
    requires { length (shows st x.now) ≤ 18446744073709551615 }
    ensures { result ≡ room_fault (shows st x.now) room }
{
    if x.len() <= room / MOST_EVENTS {
        return Ok(());
    }
    let needed = count(st, x);
    if needed <= room {
        return Ok(());
    }
    Err(Refusal::NoRoom(needed, room))
}

// The refusal of a call that takes nothing: one that stays, 19, 11.
fn call_fault(st: Portions, x: &[u8], room: usize) -> Result<(), Refusal>
    ensures { result ≡ call_fault st x.now room }
{
    steps::fault(st)?;
    past_end(st, x)?;
    too_little(st, x, room)
}

// Takes some bytes of a packet, or none, and lists their events: the state behind them, how many events were listed,
// and the refusal. One that stays: 1, 2, 3, 18, 6, 7, with the events before it listed. One that takes nothing and
// leaves all as it was: 19, 11. A call costs what its bytes and its events cost (RULES, "Packets in portions").
pub fn follow(
    st: Portions,
    x: &[u8],
    tags: &mut [u64],
    numbers: &mut [u16],
    values: &mut [u64],
    sums: &mut [u64],
) -> Followed
    ensures { Following st x.now tags.old numbers.old values.old
        sums.old result tags.new numbers.new values.new sums.new }
{
    match call_fault(st, x, room_in(tags, numbers, values, sums)) {
        Ok(()) => {
            let r = store(st, x, tags, numbers, values, sums);
            let s = r.state;
            Followed {
                state: s,
                taken: x.len(),
                events: r.events,
                refusal: steps::fault(s),
            }
        }
        Err(y) => Followed {
            state: st,
            taken: 0,
            events: 0,
            refusal: Err(y),
        },
    }
}
