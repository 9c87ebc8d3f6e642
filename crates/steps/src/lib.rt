// What a complete item does to the state of a packet that comes in portions: its refusal, the state behind it, and how
// many events it shows (RULES, "Packets in portions"). Each takes all states.
#![tactic(auto)]

ghost use Rattle.std.specs.Prelude.{◌≡◌, ◌+◌, ◌≤◌, length, leb};
ghost use Rattle.def_wire.specs.Bytes.{four};
ghost use Rattle.def_wire.specs.Packet.{part};
ghost use Rattle.def_wire.specs.Block.{type_of, specific_of, block_length, kind_of};
ghost use Rattle.def_portions.specs.Events.{need, head_fault, block_fault, rule_of};
ghost use Rattle.states.specs.Steps.{start as start_of, known as known_of, held_with, held_over, holds, fault_of};
ghost use Rattle.states.specs.Steps.{next_block, opened as opened_at, in_block, in_packet, thinning_in, fields_in};
ghost use Rattle.states.specs.Steps.{ranged as ranged_by, moved as moved_on, passed as passed_of, start_in, lone_of};
ghost use Rattle.states.specs.Steps.{shown_by, settled_of, good_length, kept as kept_of, summing as summing_of, summary_in};
ghost use Rattle.states.specs.Steps.{summed_on, sums_in};
ghost use Rattle.states.specs.Steps.{low16 as low16_of, low32 as low32_of, high32 as high32_of};

use def_portions::Event;
use def_refusals::Refusal;
use def_standard::{Echo, Receipt};
use def_wire::{ByteSpread, Fields, Kind, LongTime, ReceiptTime, ShortTime, Spread, Summary, Sums};
use states::{Kept, Known, Portions, Settled};

// Nothing of a summary.
fn nothing() -> Kept
    ensures { result ≡ kept_of 0 0 0 0 }
{
    Kept {
        first: 0,
        second: 0,
        third: 0,
        fourth: 0,
    }
}

// Before the packet's first byte.
pub fn start() -> Portions
    ensures { result ≡ start_of }
{
    Portions {
        held: 0,
        missing: 4,
        rest: 0,
        behind: 0,
        known: Known {
            announced: 0,
            block: 0,
            whose: 0,
            next: 0,
            inside: 0,
            kept: nothing(),
        },
        item: states::HEAD,
    }
}

// The last two bytes that are held, the last four, and the four before them.
pub fn low16(h: u64) -> u16
    ensures { result ≡ low16_of h }
{
    (h % 65536) as u16
}

pub fn low32(h: u64) -> u32
    ensures { result ≡ low32_of h }
{
    (h % 4294967296) as u32
}

fn high32(h: u64) -> u32
    ensures { result ≡ high32_of h }
{
    low32(h / 4294967296)
}

// The first byte, the second and the length that the last two say, of four header bytes (RFC 3611, 2 and 3).
fn first_byte(w: u32) -> u8
    ensures { result ≡ type_of (four w) }
{
    (w / 65536 / 256 % 256) as u8
}

fn second_byte(w: u32) -> u8
    ensures { result ≡ specific_of (four w) }
{
    (w / 65536 % 256) as u8
}

pub fn length_of(w: u32) -> u32
    ensures value { result ≡ block_length (four w) }
    ensures lower_bound { (4 ≤ result) × (result ≤ 262144) }
{
    (w % 65536 + 1) * 4
}

pub fn thinning_of(k: Known) -> u8
    ensures { result ≡ thinning_in k }
{
    second_byte(k.block) % 16
}

// What the packet's first four bytes show: 1, 2, 3, 18.
#[tactic(auto, unfolding(def_portions::specs::Events::head_fault))]
fn head_fault(w: u32) -> Result<(), Refusal>
    ensures { result ≡ head_fault (four w) }
{
    let l = length_of(w) as usize;
    if l < 8 {
        return Err(Refusal::TooShort(8, l));
    }
    let first = first_byte(w);
    if first / 64 != 2 {
        return Err(Refusal::WrongVersion);
    }
    if second_byte(w) != 207 {
        return Err(Refusal::WrongPacketType);
    }
    if first / 32 % 2 == 1 {
        return Err(Refusal::Padded);
    }
    Ok(())
}

// The length that the packet's first four bytes announce, where they are good; else 0.
pub fn good_length(w: u32) -> usize
    ensures { result ≡ good_length (four w) }
{
    match head_fault(w) {
        Ok(()) => length_of(w) as usize,
        Err(_) => 0,
    }
}

// A length rule: it holds, or 7.
fn rule(ok: bool, expected: usize, actual: usize) -> Result<(), Refusal>
    ensures { result ≡ Rattle.def_wire.specs.Block.rule ok expected actual }
{
    if ok {
        return Ok(());
    }
    Err(Refusal::BadBlockLength(expected, actual))
}

// The standard's length rule of a type: 7.
fn rule_of(t: u8, length: u32) -> Result<(), Refusal>
    ensures { result ≡ rule_of (kind_of t) length }
{
    let l = length as usize;
    match records::kind_of(t) {
        Some(k) => match k {
            Kind::Spans(_) => rule(12 <= l, 12, l),
            Kind::Clock => rule(l == 12, 12, l),
            Kind::Echoes => {
                let past = l.saturating_sub(4) % 12;
                rule(past == 0, l + (12 - past) % 12, l)
            }
            Kind::Statistics => rule(l == 40, 40, l),
        },
        None => Ok(()),
    }
}

// 6: a block is longer than what is left for blocks, of which so many bytes are behind its first four.
fn too_long(l: usize, behind: usize) -> Result<(), Refusal>
    requires { 4 ≤ l }
    ensures { result ≡ need (leb l (behind + 4)) (Refusal.BlockTooLong l (behind + 4)) }
{
    if behind < l - 4 {
        return Err(Refusal::BlockTooLong(l, behind + 4));
    }
    Ok(())
}

// What a block's first four bytes show, with so many bytes of the packet behind them: 6, 7.
pub fn block_fault(behind: usize, w: u32) -> Result<(), Refusal>
    ensures { result ≡ block_fault (behind + 4) (four w) }
{
    let length = length_of(w);
    too_long(length as usize, behind)?;
    rule_of(first_byte(w), length)
}

// The refusal that the item at hand shows, where it is complete: such an item stays at hand.
pub fn fault(st: Portions) -> Result<(), Refusal>
    ensures { result ≡ fault_of st }
{
    if st.missing != 0 {
        return Ok(());
    }
    if st.item == states::HEAD {
        return head_fault(low32(st.held));
    }
    if st.item == states::BLOCK {
        return block_fault(st.behind, low32(st.held));
    }
    if st.item == states::WORD {
        let k = st.known;
        let l = length_of(k.block) as usize;
        return rule(low16(st.held) != 0x4000, 12, l);
    }
    Ok(())
}

// Behind a block: the next one's first four bytes, or the packet's end. Of a block nothing is kept behind it.
pub fn next_block(k: Known, behind: usize) -> Portions
    ensures { result ≡ next_block k behind }
{
    let bare = Known {
        announced: k.announced,
        block: 0,
        whose: 0,
        next: 0,
        inside: 0,
        kept: nothing(),
    };
    if behind == 0 {
        return Portions {
            held: 0,
            missing: 0,
            rest: 0,
            behind: 0,
            known: bare,
            item: states::OVER,
        };
    }
    Portions {
        held: 0,
        missing: 4,
        rest: 0,
        behind: behind.saturating_sub(4),
        known: bare,
        item: states::BLOCK,
    }
}

// The next item of a block, or what is behind the block.
fn opened(k: Known, rest: usize, behind: usize, item: u8, size: usize) -> Portions
    ensures { result ≡ opened_at k rest behind item size }
{
    if rest == 0 {
        return next_block(k, behind);
    }
    Portions {
        held: 0,
        missing: size,
        rest: rest.saturating_sub(size),
        behind,
        known: k,
        item,
    }
}

// Behind a block's first four bytes.
fn in_block(announced: u32, behind: usize, w: u32) -> Portions
    ensures { result ≡ in_block announced behind w }
{
    let k = Known {
        announced,
        block: w,
        whose: 0,
        next: 0,
        inside: 0,
        kept: nothing(),
    };
    let rest = length_of(w) as usize - 4;
    let left = behind.saturating_sub(rest);
    match records::kind_of(first_byte(w)) {
        Some(kind) => match kind {
            Kind::Spans(_) => opened(k, rest, left, states::FIELDS, 8),
            Kind::Clock => opened(k, rest, left, states::CLOCK, 8),
            Kind::Echoes => opened(k, rest, left, states::WHOSE, 4),
            Kind::Statistics => opened(k, rest, left, states::SUMS, 8),
        },
        None => opened(k, rest, left, states::SKIPPED, rest),
    }
}

// The fields of types 1 to 3, from a block's first four bytes and the next eight.
pub fn fields_in(k: Known, held: u64) -> Fields
    ensures { result ≡ fields_in k held }
{
    Fields {
        ssrc: high32(held),
        begin: low16(held / 65536),
        end: low16(held),
        thinning: thinning_of(k),
    }
}

// Behind the fields: the first position's number, and how many are inside.
fn ranged(k: Known, held: u64) -> Known
    ensures { result ≡ ranged_by k held }
{
    let g = range::range_of(fields_in(k, held));
    Known {
        announced: k.announced,
        block: k.block,
        whose: 0,
        next: range::number_at(g, 0),
        inside: range::inside_count(g),
        kept: nothing(),
    }
}

// So many positions on.
fn moved(k: Known, n: u16) -> Known
    ensures { result ≡ moved_on k n }
{
    Known {
        announced: k.announced,
        block: k.block,
        whose: 0,
        next: range::moved_by(n, thinning_of(k), k.next),
        inside: k.inside.saturating_sub(n as usize),
        kept: nothing(),
    }
}

// The SSRC of the entry at hand, or none.
fn for_entry(k: Known, whose: u32) -> Known
    ensures { result ≡ known_of k.announced k.block whose 0 0 }
{
    Known {
        announced: k.announced,
        block: k.block,
        whose,
        next: 0,
        inside: 0,
        kept: nothing(),
    }
}

// Eight bytes of a summary more.
fn summing(k: Known, held: u64) -> Known
    ensures { result ≡ summing_of k held }
{
    let x = k.kept;
    Known {
        announced: k.announced,
        block: k.block,
        whose: 0,
        next: 0,
        inside: 0,
        kept: Kept {
            first: x.second,
            second: x.third,
            third: x.fourth,
            fourth: held,
        },
    }
}

// Behind eight bytes of a summary: eight more, or the last four.
fn summed_on(st: Portions) -> Portions
    ensures { result ≡ summed_on st }
{
    let k = summing(st.known, st.held);
    if st.rest == 4 {
        return opened(k, st.rest, st.behind, states::HOPS, 4);
    }
    opened(k, st.rest, st.behind, states::SUMS, 8)
}

// The numbers of a summary, from what is kept of it and its last four bytes.
fn sums_in(x: Kept, held: u64) -> Sums
    ensures { result ≡ sums_in x held }
{
    Sums {
        ssrc: high32(x.first),
        begin: low16(x.first / 65536),
        end: low16(x.first),
        lost: high32(x.second),
        duplicates: low32(x.second),
        jitter: Spread {
            least: high32(x.third),
            most: low32(x.third),
            mean: high32(x.fourth),
            deviation: low32(x.fourth),
        },
        hops: ByteSpread {
            least: (held / 16777216 % 256) as u8,
            most: (held / 65536 % 256) as u8,
            mean: (held / 256 % 256) as u8,
            deviation: (held % 256) as u8,
        },
    }
}

// What is shown of them.
fn summary_in(k: Known, held: u64) -> Summary
    ensures { result ≡ summary_in k held }
{
    let x = k.kept;
    stats::summary_from(second_byte(k.block), sums_in(x, held))
}

// Behind the packet's first four bytes.
fn in_packet(w: u32) -> Portions
    ensures { result ≡ in_packet w }
{
    let announced = length_of(w);
    Portions {
        held: 0,
        missing: 4,
        rest: 0,
        behind: (announced as usize).saturating_sub(8),
        known: Known {
            announced,
            block: 0,
            whose: 0,
            next: 0,
            inside: 0,
            kept: nothing(),
        },
        item: states::SENDER,
    }
}

// The state behind a complete item.
pub fn passed(st: Portions) -> Portions
    ensures { result ≡ passed_of st }
{
    let k = st.known;
    if st.item == states::HEAD {
        return in_packet(low32(st.held));
    }
    if st.item == states::SENDER {
        return next_block(k, st.behind);
    }
    if st.item == states::BLOCK {
        return in_block(k.announced, st.behind, low32(st.held));
    }
    if st.item == states::FIELDS {
        if first_byte(k.block) == 3 {
            return opened(ranged(k, st.held), st.rest, st.behind, states::TIME, 4);
        }
        return opened(ranged(k, st.held), st.rest, st.behind, states::WORD, 2);
    }
    if st.item == states::WORD {
        let covered = chunk::covers(low16(st.held));
        return opened(moved(k, covered), st.rest, st.behind, states::WORD, 2);
    }
    if st.item == states::TIME {
        return opened(moved(k, 1), st.rest, st.behind, states::TIME, 4);
    }
    if st.item == states::WHOSE {
        return opened(
            for_entry(k, low32(st.held)),
            st.rest,
            st.behind,
            states::ECHO,
            8,
        );
    }
    if st.item == states::ECHO {
        return opened(for_entry(k, 0), st.rest, st.behind, states::WHOSE, 4);
    }
    if st.item == states::SUMS {
        return summed_on(st);
    }
    opened(k, st.rest, st.behind, states::SKIPPED, st.rest)
}

// The start that a block's first four bytes show: none for types 1 to 3, whose start is known later.
fn start_in(w: u32) -> Option<Event>
    ensures { result ≡ start_in (kind_of (type_of (four w))) w }
{
    let t = first_byte(w);
    match records::kind_of(t) {
        Some(kind) => match kind {
            Kind::Spans(_) => None,
            Kind::Clock => Some(Event::Start(t, length_of(w))),
            Kind::Echoes => Some(Event::Start(t, length_of(w))),
            Kind::Statistics => Some(Event::Start(t, length_of(w))),
        },
        None => Some(Event::Start(t, length_of(w))),
    }
}

// The event of a complete item that is no word.
pub fn lone(st: Portions) -> Option<Event>
    ensures { result ≡ lone_of st }
{
    let k = st.known;
    if st.item == states::SENDER {
        return Some(Event::Header(k.announced, low32(st.held)));
    }
    if st.item == states::BLOCK {
        return start_in(low32(st.held));
    }
    if st.item == states::FIELDS {
        let w = k.block;
        return Some(Event::Ranged(first_byte(w), length_of(w), fields_in(k, st.held)));
    }
    if st.item == states::TIME {
        if k.inside == 0 {
            return None;
        }
        let r = Receipt {
            number: k.next,
            time: ReceiptTime(low32(st.held)),
        };
        return Some(Event::Pair(r));
    }
    if st.item == states::ECHO {
        let e = Echo {
            ssrc: k.whose,
            last: ShortTime(high32(st.held)),
            delay: ShortTime(low32(st.held)),
        };
        return Some(Event::Entry(e));
    }
    if st.item == states::CLOCK {
        return Some(Event::Time(LongTime(st.held)));
    }
    if st.item == states::HOPS {
        return Some(Event::Summed(summary_in(k, st.held)));
    }
    None
}

// How many events a complete item shows, the packet's end not among them.
fn weight(st: Portions) -> usize
    ensures { result ≡ length (shown_by st) }
{
    if st.item == states::WORD {
        let k = st.known;
        return chunk::ones_before(low16(st.held), k.inside);
    }
    match lone(st) {
        Some(_) => 1,
        None => 0,
    }
}

// The state behind an item that may be complete, and how many events it shows, the packet's end among them.
pub fn settle(st: Portions) -> Settled
    ensures { result ≡ settled_of st }
{
    if st.missing != 0 {
        return Settled {
            state: st,
            events: 0,
        };
    }
    match fault(st) {
        Ok(()) => {
            let next = passed(st);
            let shown = weight(st);
            if next.item == states::OVER {
                return Settled {
                    state: next,
                    events: shown + 1,
                };
            }
            Settled {
                state: next,
                events: shown,
            }
        }
        Err(_) => Settled {
            state: st,
            events: 0,
        },
    }
}

// A byte more, as a number.
fn more(item: u8, held: u64, b: u8) -> u64
    ensures { result ≡ held_with item held b }
{
    if item != states::SKIPPED {
        return held % 72057594037927936 * 256 + b as u64;
    }
    held
}

// The bytes from a place on, as many as said, behind those that are held.
fn gathered(item: u8, held: u64, x: &[u8], from: usize, m: usize) -> u64
    requires { from + m ≤ length x.now }
    ensures { result ≡ held_over item held (part x.now from m) }
{
    if item == states::SKIPPED {
        return held;
    }
    let mut h = held;
    for b in &x[from..from + m] {
        h = more(item, h, *b);
    }
    h
}

// The state with so many bytes more of the item at hand.
pub fn hold(st: Portions, x: &[u8], from: usize, m: usize) -> Portions
    requires { from + m ≤ length x.now }
    ensures { result ≡ holds st (part x.now from m) }
{
    let held = gathered(st.item, st.held, x, from, m);
    let k = st.known;
    Portions {
        held,
        missing: st.missing.saturating_sub(m),
        rest: st.rest,
        behind: st.behind,
        known: k,
        item: st.item,
    }
}
