// What xrprobe answers to a request (README, "xrprobe"): the payload is taken apart, and the question that it asks is
// answered. `answer` promises that it has added exactly the text of def_probe's `answer_to`, and nothing where the
// request is none that is served.
#![tactic(auto)]

ghost use Rattle.std.specs.Prelude.{◌≡◌, true, false, drop};
ghost use Rattle.def_jobs.specs.Jobs.{le32};
ghost use Rattle.def_text.specs.Buffer.{Added};
ghost use Rattle.def_probe.specs.Requests.{reply_text, is_told, answer_to, reading_first, chunk_asked as chunk_of};
ghost use Rattle.def_probe.specs.Requests.{numbers_text, words_text, pairs_text, entries_text, typed_reply, list_reply};
ghost use Rattle.def_probe.specs.Requests.{words_reply, numbers_reply, shown_text, shown_reply, stretch_text, stretch_reply};
ghost use Rattle.def_probe.specs.Requests.{written_text, written_reply, made_text, made_reply, parsed_text, parsed_reply};
ghost use Rattle.def_probe.specs.Requests.{marks_text, marks_reply, view_text, view_reply, portions_reply};
ghost use Rattle.def_probe.specs.Requests.{summary_text, summary_reply};
ghost use Rattle.probe.specs.Replied.{Replied, begins_well};

use def_cursor::Cursor;
use def_jobs::Layout;
use def_standard::Chunk;
use def_wire::Reading;

// What waits in the buffer, and whether the request was one that is served.
#[derive(Drop)]
pub struct Told {
    pub at: usize,
    pub served: bool,
}

fn cut(at: usize) -> Told
    ensures { (result.at ≡ at) × (result.served ≡ false) }
{
    Told { at, served: false }
}

fn served(at: usize) -> Told
    ensures { (result.at ≡ at) × (result.served ≡ true) }
{
    Told { at, served: true }
}

// A little-endian number of four bytes in a payload.
fn number(p: &[u8], at: usize) -> usize
    ensures { result ≡ le32 p.now at }
{
    little_endian::u32_from_le_bytes(p, at) as usize
}

// What stands in a payload from an index on.
fn behind(p: &[u8], at: usize) -> &[u8]
    ensures { result.now ≡ drop at p.now }
{
    utils::part(p, at, p.len())
}

// Which reading a payload's first byte asks.
fn reading(p: &[u8]) -> Reading
    ensures { result ≡ reading_first p.now }
{
    if utils::byte_at(p, 0) == 0 {
        Reading::Standard
    } else {
        Reading::Crate
    }
}

fn numbers(p: &[u8], buf: &mut [u8], at: usize) -> usize
    ensures { Added buf.old at (numbers_text p.now) buf.new result }
{
    ask_lists::numbers(
        reading(p),
        behind(p, 10),
        number(p, 1),
        utils::byte_at(p, 5),
        number(p, 6),
        buf,
        at,
    )
}

fn words(p: &[u8], buf: &mut [u8], at: usize) -> usize
    ensures { Added buf.old at (words_text p.now) buf.new result }
{
    ask_lists::words(
        reading(p),
        behind(p, 10),
        number(p, 1),
        utils::byte_at(p, 5),
        number(p, 6),
        buf,
        at,
    )
}

fn pairs(p: &[u8], buf: &mut [u8], at: usize) -> usize
    ensures { Added buf.old at (pairs_text p.now) buf.new result }
{
    ask_lists::pairs(
        reading(p),
        behind(p, 10),
        number(p, 1),
        number(p, 6),
        buf,
        at,
    )
}

fn entries(p: &[u8], buf: &mut [u8], at: usize) -> usize
    ensures { Added buf.old at (entries_text p.now) buf.new result }
{
    ask_lists::entries(
        reading(p),
        behind(p, 10),
        number(p, 1),
        number(p, 6),
        buf,
        at,
    )
}

fn shown(p: &[u8], buf: &mut [u8], at: usize) -> usize
    ensures { Added buf.old at (shown_text p.now) buf.new result }
{
    let t = utils::byte_at(p, 5);
    if t == 4 {
        return ask::time(reading(p), behind(p, 6), number(p, 1), buf, at);
    }
    ask::fields(reading(p), behind(p, 6), number(p, 1), t, buf, at)
}

fn stretch(p: &[u8], buf: &mut [u8], at: usize) -> usize
    ensures { Added buf.old at (stretch_text p.now) buf.new result }
{
    let from = Cursor {
        word: number(p, 5),
        place: number(p, 9),
        position: number(p, 13),
    };
    let t = utils::byte_at(p, 4);
    ask_lists::stretch(
        behind(p, 25),
        number(p, 0),
        t,
        from,
        number(p, 17),
        number(p, 21),
        buf,
        at,
    )
}

fn written(layout: Layout, p: &[u8], buf: &mut [u8], at: usize) -> usize
    ensures { Added buf.old at (written_text layout p.now) buf.new result }
{
    ask::written(layout, behind(p, 4), number(p, 0), buf, at)
}

fn chunk_asked(k: u8, value: u32) -> Chunk
    ensures { result ≡ chunk_of k value }
{
    if k == 0 {
        return Chunk::Null;
    }
    if k == 1 {
        return Chunk::Skip(value);
    }
    if k == 2 {
        return Chunk::Run(value);
    }
    Chunk::Vector(value)
}

fn made(p: &[u8], buf: &mut [u8], at: usize) -> usize
    ensures { Added buf.old at (made_text p.now) buf.new result }
{
    let chunk = chunk_asked(utils::byte_at(p, 0), little_endian::u32_from_le_bytes(p, 1));
    ask::made(chunk, number(p, 5), buf, at)
}

fn parsed(p: &[u8], buf: &mut [u8], at: usize) -> usize
    ensures { Added buf.old at (parsed_text p.now) buf.new result }
{
    ask::parsed(reading(p), behind(p, 1), buf, at)
}

fn from_marks(p: &[u8], buf: &mut [u8], at: usize) -> usize
    ensures { Added buf.old at (marks_text p.now) buf.new result }
{
    ask_lists::made(behind(p, 4), number(p, 0), buf, at)
}

fn viewed(p: &[u8], buf: &mut [u8], at: usize) -> usize
    ensures { Added buf.old at (view_text p.now) buf.new result }
{
    ask::viewed(reading(p), behind(p, 5), number(p, 1), buf, at)
}

fn summed(p: &[u8], buf: &mut [u8], at: usize) -> usize
    ensures { Added buf.old at (summary_text p.now) buf.new result }
{
    ask::summed(Reading::Standard, behind(p, 4), number(p, 0), buf, at)
}

// Kind 2, by the asked type.
fn typed(t: u8, p: &[u8], buf: &mut [u8], at: usize) -> Told
    ensures { Replied buf.old at (typed_reply t p.now) buf.new result }
{
    if t == 1 {
        return served(numbers(p, buf, at));
    }
    if t == 2 {
        return served(numbers(p, buf, at));
    }
    if t == 3 {
        return served(pairs(p, buf, at));
    }
    if t == 5 {
        return served(entries(p, buf, at));
    }
    cut(at)
}

// Whether a payload of at least so many bytes begins with a reading.
fn begins(p: &[u8], least: usize) -> bool
    ensures { result ≡ begins_well least p.now }
{
    if p.len() < least {
        return false;
    }
    utils::byte_at(p, 0) <= 1
}

// Kind 2: numbers, pairs or entries.
fn listed(p: &[u8], buf: &mut [u8], at: usize) -> Told
    ensures { Replied buf.old at (list_reply p.now) buf.new result }
{
    if begins(p, 10) {
        return typed(utils::byte_at(p, 5), p, buf, at);
    }
    cut(at)
}

// Kind 9: chunk words.
fn words_asked(p: &[u8], buf: &mut [u8], at: usize) -> Told
    ensures { Replied buf.old at (words_reply p.now) buf.new result }
{
    if begins(p, 10) {
        return served(words(p, buf, at));
    }
    cut(at)
}

// Kind 14: numbers, of any asked type.
fn numbers_asked(p: &[u8], buf: &mut [u8], at: usize) -> Told
    ensures { Replied buf.old at (numbers_reply p.now) buf.new result }
{
    if begins(p, 10) {
        return served(numbers(p, buf, at));
    }
    cut(at)
}

// Kind 3: a block's time or its fields.
fn shown_asked(p: &[u8], buf: &mut [u8], at: usize) -> Told
    ensures { Replied buf.old at (shown_reply p.now) buf.new result }
{
    if begins(p, 6) {
        return served(shown(p, buf, at));
    }
    cut(at)
}

// Kind 8: a packet's blocks and sender.
fn parse_asked(p: &[u8], buf: &mut [u8], at: usize) -> Told
    ensures { Replied buf.old at (parsed_reply p.now) buf.new result }
{
    if begins(p, 1) {
        return served(parsed(p, buf, at));
    }
    cut(at)
}

// Kind 11: a block's view.
fn view_asked(p: &[u8], buf: &mut [u8], at: usize) -> Told
    ensures { Replied buf.old at (view_reply p.now) buf.new result }
{
    if begins(p, 5) {
        return served(viewed(p, buf, at));
    }
    cut(at)
}

// Kind 4: a stretch of the number cursor.
fn stretch_asked(p: &[u8], buf: &mut [u8], at: usize) -> Told
    ensures { Replied buf.old at (stretch_reply p.now) buf.new result }
{
    if 25 <= p.len() {
        return served(stretch(p, buf, at));
    }
    cut(at)
}

// Kinds 5 (plain) and 6 (careful): a packet.
fn write_asked(layout: Layout, p: &[u8], buf: &mut [u8], at: usize) -> Told
    ensures { Replied buf.old at (written_reply layout p.now) buf.new result }
{
    if 4 <= p.len() {
        return served(written(layout, p, buf, at));
    }
    cut(at)
}

// Kind 10: words from marks.
fn marks_asked(p: &[u8], buf: &mut [u8], at: usize) -> Told
    ensures { Replied buf.old at (marks_reply p.now) buf.new result }
{
    if 4 <= p.len() {
        return served(from_marks(p, buf, at));
    }
    cut(at)
}

// Kind 7: a chunk word.
fn word_asked(p: &[u8], buf: &mut [u8], at: usize) -> Told
    ensures { Replied buf.old at (made_reply p.now) buf.new result }
{
    if p.len() == 9 {
        if utils::byte_at(p, 0) <= 3 {
            return served(made(p, buf, at));
        }
        return cut(at);
    }
    cut(at)
}

// Kind 12: a packet in portions.
fn portions_asked(p: &[u8], buf: &mut [u8], at: usize) -> Told
    ensures { Replied buf.old at (portions_reply p.now) buf.new result }
{
    if p.len() < 6 {
        return cut(at);
    }
    if p.len() < 6 + 4 * little_endian::u16_from_le_bytes(p, 4) as usize {
        return cut(at);
    }
    served(ask_portions::calls(p, buf, at))
}

// Kind 13: a summary.
fn summary_asked(p: &[u8], buf: &mut [u8], at: usize) -> Told
    ensures { Replied buf.old at (summary_reply p.now) buf.new result }
{
    if 4 <= p.len() {
        return served(summed(p, buf, at));
    }
    cut(at)
}

// The answer to a request of a kind.
pub fn answer(kind: u8, p: &[u8], buf: &mut [u8], at: usize) -> Told
    ensures added { Added buf.old at (reply_text (answer_to kind p.now))
        buf.new result.at }
    ensures served_value { result.served ≡ is_told (answer_to kind p.now) }
{
    match kind {
        1 => served(dump::dump(p, buf, at)),
        2 => listed(p, buf, at),
        3 => shown_asked(p, buf, at),
        4 => stretch_asked(p, buf, at),
        5 => write_asked(Layout::Plain, p, buf, at),
        6 => write_asked(Layout::Careful, p, buf, at),
        7 => word_asked(p, buf, at),
        8 => parse_asked(p, buf, at),
        9 => words_asked(p, buf, at),
        10 => marks_asked(p, buf, at),
        11 => view_asked(p, buf, at),
        12 => portions_asked(p, buf, at),
        13 => summary_asked(p, buf, at),
        14 => numbers_asked(p, buf, at),
        _ => cut(at),
    }
}
