// The block that a record asks for: whether the record is good, and how many bytes its block has (RULES, "Job lists and
// writing").
#![tactic(auto)]

ghost use Rattle.std.specs.Prelude.{◌≡◌, ◌≤◌, length, drop};
ghost use Rattle.def_jobs.specs.Jobs.{low16, has_fields, is_flags, has_sums, is_block_job};
ghost use Rattle.def_jobs.specs.Layout.{zeros_behind, block_bytes};
ghost use Rattle.jobs.specs.Places.{job_of};
ghost use Rattle.block_size.specs.Judged.{judged_size, has_words};

use def_jobs::Layout;
use def_wire::{Kind, Ranged};

// Fields, a thinning of at most 15, and behind them whole items of so many bytes; the kind makes no difference.
fn has_fields(body: &[u8], bytes: usize) -> bool
    requires { 1 ≤ bytes }
    ensures { result ≡ has_fields (job_of 1 body.now) bytes }
{
    if body.len() < 10 {
        return false;
    }
    if 15 < little_endian::u16_from_le_bytes(body, 8) {
        return false;
    }
    (body.len() - 10) % bytes == 0
}

// Fields and words of which none is a run of ones of no length (RULES, "Job lists and writing").
fn has_words(body: &[u8]) -> bool
    ensures { result ≡ has_words (job_of 1 body.now) }
{
    if has_fields(body, 2) {
        return !word_scan::has_lost_run_low(utils::part(body, 10, body.len()));
    }
    false
}

// A specific byte that a summary may be written with: no reserved bit is set, and ToH is not 3.
fn is_flags(flags: u8) -> bool
    ensures { result ≡ is_flags flags }
{
    if flags % 8 != 0 {
        return false;
    }
    flags / 8 % 4 != 3
}

// A summary's flags, a byte that is 0, and all its numbers.
fn has_sums(body: &[u8]) -> bool
    ensures { result ≡ has_sums (job_of 6 body.now) }
{
    if body.len() != 38 {
        return false;
    }
    if body[1] != 0 {
        return false;
    }
    is_flags(body[0])
}

// How many zero words the layout puts behind the words of a body of kind 1 or 2.
pub fn zeros_behind(layout: Layout, body: &[u8]) -> usize
    ensures { result ≡ zeros_behind layout (low16 (drop 10 body.now)) }
{
    let words = body.len().saturating_sub(10) / 2;
    if words % 2 == 1 {
        return 1;
    }
    match layout {
        Layout::Plain => 0,
        Layout::Careful => {
            if words == 0 {
                return 0;
            }
            if little_endian::u16_from_le_bytes(body, words * 2 + 8) == 0 {
                return 0;
            }
            2
        }
    }
}

// How many bytes a record's block has in a layout; none where it asks for no block.
pub fn block_size(layout: Layout, kind: u16, body: &[u8]) -> usize
    ensures { result ≡ length (block_bytes layout (job_of kind body.now)) }
{
    match jobs::kind_of(kind) {
        Some(k) => match k {
            Kind::Spans(g) => match g {
                Ranged::Chunks(_) => {
                    12 + body.len().saturating_sub(10) / 2 * 2 + zeros_behind(layout, body) * 2
                }
                Ranged::Times => 12 + body.len().saturating_sub(10) / 4 * 4,
            },
            Kind::Clock => 12,
            Kind::Echoes => 4 + body.len() / 4 * 4,
            Kind::Statistics => 40,
        },
        None => 0,
    }
}

// The same of a good record, judged by the way; 0 of a bad one, as no block is empty.
pub fn judged_size(layout: Layout, kind: u16, body: &[u8]) -> usize
    ensures { result ≡ judged_size layout (job_of kind body.now) }
{
    match jobs::kind_of(kind) {
        Some(k) => match k {
            Kind::Spans(g) => match g {
                Ranged::Chunks(_) => {
                    if has_words(body) {
                        body.len() + 2 + zeros_behind(layout, body) * 2
                    } else {
                        0
                    }
                }
                Ranged::Times => {
                    if has_fields(body, 4) {
                        body.len() + 2
                    } else {
                        0
                    }
                }
            },
            Kind::Clock => { if body.len() == 8 { 12 } else { 0 } }
            Kind::Echoes => {
                if body.len() % 12 == 0 {
                    body.len() + 4
                } else {
                    0
                }
            }
            Kind::Statistics => { if has_sums(body) { 40 } else { 0 } }
        },
        None => 0,
    }
}

// Whether a record asks for a block, and its body is as its kind has it.
pub fn is_block(kind: u16, body: &[u8]) -> bool
    ensures { result ≡ is_block_job (job_of kind body.now) }
{
    0 < judged_size(Layout::Plain, kind, body)
}
