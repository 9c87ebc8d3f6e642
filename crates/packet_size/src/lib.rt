// How many bytes the packet of a job list has, in one pass over its records (RULES, "Job lists and writing").
#![tactic(auto)]

ghost use Rattle.std.specs.Prelude.{◌≡◌, ◌≤◌, length, drop};
ghost use Rattle.def_jobs.specs.Jobs.{jobs_of};
ghost use Rattle.def_jobs.specs.Writing.{size_fault};
ghost use Rattle.jobs.specs.Places.{jobs_behind};
ghost use Rattle.packet_size.specs.Sizes.{is_header_at, judged_first, on_sized, size_answer, rest_answer};

use def_jobs::Layout;
use def_refusals::Refusal;

// Whether a whole and good header record stands first.
fn is_header_first(list: &[u8]) -> bool
    ensures { result ≡ is_header_at list.now }
{
    if jobs::is_whole(list, 0) {
        jobs::is_header(jobs::kind_at(list, 0), jobs::body_at(list, 0))
    } else {
        false
    }
}

// How many bytes the block of a whole and good record that stands first has; 0 where none does.
fn judged_first(layout: Layout, list: &[u8]) -> usize
    ensures { result ≡ judged_first layout list.now }
{
    if jobs::is_whole(list, 0) {
        block_size::judged_size(layout, jobs::kind_at(list, 0), jobs::body_at(list, 0))
    } else {
        0
    }
}

// 14 of so many blocks and bytes, or the bytes.
fn fitting(blocks: usize, bytes: usize) -> Result<usize, Refusal>
    ensures { result ≡ on_sized (size_fault blocks bytes) bytes }
{
    if 31 < blocks {
        return Err(Refusal::TooMany(blocks, 31));
    }
    if 262144 < bytes {
        return Err(Refusal::TooMany(bytes, 262144));
    }
    Ok(bytes)
}

// How many bytes the packet has, or 12, then 14, of the records from a place on, with what stands before their blocks.
// Where the pass stops before the end, a bad or a cut record stands.
fn size_behind(layout: Layout, list: &[u8], from: usize, start: usize) -> Result<usize, Refusal>
    requires { (from ≤ length list.now) × (start ≤ 260) }
    ensures { result ≡ rest_answer layout start (jobs_behind (drop from list.now)) }
{
    let mut at = from;
    let mut blocks: usize = 0;
    let mut bytes = start;
    while 6 <= list.len() - at {
        let rest = &list[at..];
        let size = judged_first(layout, rest);
        if size == 0 {
            break;
        }
        bytes += size;
        blocks += 1;
        at += jobs::next_at(rest, 0);
    }
    if at < list.len() {
        return Err(Refusal::BadRecord(blocks + 1));
    }
    fitting(blocks, bytes)
}

// How many bytes the packet of a job list has, or 12, then 14, in one pass over its records.
pub fn packet_size(layout: Layout, list: &[u8]) -> Result<usize, Refusal>
    ensures { result ≡ size_answer layout (jobs_of list.now) }
{
    if is_header_first(list) {
        let start = 8 + usize::from(little_endian::u16_from_le_bytes(jobs::body_at(list, 0), 4));
        return size_behind(layout, list, jobs::next_at(list, 0), start);
    }
    Err(Refusal::BadRecord(0))
}
