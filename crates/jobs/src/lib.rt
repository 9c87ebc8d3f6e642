// Job lists, read where the caller has them: a record at a place, whether it is a good header record, and the kind of
// block that it asks for (RULES, "Job lists and writing"). Nothing is copied, and a byte past the end is 0.
#![tactic(auto)]

ghost use Rattle.std.specs.Prelude.{◌≡◌, true, ◌+◌, ◌≤◌, drop};
ghost use Rattle.def_wire.specs.Packet.{start_from};
ghost use Rattle.def_wire.specs.Block.{kind_of};
ghost use Rattle.def_jobs.specs.Jobs.{is_whole, job_at, is_header_job};
ghost use Rattle.jobs.specs.Places.{job_of, next_job};

use def_wire::Kind;

fn wide32(x: u32) -> usize
    ensures { (result ≡ x) × (result ≤ 4294967295) }
{
    x as usize
}

// Whether a whole record stands at a place: six bytes and the body.
pub fn is_whole(list: &[u8], at: usize) -> bool
    ensures { result ≡ is_whole (drop at list.now) }
{
    let left = list.len().saturating_sub(at);
    if left < 6 {
        return false;
    }
    6 + wide32(little_endian::u32_from_le_bytes(list, at)) <= left
}

// The kind of the record at a place.
pub fn kind_at(list: &[u8], at: usize) -> u16
    ensures { result ≡ (job_at (drop at list.now)).kind }
{
    little_endian::u16_from_le_bytes(list, at.min(list.len()) + 4)
}

// The body of the record at a place, that part of the caller's list itself.
pub fn body_at(list: &[u8], at: usize) -> &[u8]
    ensures result_value { result.now ≡ (job_at (drop at list.now)).body }
    ensures ref_ptr_value { result.ref_ptr ≡ start_from list.entry.ref_ptr list.now (at + 6) }
{
    let from = at.min(list.len()) + 6;
    utils::part(
        list,
        from,
        wide32(little_endian::u32_from_le_bytes(list, at)),
    )
}

// The kind and the body of a record that is known to be whole: the list is not tested again.
pub fn whole_kind(list: &[u8], at: usize) -> u16
    requires { is_whole (drop at list.now) ≡ true }
    ensures { result ≡ (job_at (drop at list.now)).kind }
{
    little_endian::load16(list, at + 4)
}

pub fn whole_body(list: &[u8], at: usize) -> &[u8]
    requires { is_whole (drop at list.now) ≡ true }
    ensures { result.now ≡ (job_at (drop at list.now)).body }
{
    let from = at + 6;
    let to = from + wide32(little_endian::load32(list, at));
    &list[from..to]
}

// Where the next record begins; the list's end where less than a whole record stands at the place.
pub fn next_at(list: &[u8], at: usize) -> usize
    ensures { result ≡ next_job list.now at }
{
    let from = at.min(list.len());
    let n = 6 + wide32(little_endian::u32_from_le_bytes(list, at));
    from + n.min(list.len() - from)
}

// Whether a record is a header: kind 0, six bytes, a padding of 0 or a multiple of 4 up to 252.
pub fn is_header(kind: u16, body: &[u8]) -> bool
    ensures { result ≡ is_header_job (job_of kind body.now) }
{
    if kind != 0 {
        return false;
    }
    if body.len() != 6 {
        return false;
    }
    let padding = little_endian::u16_from_le_bytes(body, 4);
    if padding % 4 != 0 {
        return false;
    }
    padding <= 252
}

// The kind of block that a record's kind asks for, where it asks for one: the block's type (RFC 3611, 4).
pub fn kind_of(kind: u16) -> Option<Kind>
    ensures { result ≡ kind_of kind }
{
    if kind < 256 {
        records::kind_of(kind as u8)
    } else {
        None
    }
}
