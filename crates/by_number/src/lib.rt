// The questions of a packet and a block's index with the asked type given by a number, as callers in other languages
// and test programs ask. A number that a question does not serve is 10 with the block's own type, in 10's place
// (RULES, "Refusal numbers").
#![tactic(auto)]

ghost use Rattle.std.specs.Prelude.{◌≡◌, length};
ghost use Rattle.def_refusals.specs.Answers.{Listed};
ghost use Rattle.def_wire.specs.Packet.{view_of};
ghost use Rattle.def_wire.specs.Block.{rle_of, ranged_of, fields_of};
ghost use Rattle.def_questions.specs.Questions.{words_shown};
ghost use Rattle.def_questions.specs.ByNumber.{numbers_by, numbers_view_by, words_by, fields_by};
ghost use Rattle.def_questions.specs.ByNumber.{on_rle, on_ranged, not_served};
ghost use Rattle.def_cursor.specs.Cursor.{StretchedBy, advance_by, filled_by};
ghost use Rattle.by_number.specs.Other.{other_of};

use def_cursor::{Cursor, Stretch};
use def_refusals::Refusal;
use def_wire::{Fields, Reading};

// Why a question that a block's type does not serve is refused: 1 to 6, 9, 10.
fn other(r: Reading, s: &[u8], k: usize) -> Refusal
    ensures { result ≡ other_of (view_of r s.now k) }
{
    match xr::locate(r, s, k) {
        Ok((at, n)) => {
            let h = xr::header_data(utils::part(s, at, n));
            Refusal::OtherType(xr::block_type(h) as usize)
        }
        Err(x) => x,
    }
}

// Block k's fields, asked by a number: 1 to 6, 9, 10, 7, 8.
pub fn fields(r: Reading, s: &[u8], k: usize, t: u8) -> Result<Fields, Refusal>
    ensures { result ≡ fields_by r s.now k t }
{
    match records::ranged_of(t) {
        Some(g) => block::fields_in(r, s, k, g),
        None => Err(other(r, s, k)),
    }
}

// Block k's numbers, asked by a number: 1 to 6, 9, 10, 7, 11.
pub fn numbers(r: Reading, s: &[u8], k: usize, t: u8, out: &mut [u16]) -> Result<usize, Refusal>
    ensures { Listed (numbers_by r s.now k t) out.old result out.new }
{
    match records::rle_of(t) {
        Some(a) => numbers::numbers_in(r, s, k, a, out),
        None => Err(other(r, s, k)),
    }
}

// The numbers of a block's view, asked by a number: 10, 7, 11.
pub fn numbers_view(r: Reading, t: u8, v: &[u8], out: &mut [u16]) -> Result<usize, Refusal>
    ensures { Listed (numbers_view_by r t v.now) out.old result out.new }
{
    match records::rle_of(t) {
        Some(a) => numbers::numbers(r, a, v, out),
        None => {
            let h = xr::header_data(v);
            Err(Refusal::OtherType(xr::block_type(h) as usize))
        }
    }
}

// Block k's chunk words, asked by a number: 1 to 6, 9, 10, 7, 11.
pub fn words(r: Reading, s: &[u8], k: usize, t: u8, out: &mut [u16]) -> Result<usize, Refusal>
    ensures { Listed (words_by r s.now k t) out.old result out.new }
{
    match records::rle_of(t) {
        Some(a) => numbers::words_in(r, s, k, a, out),
        None => Err(other(r, s, k)),
    }
}

// At most budget steps of the number cursor in block k, asked by a number: 1 to 6, 9, 10, 7, 16, 11.
pub fn advance(
    s: &[u8],
    k: usize,
    t: u8,
    c: Cursor,
    budget: usize,
    out: &mut [u16],
) -> Result<Stretch, Refusal>
    ensures { StretchedBy s.now k t c budget out.old result out.new }
{
    match records::rle_of(t) {
        Some(a) => cursor::advance_in(s, k, a, c, budget, out),
        None => Err(other(Reading::Standard, s, k)),
    }
}

// Why a question that a view's type does not serve is refused: 10.
fn unserved(v: &[u8]) -> Refusal
    ensures { result ≡ not_served v.now }
{
    let t = xr::block_type(xr::header_data(v));
    Refusal::OtherType(t as usize)
}

// The fields of a block's view, asked by a number: 10, 7, 8.
pub fn fields_view(r: Reading, t: u8, v: &[u8]) -> Result<Fields, Refusal>
    ensures { result ≡ on_ranged (ranged_of t) (λ g. fields_of r g v.now)
        (Err (not_served v.now)) }
{
    match records::ranged_of(t) {
        Some(g) => block::fields(r, g, v),
        None => Err(unserved(v)),
    }
}

// The chunk words of a block's view, asked by a number: 10, 7, 11.
pub fn words_view(r: Reading, t: u8, v: &[u8], out: &mut [u16]) -> Result<usize, Refusal>
    ensures { Listed (on_rle (rle_of t) (λ a. words_shown r a v.now)
        (Err (not_served v.now))) out.old result out.new }
{
    match records::rle_of(t) {
        Some(a) => numbers::words(r, a, v, out),
        None => Err(unserved(v)),
    }
}

// At most budget steps of the number cursor in a block's view, asked by a number: 10, 7, 16, 11.
pub fn advance_view(
    t: u8,
    v: &[u8],
    c: Cursor,
    budget: usize,
    out: &mut [u16],
) -> Result<Stretch, Refusal>
    ensures { (result ≡ advance_by t v.now c budget (length out.old))
        × (out.new ≡ filled_by t v.now c budget out.old) }
{
    match records::rle_of(t) {
        Some(a) => cursor::advance(a, v, c, budget, out),
        None => Err(unserved(v)),
    }
}
