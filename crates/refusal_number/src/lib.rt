// RULES' number and two values of a refusal, for programs that write them out and for callers in other languages.
#![tactic(auto)]

ghost use Rattle.std.specs.Prelude.{◌≡◌};
ghost use Rattle.def_refusals.specs.Numbers.{numbered};

use def_refusals::{Numbered, Refusal};

// A number and two values.
fn row(number: u8, first: usize, second: usize) -> Numbered
    ensures { result ≡ Rattle.def_refusals.specs.Numbers.row number first second }
{
    Numbered {
        number,
        first,
        second,
    }
}

// The row of RULES' table that a refusal is (RULES, "Refusal numbers").
#[tactic(auto, unfolding(def_refusals::specs::Numbers::numbered))]
pub fn number(x: Refusal) -> Numbered
    ensures { result ≡ numbered x }
{
    match x {
        Refusal::TooShort(least, actual) => row(1, least, actual),
        Refusal::WrongVersion => row(2, 0, 0),
        Refusal::WrongPacketType => row(3, 0, 0),
        Refusal::WrongLength(announced, actual) => row(4, announced, actual),
        Refusal::BadPadding(n) => row(5, n, 0),
        Refusal::BlockTooLong(length, left) => row(6, length, left),
        Refusal::NoBlock(count) => row(9, count, 0),
        Refusal::OtherType(kind) => row(10, kind, 0),
        Refusal::BadBlockLength(expected, actual) => row(7, expected, actual),
        Refusal::NoFields(left) => row(8, 12, left),
        Refusal::NoPlace => row(16, 0, 0),
        Refusal::NoRoom(needed, lent) => row(11, needed, lent),
        Refusal::ValueTooLarge(value) => row(13, value, 0),
        Refusal::BadRecord(index) => row(12, index, 0),
        Refusal::TooMany(found, limit) => row(14, found, limit),
        Refusal::Misleads(index) => row(15, index, 0),
        Refusal::BadMark(index) => row(17, index, 0),
        Refusal::Padded => row(18, 0, 0),
        Refusal::PastEnd(announced, given) => row(19, announced, given),
    }
}
