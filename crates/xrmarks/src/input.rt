// Marks from standard input: the characters 0 and 1. White space is passed over, and any other byte is a mark that is
// neither 0 nor 1.
ghost use Rattle.std.specs.Prelude.{◌+◌, ◌≤◌, ◌<◌, length};

use std::io::{self, ErrorKind, Read, Stdin};

// How many bytes are read at once, and how often at most. A proved loop has to end: no run comes to so many turns, and
// the count of marks stays under 2^63.
const PIECE: usize = 65536;

const TURNS: usize = 140737488355327;

// Space, tab, newline, vertical tab, form feed, carriage return.
fn white(b: u8) -> bool {
    matches!(b, b' ' | b'\t'..=b'\r')
}

// The mark that a character stands for; 2 is neither.
fn mark(b: u8) -> u8 {
    match b {
        b'0' => 0,
        b'1' => 1,
        _ => 2,
    }
}

// One byte of the input: a mark behind the last place is counted, and not kept.
fn take(marks: &mut [u8], count: usize, b: u8) -> usize
    requires { count < 9223372036854775808 }
    ensures { result ≤ count + 1 }
{
    if white(b) {
        return count;
    }
    if count < marks.len() {
        marks[count] = mark(b);
    }
    count + 1
}

// The bytes of a piece.
fn take_all(marks: &mut [u8], count: usize, piece: &[u8]) -> usize
    requires { count + length piece.now < 9223372036854775808 }
    ensures { result ≤ count + length piece.now }
{
    let mut n = count;
    for b in piece {
        n = take(marks, n, *b);
    }
    n
}

// How many marks the input has, up to its end: all are counted, and those that there is room for are kept.
pub fn read_marks(stdin: Stdin, marks: &mut [u8]) -> io::Result<usize> {
    let mut from = stdin;
    let mut piece = [0u8; PIECE];
    let mut count: usize = 0;
    for _turn in 0..TURNS {
        let got = from.read(&mut piece)?;
        if got == 0 {
            return Ok(count);
        }
        count = take_all(marks, count, &piece[..got]);
    }
    Err(io::Error::from(ErrorKind::FileTooLarge))
}
