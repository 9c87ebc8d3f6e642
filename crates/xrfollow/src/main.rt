// Follows a stream of packets on standard input, as from a serial line or a pipe, and prints each event's line as
// soon as its bytes are there (RULES, "Packets in portions"). Behind a packet's end the next one begins. A refusal
// prints `refused N A B` and ends the run, since the place of the next packet is lost; an input that ends inside a
// packet prints `cut`. Both then say so on standard error, by which ./xrfollow knows that the run ended badly.
#![tactic(auto)]

use states::Portions;
use std::io::{Read, Stdin};

// The file descriptors of standard output and standard error.
const STDOUT_FILENO: i32 = 1;

const STDERR_FILENO: i32 = 2;

// How many bytes are read at once, and how often at most: a proved loop has to end, and no run comes to so many turns.
const PIECE: usize = 4096;

const TURNS: u64 = 18446744073709551615;

// The most events of one byte, with room to spare.
const EVENTS: usize = 16384;

// Where the stream stands.
#[derive(Drop)]
enum Course {
    // no byte of the next packet has come
    Between,
    // some of its bytes have
    Inside(Portions),
    // a packet was refused, and the place of the next one is lost
    Lost,
}

// The four lists of a byte's events, and the text, of which `at` bytes wait.
#[derive(Drop)]
struct Room {
    tags: [u64; EVENTS],
    numbers: [u16; EVENTS],
    values: [u64; EVENTS],
    sums: [u64; 49152],
    buf: [u8; 65536],
    at: usize,
}

// One byte of the packet at hand, and its events' lines.
fn one(st: Portions, x: u8, room: &mut Room) -> Course {
    let r = portions::follow(
        st,
        &[x],
        &mut room.tags,
        &mut room.numbers,
        &mut room.values,
        &mut room.sums,
    );
    room.at = event_lines::event_lines(
        &mut room.buf,
        room.at,
        &room.tags,
        &room.numbers,
        &room.values,
        &room.sums,
        r.events,
    );
    match r.refusal {
        Err(y) => {
            room.at = lines::refusal_line(&mut room.buf, room.at, y);
            Course::Lost
        }
        Ok(()) if r.state.item == states::OVER => Course::Between,
        Ok(()) => Course::Inside(r.state),
    }
}

// The bytes that one read gave, one after the other, as far as the stream can be followed. (`one` is called in one place,
// and so compiled there: called in two it took twice the time for each byte.)
fn piece(c: Course, bytes: &[u8], room: &mut Room) -> Course {
    let mut now = c;
    for x in bytes {
        let st = match now {
            Course::Between => steps::start(),
            Course::Inside(st) => st,
            Course::Lost => return Course::Lost,
        };
        now = one(st, *x, room);
    }
    now
}

// The end of the input.
fn ended(c: Course) {
    if matches!(c, Course::Inside(_)) {
        io::write_all(STDOUT_FILENO, b"cut\n");
        io::write_all(STDERR_FILENO, b"xrfollow: the input ends inside a packet\n");
    }
}

// As many reads as the input has, each with its lines.
fn run(stdin: Stdin, room: &mut Room) {
    let mut from = stdin;
    let mut input = [0u8; PIECE];
    let mut c = Course::Between;
    for _turn in 0..TURNS {
        match from.read(&mut input) {
            Err(_) => {
                io::write_all(STDERR_FILENO, b"xrfollow: standard input cannot be read\n");
                return;
            }
            Ok(0) => {
                ended(c);
                return;
            }
            Ok(n) => c = piece(c, &input[..n], room),
        }
        room.at = print::flush(&room.buf, room.at);
        if matches!(c, Course::Lost) {
            io::write_all(
                STDERR_FILENO,
                b"xrfollow: the packet is refused, and where the next one begins is not known\n",
            );
            return;
        }
    }
}

fn main(rt: HostRuntime) {
    let mut room = Room {
        tags: [0; EVENTS],
        numbers: [0; EVENTS],
        values: [0; EVENTS],
        sums: [0; 49152],
        buf: [0; 65536],
        at: 0,
    };
    run(rt.stdin(), &mut room);
}
