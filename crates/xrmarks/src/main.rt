// A report on marks, to be tried by hand: reads marks from standard input as the characters 0 and 1, and prints their
// chunk words and the careful packet of one loss block with them (RULES, "Chunk words from marks"). Its arguments are
// begin, the media SSRC and the sender's SSRC, in decimal, each 0 where it is not given. A refusal is one line
// `refused N A B` on standard error; wrong arguments, and an input that cannot be read, give one line there too.
// Nothing then goes to standard output.
#![tactic(auto)]

mod arguments;
mod input;

use arguments::Report;
use def_refusals::Refusal;
use std::io::Stdin;

// The file descriptor of standard error.
const STDERR_FILENO: i32 = 2;

// The most marks, the words that they can need, the job list of these words, and its packet.
const MARKS: usize = 65536;

const WORDS: usize = 4370;

const LIST: usize = 8768;

const PACKET: usize = 8764;

fn refused(x: Refusal) {
    let mut line = [0u8; 80];
    let n = lines::refusal_line(&mut line, 0, x);
    print::send(STDERR_FILENO, &line, n);
}

// Both lines.
fn show(words: &[u16], packet: &[u8], size: usize) {
    let mut buf = [0u8; 4096];
    let n = lines::words_line(&mut buf, 0, words, words.len());
    let m = lines::packet_line(&mut buf, n, packet, size);
    print::flush(&buf, m);
}

// The packet of a job list, and both lines.
fn write(words: &[u16], list: &[u8]) {
    let mut packet = [0u8; PACKET];
    match write::write_careful(list, &mut packet) {
        Ok(n) => show(words, &packet, n),
        Err(x) => refused(x),
    }
}

// The job list of the words; end is the number behind the last mark's.
fn ask(r: Report, end: u16, words: &[u16]) {
    let mut list = [0u8; LIST];
    match loss_list::loss_list(r.sender, r.media, r.begin, end, words, &mut list) {
        Ok(n) => write(words, utils::part(&list, 0, n)),
        Err(x) => refused(x),
    }
}

// The words of the marks, their job list, its packet.
fn report(r: Report, marks: &[u8]) {
    let end = ((r.begin as usize + marks.len()) % 65536) as u16;
    let mut words = [0u16; WORDS];
    match marks::words(marks, &mut words) {
        Ok(n) => ask(r, end, &words[..n.min(WORDS)]),
        Err(x) => refused(x),
    }
}

// Of more marks than are taken, those behind the last place were only counted: 14, whatever they are.
fn run(stdin: Stdin, r: Report) {
    let mut marks = [0u8; MARKS];
    match input::read_marks(stdin, &mut marks) {
        Err(_) => {
            io::write_all(STDERR_FILENO, b"xrmarks: standard input cannot be read\n");
        }
        Ok(count) if MARKS < count => refused(Refusal::TooMany(count, MARKS)),
        Ok(count) => report(r, &marks[..count]),
    }
}

fn main(rt: HostRuntime) {
    match arguments::arguments(&rt) {
        Some(r) => run(rt.stdin(), r),
        None => {
            io::write_all(
                STDERR_FILENO,
                b"xrmarks: at most three decimal numbers are wanted, of 16, 32 and 32 bits\n",
            );
        }
    }
}
