// Writes the packet of the job list on standard input to standard output, in the layout that its one argument names,
// plain or careful (RULES, "Job lists and writing"). A refusal is one line `refused N A B` on standard error; other
// arguments give one line there too, and nothing is read. Nothing then goes to standard output.
#![tactic(auto)]

use def_jobs::Layout;
use def_refusals::Refusal;
use std::env::{Env, FillError};

// The file descriptor of standard input.
const STDIN_FILENO: i32 = 0;

// The file descriptor of standard error.
const STDERR_FILENO: i32 = 2;

// The longest list, and one byte more, so that a longer one is seen to be longer.
const LONGEST: usize = 300000;

const INPUT: usize = 300001;

// The longest packet.
const MOST: usize = 262144;

// The layout that a word names.
fn named(word: &[u8]) -> Option<Layout> {
    if word == b"plain".as_slice() {
        return Some(Layout::Plain);
    }
    if word == b"careful".as_slice() {
        return Some(Layout::Careful);
    }
    None
}

// Whether there is an argument at a place; its bytes are not looked at.
fn is_given(rt: &impl Env, at: usize) -> bool {
    let mut none = [0u8; 0];
    !matches!(rt.arg(at, &mut none), Err(FillError::NotPresent))
}

// The one argument. One that is longer than eight bytes names no layout.
fn argument(rt: &impl Env) -> Option<Layout> {
    if is_given(rt, 2) {
        return None;
    }
    let mut word = [0u8; 8];
    let n = rt.arg(1, &mut word).ok()?;
    named(&word[..n])
}

fn refused(x: Refusal) {
    let mut line = [0u8; 80];
    let n = lines::refusal_line(&mut line, 0, x);
    print::send(STDERR_FILENO, &line, n);
}

fn packet(layout: Layout, list: &[u8], out: &mut [u8]) -> Result<usize, Refusal> {
    match layout {
        Layout::Plain => write::write_plain(list, out),
        Layout::Careful => write::write_careful(list, out),
    }
}

fn write(layout: Layout, list: &[u8], out: &mut [u8]) {
    match packet(layout, list, out) {
        Ok(n) => {
            print::flush(out, n);
        }
        Err(x) => refused(x),
    }
}

fn run(layout: Layout) {
    let mut list = [0u8; INPUT];
    let mut out = [0u8; MOST];
    let n = io::read_full(STDIN_FILENO, &mut list);
    if LONGEST < n {
        refused(Refusal::NoRoom(INPUT, LONGEST));
    } else {
        write(layout, &list[..n], &mut out);
    }
}

fn main(rt: HostRuntime) {
    match argument(&rt) {
        Some(layout) => run(layout),
        None => {
            io::write_all(
                STDERR_FILENO,
                b"xrwrite: one argument is wanted, plain or careful\n",
            );
        }
    }
}
