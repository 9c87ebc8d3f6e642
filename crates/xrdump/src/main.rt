// Prints both readings of the packet on standard input (RULES, "Views, cursors and the dump").
#![tactic(auto)]

// The file descriptor of standard input.
const STDIN_FILENO: i32 = 0;

// One byte more than the longest packet that is dumped, so that a longer one is seen to be longer.
const INPUT: usize = 65537;

fn main() {
    let mut packet = [0u8; INPUT];
    let mut buf = [0u8; 65536];
    let n = io::read_full(STDIN_FILENO, &mut packet);
    let at = dump::dump(&packet[..n], &mut buf, 0);
    print::flush(&buf, at);
}
