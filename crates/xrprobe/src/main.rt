// Opens the public functions to a test from outside. Standard input is a run of requests, each one byte of kind, four
// bytes of length (little-endian, at most 300,000) and the payload; each answer is text lines and then a line with a
// single `.`. README.md, "xrprobe", lists the kinds; what each is answered is def_probe's `answer_to`, which `probe` is
// proved to add to the buffer.
#![tactic(auto)]

ghost use Rattle.std.specs.Prelude.{◌≤◌, IfOk, length};

// The file descriptor of standard input.
const STDIN_FILENO: i32 = 0;

// The longest payload.
const LONGEST: usize = 300000;

// Why the run ends.
#[derive(Drop)]
enum End {
    // the input has no more requests
    Input,
    // a request is cut off, or longer than is taken
    Cut,
}

// The next request's kind and the length of its payload, which then stands at the front of `payload`.
fn request(payload: &mut [u8]) -> Result<(u8, usize), End>
    ensures { IfOk result (λ r. r.1 ≤ length payload.new) }
{
    let mut head = [0u8; 5];
    let got = io::read_full(STDIN_FILENO, &mut head);
    if got == 0 {
        return Err(End::Input);
    }
    if got < 5 {
        return Err(End::Cut);
    }
    let long = little_endian::u32_from_le_bytes(&head, 1) as usize;
    if payload.len() < long {
        return Err(End::Cut);
    }
    if io::read_full(STDIN_FILENO, &mut payload[..long]) < long {
        return Err(End::Cut);
    }
    Ok((head[0], long))
}

// As many requests as come; how many bytes of the last answers still wait in the buffer.
fn run(payload: &mut [u8], buf: &mut [u8]) -> usize {
    let mut at: usize = 0;
    for _turn in 0..u64::MAX {
        match request(payload) {
            Ok((kind, long)) => {
                let told = probe::answer(kind, &payload[..long], buf, at);
                if !told.served {
                    return print::text(buf, told.at, b"cut\n");
                }
                at = print::text(buf, told.at, b".\n");
            }
            Err(End::Input) => return at,
            Err(End::Cut) => return print::text(buf, at, b"cut\n"),
        }
    }
    at
}

fn main() {
    let mut payload = [0u8; LONGEST];
    let mut buf = [0u8; 65536];
    let at = run(&mut payload, &mut buf);
    print::flush(&buf, at);
}
