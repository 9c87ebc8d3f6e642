// The types of the standard number cursor. Definitions only: see specs/.
#![tactic(auto)]

// A place in a block's words: which word, which place of it, and the position that it stands for.
#[derive(Clone, Copy)]
pub struct Cursor {
    pub word: usize,
    pub place: usize,
    pub position: usize,
}

// What a call with a budget of steps gives: the next cursor, the steps that were taken, and how many numbers were
// listed.
#[derive(Clone, Copy)]
pub struct Stretch {
    pub next: Cursor,
    pub taken: usize,
    pub listed: usize,
}
