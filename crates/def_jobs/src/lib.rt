// The types of job lists and writing. Definitions only: see specs/.
#![tactic(auto)]

// How a job list is laid out as a packet.
#[derive(Clone, Copy)]
pub enum Layout {
    // as the Rust's builders do
    Plain,
    // so that the old reading is not misled
    Careful,
}
