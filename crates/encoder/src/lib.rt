// The encoder of a body.
#![tactic(auto)]

mod body;
mod siblings;
mod sinks;
mod writing;

pub use body::{Written, encode};

// The array that is sent, and its summaries.
#[derive(Clone, Copy)]
struct Source<'a> {
    coefs: &'a [i32],
    desc: &'a [u32],
    grand: &'a [u32],
}

// What a visit of the encoder leaves to do: nothing, for want of a bit, or to go on. In both the number of bits put, then the place: where it stopped, or where to go on.
#[derive(Clone, Copy)]
pub enum Step {
    Stop(usize, usize),
    Go(usize, usize),
}

// Bits on their way out: n of them are held in a number below 2^n, and `at` whole bytes are written.
#[derive(Clone, Copy)]
pub struct Sink {
    pub acc: u64,
    pub n: usize,
    pub at: usize,
}

// Where a step over four places leads: whether it goes on there, with what is held.
#[derive(Clone, Copy)]
pub struct Went {
    pub on: bool,
    pub sink: Sink,
    pub place: usize,
}

// Where the scan goes on: the bits put, the passes not finished, and the place.
#[derive(Clone, Copy)]
pub struct Reached {
    pub n: usize,
    pub turn: u32,
    pub place: usize,
}
