// The stepped decoder: one bit forward or one back, in place, and a dial that turns by such steps.
#![tactic(auto)]

mod by_value;
mod moving;
mod records;
mod tables;

ghost use Rattle.decoder.specs.Body.{tables};
ghost use Rattle.steps.specs.Steps.{Starts, Forwards, Backs, Turns};

pub use by_value::{take_back, take_forward, take_start, take_turn};
use decoder::ReadTo;
use refusals::Refusal;

// The scan record: the sizes, the plane in progress, the pass (0, 1 or 2), the place, the bits used, and whether a sign is pending (1) or
// not (0). At the end, and for P = 0, it is plane 0, pass 2, place I.
// Kept: eight numbers, since the C interface lends them, whatever they are.
#[derive(Clone, Copy)]
pub struct Record {
    pub n: u32,
    pub l: u32,
    pub p: u32,
    pub plane: u32,
    pub pass: u32,
    pub place: u32,
    pub used: u32,
    pub pending: u32,
}

// What a step answers, and the record after it.
#[derive(Clone, Copy)]
pub struct Stepped {
    pub dial: Record,
    pub answer: Result<ReadTo, Refusal>,
}

// What is asked where the scan stands: nothing, a sign, the bit of a coefficient that is not found, a refinement bit, a DESC or a GRAND.
#[derive(Clone, Copy)]
pub enum Asked {
    Nothing,
    Sign,
    Bit,
    More,
    Desc,
    Grand,
}

// The record and the tables before the first bit of a body. The record is lent.
pub fn start(
    dial: &mut Record,
    n: u32,
    l: u32,
    p: u32,
    values: &mut [i32],
    precisions: &mut [u8],
    marks: &mut [u8],
) -> Result<ReadTo, Refusal>
    ensures { Starts n l p dial.old (tables values.old precisions.old marks.old) result dial.new (tables values.new precisions.new marks.new) }
{
    let t = by_value::take_start(*dial, n, l, p, values, precisions, marks);
    *dial = t.dial;
    t.answer
}

// One bit forward. The record is lent.
pub fn forward(
    dial: &mut Record,
    body: &[u8],
    declared: u32,
    values: &mut [i32],
    precisions: &mut [u8],
    marks: &mut [u8],
) -> Result<ReadTo, Refusal>
    ensures { Forwards declared body.now dial.old (tables values.old precisions.old marks.old) result dial.new (tables values.new precisions.new marks.new) }
{
    let t = by_value::take_forward(*dial, body, declared, values, precisions, marks);
    *dial = t.dial;
    t.answer
}

// One bit back. The record is lent.
pub fn back(
    dial: &mut Record,
    body: &[u8],
    declared: u32,
    values: &mut [i32],
    precisions: &mut [u8],
    marks: &mut [u8],
) -> Result<ReadTo, Refusal>
    ensures { Backs declared body.now dial.old (tables values.old precisions.old marks.old) result dial.new (tables values.new precisions.new marks.new) }
{
    let t = by_value::take_back(*dial, body, declared, values, precisions, marks);
    *dial = t.dial;
    t.answer
}

// To a number of bits, forward or back. The record is lent.
pub fn turn(
    dial: &mut Record,
    body: &[u8],
    declared: u32,
    to: u32,
    values: &mut [i32],
    precisions: &mut [u8],
    marks: &mut [u8],
) -> Result<ReadTo, Refusal>
    ensures { Turns declared to body.now dial.old (tables values.old precisions.old marks.old) result dial.new (tables values.new precisions.new marks.new) }
{
    let t = by_value::take_turn(*dial, body, declared, to, values, precisions, marks);
    *dial = t.dial;
    t.answer
}
