// The calls of the stepped decoder, with the record by value.
ghost use Rattle.std.specs.Prelude.{◌≡◌, ◌*◌, ◌-◌, ◌≤◌, length, Err};
ghost use Rattle.decoder.specs.Body.{tables};
ghost use Rattle.steps.specs.Records.{step};
ghost use Rattle.decoder.specs.Ending.{ending};
ghost use Rattle.steps.specs.Steps.{usable_bits, Starts, Forwards, Backs, Turns};
ghost use Rattle.steps.specs.Ready.{CallReady, forward_in, back_in, own_steps};

use crate::{Record, Stepped};
use decoder::ReadTo;
use refusals::Refusal;

// Steps forward over the own entries of the tables.
fn climb_own(
    dial: Record,
    body: &[u8],
    declared: u32,
    to: u32,
    values: &mut [i32],
    precisions: &mut [u8],
    marks: &mut [u8],
) -> Stepped
    requires { CallReady dial (usable_bits declared body.now) (length values.old) (length precisions.old) (length marks.old) }
    ensures { step result.answer result.dial (tables values.new precisions.new marks.new) ≡ own_steps (ending declared body.now) (forward_in (ending declared body.now) (usable_bits declared body.now) body.now) (to - dial.used) dial (tables values.old precisions.old marks.old) }
{
    let all = sizes::all_of(dial.n);
    crate::moving::climb(
        dial,
        body,
        declared,
        to,
        &mut values[..all],
        &mut precisions[..all],
        &mut marks[..all],
    )
}

// Steps back over them.
// Kept: beside `climb_own`, since each is the one call of another function, under a contract of its own.
fn descend_own(
    dial: Record,
    body: &[u8],
    declared: u32,
    to: u32,
    values: &mut [i32],
    precisions: &mut [u8],
    marks: &mut [u8],
) -> Stepped
    requires { CallReady dial (usable_bits declared body.now) (length values.old) (length precisions.old) (length marks.old) }
    ensures { step result.answer result.dial (tables values.new precisions.new marks.new) ≡ own_steps (ending declared body.now) (back_in (ending declared body.now) body.now) (dial.used - to) dial (tables values.old precisions.old marks.old) }
{
    let all = sizes::all_of(dial.n);
    crate::moving::descend(
        dial,
        body,
        declared,
        to,
        &mut values[..all],
        &mut precisions[..all],
        &mut marks[..all],
    )
}

// A refusal, which leaves the record.
fn refused(dial: Record, why: Refusal) -> Stepped
    ensures { result ≡ record { dial = dial; answer = Err why } }
{
    Stepped {
        dial,
        answer: Err(why),
    }
}

// The record and the tables before the first bit.
pub fn take_start(
    dial: Record,
    n: u32,
    l: u32,
    p: u32,
    values: &mut [i32],
    precisions: &mut [u8],
    marks: &mut [u8],
) -> Stepped
    ensures { Starts n l p dial (tables values.old precisions.old marks.old) result.answer result.dial (tables values.new precisions.new marks.new) }
{
    let none = [0u8; 1];
    match decoder::decode_midpoint(n, l, p, &none, 0, values, precisions, marks) {
        Ok(to) => Stepped {
            dial: crate::records::first(n, l, p),
            answer: Ok(ReadTo {
                used: to.used,
                finished: to.finished,
                error: to.error,
                ending: decoder::ending_of(p, Ok(false)),
            }),
        },
        Err(why) => refused(dial, why),
    }
}

// One bit forward.
pub fn take_forward(
    dial: Record,
    body: &[u8],
    declared: u32,
    values: &mut [i32],
    precisions: &mut [u8],
    marks: &mut [u8],
) -> Stepped
    ensures { Forwards declared body.now dial (tables values.old precisions.old marks.old) result.answer result.dial (tables values.new precisions.new marks.new) }
{
    let most = room::usable_of(declared, body.len());
    match crate::records::check(dial, most, values.len(), precisions.len(), marks.len()) {
        Ok(()) => {
            if dial.used == most {
                return refused(dial, Refusal::Spent);
            }
            climb_own(
                dial,
                body,
                declared,
                dial.used + 1,
                values,
                precisions,
                marks,
            )
        }
        Err(why) => refused(dial, why),
    }
}

// One bit back.
pub fn take_back(
    dial: Record,
    body: &[u8],
    declared: u32,
    values: &mut [i32],
    precisions: &mut [u8],
    marks: &mut [u8],
) -> Stepped
    ensures { Backs declared body.now dial (tables values.old precisions.old marks.old) result.answer result.dial (tables values.new precisions.new marks.new) }
{
    let most = room::usable_of(declared, body.len());
    match crate::records::check(dial, most, values.len(), precisions.len(), marks.len()) {
        Ok(()) => {
            if dial.used == 0 {
                return refused(dial, Refusal::First);
            }
            descend_own(
                dial,
                body,
                declared,
                dial.used - 1,
                values,
                precisions,
                marks,
            )
        }
        Err(why) => refused(dial, why),
    }
}

// As many steps, either way, as bring the bits used to `to`.
pub fn take_turn(
    dial: Record,
    body: &[u8],
    declared: u32,
    to: u32,
    values: &mut [i32],
    precisions: &mut [u8],
    marks: &mut [u8],
) -> Stepped
    ensures { Turns declared to body.now dial (tables values.old precisions.old marks.old) result.answer result.dial (tables values.new precisions.new marks.new) }
{
    let most = room::usable_of(declared, body.len());
    match crate::records::check(dial, most, values.len(), precisions.len(), marks.len()) {
        Ok(()) => {
            if to <= dial.used {
                return descend_own(dial, body, declared, to, values, precisions, marks);
            }
            climb_own(dial, body, declared, to, values, precisions, marks)
        }
        Err(why) => refused(dial, why),
    }
}
