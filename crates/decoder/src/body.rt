// The call that reads a body.
ghost use Rattle.std.specs.Prelude.{◌≡◌, pos, length, replicate};
ghost use Rattle.nls.specs.Reading.{lower, midpoint};
ghost use Rattle.room.specs.Room.{body_bits};
ghost use Rattle.decoder.specs.Body.{tables, BodyRead, Reads};
ghost use Rattle.decoder.specs.Calls.{ReadReady};
ghost use Rattle.decoder.specs.Ending.{ending};
ghost use Rattle.decoder.specs.Rules.{rule_of};

use crate::{Ending, Rule};
use refusals::Refusal;

// The bits used, the planes finished, the worst error, and why the bits ended.
#[derive(Clone, Copy)]
pub struct ReadTo {
    pub used: u32,
    pub finished: u32,
    pub error: u32,
    pub ending: Ending,
}

// Puts 0 into every entry of the three tables.
fn clear(values: &mut [i32], precisions: &mut [u8], marks: &mut [u8])
    ensures values_after { values.new ≡ replicate (length values.old) (pos 0) }
    ensures precisions_after { precisions.new ≡ replicate (length precisions.old) 0 }
    ensures marks_after { marks.new ≡ replicate (length marks.old) 0 }
{
    values.fill(0);
    precisions.fill(0);
    marks.fill(0);
}

// Reads the first `declared` bits of a body, or all that it has, into tables of I entries each, values by a rule; the checks of the call hold.
fn read(
    n: u32,
    l: u32,
    p: u32,
    body: &[u8],
    declared: u32,
    values: &mut [i32],
    precisions: &mut [u8],
    marks: &mut [u8],
    rule: Rule,
) -> Result<ReadTo, Refusal>
    requires { ReadReady n l p (length values.old) (length precisions.old) (length marks.old) }
    ensures { BodyRead (rule_of rule) (ending declared body.now) n l p (body_bits declared body.now) (tables values.old precisions.old marks.old) result (tables values.new precisions.new marks.new) }
{
    let coarsest = sizes::coarsest_of(n, l);
    values.fill(0);
    marking::start(marks, coarsest);
    let reached = reading::scan(body, marks, values, coarsest, p, declared);
    let bits = reached.bits as u32;
    if reached.bad {
        clear(values, precisions, marks);
        return Err(Refusal::Contradiction(bits));
    }
    match view::read(body, reached.bits, declared as usize) {
        Ok(_) => {
            clear(values, precisions, marks);
            Err(Refusal::Beyond(bits))
        }
        Err(why) => {
            let left = reached.left;
            crate::finish::finish(values, precisions, marks, left, reached.stop, rule);
            Ok(ReadTo {
                used: bits,
                finished: p - left,
                error: (1u32 << left) - 1,
                ending: crate::ending::ending_of(left, Err(why)),
            })
        }
    }
}

// Reads the first `declared` bits of a body, or all that it has, into the first I entries of the three tables: values by the rule named.
pub fn decode_by(
    n: u32,
    l: u32,
    p: u32,
    body: &[u8],
    declared: u32,
    values: &mut [i32],
    precisions: &mut [u8],
    marks: &mut [u8],
    rule: Rule,
) -> Result<ReadTo, Refusal>
    ensures { Reads (rule_of rule) n l p declared body.now (tables values.old precisions.old marks.old) result (tables values.new precisions.new marks.new) }
{
    room::check_decode(n, l, p, values.len(), precisions.len(), marks.len())?;
    let all = sizes::all_of(n);
    read(
        n,
        l,
        p,
        body,
        declared,
        &mut values[..all],
        &mut precisions[..all],
        &mut marks[..all],
        rule,
    )
}

// The same with the default rule: known bits stand for themselves.
pub fn decode(
    n: u32,
    l: u32,
    p: u32,
    body: &[u8],
    declared: u32,
    values: &mut [i32],
    precisions: &mut [u8],
    marks: &mut [u8],
) -> Result<ReadTo, Refusal>
    ensures { Reads lower n l p declared body.now (tables values.old precisions.old marks.old) result (tables values.new precisions.new marks.new) }
{
    decode_by(
        n,
        l,
        p,
        body,
        declared,
        values,
        precisions,
        marks,
        Rule::Lower,
    )
}

// The same with the midpoint.
pub fn decode_midpoint(
    n: u32,
    l: u32,
    p: u32,
    body: &[u8],
    declared: u32,
    values: &mut [i32],
    precisions: &mut [u8],
    marks: &mut [u8],
) -> Result<ReadTo, Refusal>
    ensures { Reads midpoint n l p declared body.now (tables values.old precisions.old marks.old) result (tables values.new precisions.new marks.new) }
{
    decode_by(
        n,
        l,
        p,
        body,
        declared,
        values,
        precisions,
        marks,
        Rule::Midpoint,
    )
}
