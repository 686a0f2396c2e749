// One bit forward and one bit back, over tables of I entries.
ghost use Rattle.std.specs.Prelude.{◌≡◌, true, not, ◌&&◌, List, ℕ, ◌+◌, ◌*◌, ◌-◌, ◌^◌, ◌≤◌, ◌<◌, ℤ, length};
ghost use Rattle.sizes.specs.Sizes.{all_of, coarsest_of};
ghost use Rattle.moves.specs.Moves.{onward};
ghost use Rattle.moves.specs.Stands.{state_of, stand_of};
ghost use Rattle.decoder.specs.Body.{Tables, tables};
ghost use Rattle.reading.specs.Reading.{bars_zero};
ghost use Rattle.decoder.specs.Ending.{ending};
ghost use Rattle.steps.specs.Records.{record_of, in_range, step, stays};
ghost use Rattle.steps.specs.Moved.{asked_in, heard, unheard, noted, moved_to};
ghost use Rattle.steps.specs.Steps.{usable_bits, steps_of, position_of};
ghost use Rattle.steps.specs.Ready.{Ready, Stood, forward_in, back_in};

use crate::{Record, Stepped};
use moves::Stand;
use refusals::Refusal;

// The record and the answer of where the scan stands, after `used` bits.
fn arrive(dial: Record, body: &[u8], declared: u32, used: u32, at: Stand) -> Stepped
    requires { (in_range dial ≡ true) × Stood dial at }
    ensures { (v : List ℤ) (k m : List ℕ) → step result.answer result.dial (tables v k m) ≡ moved_to dial (ending declared body.now) used (state_of at m) v k }
{
    Stepped {
        dial: crate::records::record_of(dial, used, at),
        answer: crate::records::reached(dial.p, body, declared, used, at.left),
    }
}

// A refusal where the scan stands, after `used` bits.
fn refuse(dial: Record, used: u32, at: Stand, why: Refusal) -> Stepped
    requires { (in_range dial ≡ true) × Stood dial at }
    ensures { (m : List ℕ) (t : Tables) → step result.answer result.dial t ≡ stays why (record_of dial.n dial.l dial.p used (state_of at m)) t }
{
    Stepped {
        dial: crate::records::record_of(dial, used, at),
        answer: Err(why),
    }
}

// Whether a bit fits no array, after `used` bits: a 0 may not, and a sign may be either.
fn bars(dial: Record, used: u32, at: Stand, bit: bool, marks: &[u8]) -> bool
    requires { (in_range dial ≡ true) × (length marks.now ≡ all_of dial.n) }
    ensures { result ≡ (not bit && (not at.pending && bars_zero (all_of dial.n) (coarsest_of dial.n dial.l) dial.p at.left used at.place marks.now)) }
{
    if bit {
        return false;
    }
    if at.pending {
        return false;
    }
    reading::bars_zero(
        marks,
        sizes::coarsest_of(dial.n, dial.l),
        dial.p,
        at.left,
        used as usize,
        at.place,
    )
}

// The answer to the question where the scan stands: the tables after it, and where the scan stands then.
fn tell(
    dial: Record,
    at: Stand,
    bit: bool,
    values: &mut [i32],
    precisions: &mut [u8],
    marks: &mut [u8],
) -> Stand
    requires { Ready dial (length values.old) (length precisions.old) (length marks.old) × Stood dial at × (1 ≤ at.left) }
    ensures stand { result ≡ stand_of (onward (all_of dial.n) (state_of at marks.old) bit) }
    ensures filled { (tables values.new precisions.new marks.new) ≡ tables (heard (asked_in (all_of dial.n) (state_of at marks.old)) at.place (at.left - 1) bit values.old) (noted dial.n dial.l (asked_in (all_of dial.n) (state_of at marks.old)) at.place (at.left - 1) bit precisions.old) (onward (all_of dial.n) (state_of at marks.old) bit).marks }
{
    let b = at.left - 1;
    let what = crate::tables::asked(marks, at);
    crate::tables::hear(values, what, at.place, b, bit);
    crate::tables::note(precisions, dial.n, dial.l, what, at.place, b as u8, bit);
    moves::go_on(marks, at, bit)
}

// The tables before the answer to the question where the scan stands now.
fn untell(
    dial: Record,
    at: Stand,
    bit: bool,
    values: &mut [i32],
    precisions: &mut [u8],
    marks: &[u8],
)
    requires { Ready dial (length values.old) (length precisions.old) (length marks.now) × Stood dial at }
    ensures values_after { values.new ≡ unheard (asked_in (all_of dial.n) (state_of at marks.now)) at.place at.left values.old }
    ensures precisions_after { precisions.new ≡ noted dial.n dial.l (asked_in (all_of dial.n) (state_of at marks.now)) at.place at.left bit precisions.old }
{
    let what = crate::tables::asked(marks, at);
    crate::tables::unhear(values, what, at.place, at.left);
    crate::tables::note(
        precisions,
        dial.n,
        dial.l,
        what,
        at.place,
        at.left as u8,
        bit,
    );
}

// Steps forward, until `to` bits are used or one is refused.
pub(crate) fn climb(
    dial: Record,
    body: &[u8],
    declared: u32,
    to: u32,
    values: &mut [i32],
    precisions: &mut [u8],
    marks: &mut [u8],
) -> Stepped
    requires { Ready dial (length values.old) (length precisions.old) (length marks.old) }
    ensures { step result.answer result.dial (tables values.new precisions.new marks.new) ≡ steps_of (forward_in (ending declared body.now) (usable_bits declared body.now) body.now) (to - dial.used) (step (position_of (ending declared body.now) dial) dial (tables values.old precisions.old marks.old)) }
{
    let mut at = crate::records::stand_of(dial);
    for used in dial.used..to {
        let Ok(bit) = view::read(body, used as usize, declared as usize) else {
            return refuse(dial, used, at, Refusal::Spent);
        };
        if at.left == 0 {
            return refuse(dial, used, at, Refusal::Beyond(used));
        }
        if bars(dial, used, at, bit, marks) {
            return refuse(dial, used, at, Refusal::Contradiction(used));
        }
        at = tell(dial, at, bit, values, precisions, marks);
    }
    arrive(dial, body, declared, to.max(dial.used), at)
}

// Steps back, until `to` bits are used.
pub(crate) fn descend(
    dial: Record,
    body: &[u8],
    declared: u32,
    to: u32,
    values: &mut [i32],
    precisions: &mut [u8],
    marks: &mut [u8],
) -> Stepped
    requires { Ready dial (length values.old) (length precisions.old) (length marks.old) × (dial.used ≤ usable_bits declared body.now) }
    ensures { step result.answer result.dial (tables values.new precisions.new marks.new) ≡ steps_of (back_in (ending declared body.now) body.now) (dial.used - to) (step (position_of (ending declared body.now) dial) dial (tables values.old precisions.old marks.old)) }
{
    let coarsest = sizes::coarsest_of(dial.n, dial.l);
    let mut at = crate::records::stand_of(dial);
    for used in (to..dial.used).rev() {
        let Ok(bit) = view::read(body, used as usize, declared as usize) else {
            return refuse(dial, used, at, Refusal::Spent);
        };
        at = undo::go_back(marks, values, coarsest, dial.p, at);
        untell(dial, at, bit, values, precisions, marks);
    }
    arrive(dial, body, declared, to.min(dial.used), at)
}
