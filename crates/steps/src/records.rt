// The scan record: which are in range, where the scan stands by one, and the record of where it stands.
ghost use Rattle.std.specs.Prelude.{◌≡◌, true, List, [], ℕ, ◌^◌, ◌≤◌, ◌<◌};
ghost use Rattle.refusals.specs.Checks.{first_failing};
ghost use Rattle.sizes.specs.Sizes.{side_fits, levels_fit, most_planes};
ghost use Rattle.moves.specs.Stands.{state_of};
ghost use Rattle.decoder.specs.Ending.{ending};
ghost use Rattle.steps.specs.Records.{record_of, record_after, is_end, is_within, in_range, stand_in};
ghost use Rattle.steps.specs.Moved as moved;
ghost use Rattle.steps.specs.Steps.{record_checks};

use crate::Record;
use decoder::ReadTo;
use moves::Stand;
use refusals::Refusal;

// Whether a record stands at the end.
#[tactic(auto, unfolding(crate::specs::Records::is_end))]
fn is_end(dial: Record) -> bool
    requires { side_fits dial.n ≡ true }
    ensures { result ≡ is_end dial }
{
    dial.plane == 0
        && dial.pass == 2
        && dial.place as usize == sizes::all_of(dial.n)
        && dial.pending == 0
}

// Whether it stands in a plane, a pass and at a place that there are.
#[tactic(auto, unfolding(crate::specs::Records::is_within))]
fn is_within(dial: Record) -> bool
    requires { side_fits dial.n ≡ true }
    ensures { result ≡ is_within dial }
{
    dial.plane < dial.p
        && dial.pass < 3
        && (dial.place as usize) < sizes::all_of(dial.n)
        && dial.pending < 2
}

// Whether a record is in range.
#[tactic(auto, unfolding(crate::specs::Records::in_range))]
fn in_range(dial: Record) -> bool
    ensures { result ≡ in_range dial }
{
    sizes::side_fits(dial.n)
        && sizes::levels_fit(dial.n, dial.l)
        && dial.p <= sizes::MOST_PLANES
        && (is_end(dial) || is_within(dial))
}

// The first of refusals 16 and 5 that holds, if any: `most` bits are usable.
pub(crate) fn check(
    dial: Record,
    most: u32,
    values: usize,
    precisions: usize,
    marks: usize,
) -> Result<(), Refusal>
    ensures { result ≡ first_failing (record_checks dial most values precisions marks) }
{
    if !in_range(dial) {
        return Err(Refusal::Record);
    }
    if most < dial.used {
        return Err(Refusal::Record);
    }
    room::check_tables(sizes::all_of(dial.n), values, precisions, marks)
}

// Where the scan stands by a record in range.
pub(crate) fn stand_of(dial: Record) -> Stand
    requires { in_range dial ≡ true }
    ensures { result ≡ stand_in dial }
{
    if is_end(dial) {
        return Stand {
            left: 0,
            pass: 0,
            place: 0,
            pending: false,
        };
    }
    Stand {
        left: dial.plane + 1,
        pass: dial.pass,
        place: dial.place as usize,
        pending: dial.pending == 1,
    }
}

// The record of where the scan stands after `used` bits.
pub(crate) fn record_of(dial: Record, used: u32, at: Stand) -> Record
    requires { (side_fits dial.n ≡ true) × (at.pass < 3) × (1 ≤ at.left → at.place < 2 ^ 32) }
    ensures { (m : List ℕ) → result ≡ record_of dial.n dial.l dial.p used (state_of at m) }
{
    if at.left == 0 {
        return Record {
            n: dial.n,
            l: dial.l,
            p: dial.p,
            plane: 0,
            pass: 2,
            place: sizes::all_of(dial.n) as u32,
            used,
            pending: 0,
        };
    }
    Record {
        n: dial.n,
        l: dial.l,
        p: dial.p,
        plane: at.left - 1,
        pass: at.pass,
        place: at.place as u32,
        used,
        pending: at.pending as u32,
    }
}

// The bits used, the planes finished, the worst error and the word, where `left` of p planes are not finished.
pub(crate) fn reached(
    p: u32,
    body: &[u8],
    declared: u32,
    used: u32,
    left: u32,
) -> Result<ReadTo, Refusal>
    requires { (left ≤ p) × (p ≤ most_planes) }
    ensures { result ≡ moved.reached (ending declared body.now) p used left }
{
    Ok(ReadTo {
        used,
        finished: p - left,
        error: (1u32 << left) - 1,
        ending: decoder::ending_of(left, view::read(body, used as usize, declared as usize)),
    })
}

// The record before the first bit.
pub(crate) fn first(n: u32, l: u32, p: u32) -> Record
    requires { (side_fits n ≡ true) × (levels_fit n l ≡ true) }
    ensures { result ≡ record_after n l p [] }
{
    let blank = Record {
        n,
        l,
        p,
        plane: 0,
        pass: 0,
        place: 0,
        used: 0,
        pending: 0,
    };
    record_of(
        blank,
        0,
        Stand {
            left: p,
            pass: 0,
            place: 0,
            pending: false,
        },
    )
}
