// What an answer does to the values and the precisions, and how it is taken back.
ghost use Rattle.std.specs.Prelude.{◌≡◌, true, ◌*◌, ◌/◌, ◌%◌, ◌-◌, ◌≤◌, ◌<◌, length, set};
ghost use Rattle.sizes.specs.Sizes.{side_fits, levels_fit, most_planes, all_of, coarsest_of};
ghost use Rattle.tree.specs.Tree.{desc, grand};
ghost use Rattle.nls.specs.Reading.{set_each};
ghost use Rattle.moves.specs.Stands.{state_of};
ghost use Rattle.steps.specs.Moved as moved;
ghost use Rattle.steps.specs.Rows.{Row, rows_filled};

use crate::Asked;
use moves::Stand;

// What is asked where the scan stands.
pub(crate) fn asked(marks: &[u8], at: Stand) -> Asked
    ensures { result ≡ moved.asked_in (length marks.now) (state_of at marks.now) }
{
    if at.left == 0 {
        return Asked::Nothing;
    }
    if at.pending {
        return Asked::Sign;
    }
    let place = at.place;
    if marks.len() <= place {
        return Asked::Nothing;
    }
    let mark = marks[place];
    match at.pass {
        0 if mark == marking::MIP => Asked::Bit,
        1 if mark == marking::MD => Asked::Desc,
        1 if mark == marking::MG => Asked::Grand,
        1 if mark == marking::MCP => Asked::Bit,
        0 | 1 => Asked::Nothing,
        _ if mark == marking::MSP => Asked::More,
        _ => Asked::Nothing,
    }
}

// A value of a sign and a magnitude; 0 for one over the limit.
fn value_of(negative: bool, magnitude: u32) -> i32
    ensures { result ≡ moved.joined_or0 negative magnitude }
{
    coef::join_of(coef::Signed {
        negative,
        magnitude,
    })
    .unwrap_or(0)
}

// A coefficient found in plane b.
fn found(negative: bool, b: u32) -> i32
    requires { b < most_planes }
    ensures { result ≡ moved.found_in negative b }
{
    value_of(negative, (1u32 << b) + (1u32 << b) / 2)
}

// A coefficient with bit b more.
fn finer(value: i32, b: u32, bit: bool) -> i32
    requires { b < most_planes }
    ensures { result ≡ moved.finer bit b value }
{
    let size = coef::magnitude(value) + (1u32 << b) / 2;
    if bit {
        return value_of(coef::is_negative(value), size);
    }
    value_of(coef::is_negative(value), size.saturating_sub(1u32 << b))
}

// A coefficient whose last bit is taken back: it is known down to plane `left`.
fn coarser(value: i32, left: u32) -> i32
    requires { left ≤ most_planes }
    ensures { result ≡ moved.coarser left value }
{
    let size = (coef::magnitude(value) >> left) << left;
    value_of(coef::is_negative(value), size + (1u32 << left) / 2)
}

// The values after an answer at a place, in plane b; past the end nothing is written.
pub(crate) fn hear(values: &mut [i32], what: Asked, place: usize, b: u32, bit: bool)
    requires { b < most_planes }
    ensures { values.new ≡ moved.heard what place b bit values.old }
{
    if place < values.len() {
        match what {
            Asked::Sign => {
                values[place] = found(bit, b);
            }
            Asked::More => {
                let old = values[place];
                values[place] = finer(old, b, bit);
            }
            _ => {}
        }
    }
}

// The values before an answer at a place, with `left` planes not finished.
pub(crate) fn unhear(values: &mut [i32], what: Asked, place: usize, left: u32)
    requires { left ≤ most_planes }
    ensures { values.new ≡ moved.unheard what place left values.old }
{
    if place < values.len() {
        match what {
            Asked::Sign => {
                values[place] = 0;
            }
            Asked::More => {
                let old = values[place];
                values[place] = coarser(old, left);
            }
            _ => {}
        }
    }
}

// A precision; past the end nothing is written.
fn store(precisions: &mut [u8], place: usize, plane: u8)
    ensures { precisions.new ≡ set precisions.old place plane }
{
    if place < precisions.len() {
        precisions[place] = plane;
    }
}

// Rows of a set, from its first: each four times as long as the one above it, and four times as far.
fn fill_rows(precisions: &mut [u8], first: usize, size: usize, plane: u8)
    requires { Row (length precisions.old) first size }
    ensures { precisions.new ≡ rows_filled (length precisions.old) first size plane precisions.old }
{
    let all = precisions.len();
    let mut at = first;
    let mut wide = size;
    while at < all {
        precisions[at..at + wide].fill(plane);
        at = 4 * at;
        wide = 4 * wide;
    }
}

// The members of the DESC that is tested at a place.
fn note_desc(precisions: &mut [u8], n: u32, l: u32, place: usize, plane: u8)
    requires { (length precisions.old ≡ all_of n) × (side_fits n ≡ true) × (levels_fit n l ≡ true) }
    ensures { precisions.new ≡ set_each (desc n l (place / 4)) plane precisions.old }
{
    let first = 4 * (place / 4);
    if sizes::coarsest_of(n, l) <= first {
        fill_rows(precisions, first, 4, plane);
    }
}

// The members of the GRAND that is tested at a place.
// Kept: beside `note_desc`, since each is a comparison and a call, and the sets in their contracts are others.
fn note_grand(precisions: &mut [u8], n: u32, l: u32, place: usize, plane: u8)
    requires { (length precisions.old ≡ all_of n) × (side_fits n ≡ true) × (levels_fit n l ≡ true) }
    ensures { precisions.new ≡ set_each (grand n l (place / 16)) plane precisions.old }
{
    let first = 16 * (place / 16);
    if 4 * sizes::coarsest_of(n, l) <= first {
        fill_rows(precisions, first, 16, plane);
    }
}

// The precisions after an answer at a place: those that it makes known get the number of a plane.
pub(crate) fn note(
    precisions: &mut [u8],
    n: u32,
    l: u32,
    what: Asked,
    place: usize,
    plane: u8,
    bit: bool,
)
    requires { (length precisions.old ≡ all_of n) × (side_fits n ≡ true) × (levels_fit n l ≡ true) }
    ensures { precisions.new ≡ moved.noted n l what place plane bit precisions.old }
{
    match what {
        Asked::Sign | Asked::More => store(precisions, place, plane),
        Asked::Bit if !bit => store(precisions, place, plane),
        Asked::Desc if !bit => note_desc(precisions, n, l, place, plane),
        Asked::Grand if !bit => note_grand(precisions, n, l, place, plane),
        _ => {}
    }
}
