// The checks of the calls on a body, and the numbers that they compare: the worst body, the room in the output, the usable bits.
#![tactic(auto)]

ghost use Rattle.std.specs.Prelude.{◌≡◌, true, ◌++◌, ◌+◌, ◌*◌, ◌≤◌, min, leb};
ghost use Rattle.refusals.specs.Checks.{first_failing};
ghost use Rattle.sizes.specs.Sizes.{side_fits, levels_fit, most_planes};
ghost use Rattle.bits.specs.Bits.{bytes_for};
ghost use Rattle.nls.specs.Stream.{worst_body};
ghost use Rattle.room.specs.Room.{worst_checks, worst_answer, most_bits, room_checks, table_checks, read_checks};

use refusals::Refusal;

// The usable bits of a body of this many bytes.
pub fn usable_of(usable: u32, bytes: usize) -> u32
    ensures { result ≡ min usable (8 * bytes) }
{
    if bytes <= (usable / 8) as usize {
        return 8 * (bytes as u32);
    }
    usable
}

// The worst body, for sizes in range.
fn worst_of(n: u32, l: u32, p: u32) -> u32
    requires { (side_fits n ≡ true) × (levels_fit n l ≡ true) × (p ≤ most_planes) }
    ensures { result ≡ worst_body n l p }
{
    if p == 0 {
        return 0;
    }
    let all = sizes::all_of(n) as u32;
    let coarsest = sizes::coarsest_of(n, l) as u32;
    all * (p + 1) + (all - coarsest) / 4 + (all - 4 * coarsest) / 16
}

// Whether `bits` bits have room from `offset` on.
fn has_room(out: usize, offset: usize, bits: u32) -> bool
    ensures { result ≡ leb (offset + bytes_for bits) out }
{
    if out < offset {
        return false;
    }
    (bits as usize + 7) / 8 <= out - offset
}

// The first of refusals 1, 2 and 9 that holds, if any.
pub fn check_worst(n: u32, l: u32, p: u32) -> Result<(), Refusal>
    ensures { result ≡ first_failing (worst_checks n l p) }
{
    if !sizes::side_fits(n) {
        return Err(Refusal::Side);
    }
    if !sizes::levels_fit(n, l) {
        return Err(Refusal::Levels);
    }
    if sizes::MOST_PLANES < p {
        return Err(Refusal::Planes);
    }
    Ok(())
}

// The most bits that a body of this N, L and P can have.
pub fn worst_body(n: u32, l: u32, p: u32) -> Result<u32, Refusal>
    ensures { result ≡ worst_answer n l p (first_failing (worst_checks n l p)) }
{
    check_worst(n, l, p)?;
    Ok(worst_of(n, l, p))
}

// The smaller of the budget and the worst body; the budget for sizes out of range.
pub fn most_bits(n: u32, l: u32, p: u32, budget: u32) -> u32
    ensures { result ≡ most_bits budget (worst_answer n l p (first_failing (worst_checks n l p))) }
{
    match worst_body(n, l, p) {
        Ok(bits) => budget.min(bits),
        Err(_) => budget,
    }
}

// The refusal of marks or an output that are too short, for sizes in range.
fn check_room(
    n: u32,
    l: u32,
    p: u32,
    marks: usize,
    out: usize,
    offset: usize,
    budget: u32,
) -> Result<(), Refusal>
    requires { (side_fits n ≡ true) × (levels_fit n l ≡ true) × (p ≤ most_planes) }
    ensures { result ≡ first_failing (room_checks n l p marks out offset budget) }
{
    if marks < sizes::all_of(n) {
        return Err(Refusal::Lent);
    }
    if !has_room(out, offset, budget.min(worst_of(n, l, p))) {
        return Err(Refusal::Output);
    }
    Ok(())
}

// The first of refusals 1, 2, 9, 5 and 6 that holds, if any, for the marks and the output of an array of p planes.
pub fn check_encode(
    n: u32,
    l: u32,
    p: u32,
    marks: usize,
    out: usize,
    offset: usize,
    budget: u32,
) -> Result<(), Refusal>
    ensures { result ≡ first_failing (worst_checks n l p ++ room_checks n l p marks out offset budget) }
{
    check_worst(n, l, p)?;
    check_room(n, l, p, marks, out, offset, budget)
}

// Refusal 5 where one of the three tables is too short for this many values, precisions and marks.
pub fn check_tables(
    all: usize,
    values: usize,
    precisions: usize,
    marks: usize,
) -> Result<(), Refusal>
    ensures { result ≡ first_failing (table_checks all values precisions marks) }
{
    if values < all {
        return Err(Refusal::Lent);
    }
    if precisions < all {
        return Err(Refusal::Lent);
    }
    if marks < all {
        return Err(Refusal::Lent);
    }
    Ok(())
}

// The first of refusals 1, 2, 9 and 5 that holds, if any.
pub fn check_decode(
    n: u32,
    l: u32,
    p: u32,
    values: usize,
    precisions: usize,
    marks: usize,
) -> Result<(), Refusal>
    ensures { result ≡ first_failing (read_checks n l p values precisions marks) }
{
    check_worst(n, l, p)?;
    check_tables(sizes::all_of(n), values, precisions, marks)
}
