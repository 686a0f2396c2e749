// Raster and linear places: the change between the two orders, of one place and of whole arrays.
#![tactic(auto)]

mod tables;

ghost use Rattle.std.specs.Prelude.{◌≡◌, ◌+◌, ◌≤◌, ◌<◌, ◌^◌, pos, length, get_or, set, Ok};
ghost use Rattle.refusals.specs.Checks.{first_failing, lent_after};
ghost use Rattle.places.specs.Spread.{spreader};
ghost use Rattle.places.specs.Gather.{gatherer};
ghost use Rattle.places.specs.Order.{to_linear, to_raster, linearly, rasterly};
ghost use Rattle.places.specs.Answers.{place_checks, reorder_checks, raster_if, linear_if};

use refusals::Refusal;

// A place in raster order, and one in linear order.
#[derive(Clone, Copy)]
pub struct Raster(u32);

#[derive(Clone, Copy)]
pub struct Linear(u32);

// The number of a place.
pub fn raster_number(p: Raster) -> u32
    ensures { result ≡ p.0 }
{
    p.0
}

pub fn linear_number(q: Linear) -> u32
    ensures { result ≡ q.0 }
{
    q.0
}

// The checks of one place.
fn check_place(n: u32, place: u32) -> Result<(), Refusal>
    ensures { result ≡ first_failing (place_checks n place) }
{
    if sizes::side_fits(n) {
        if (place as usize) < sizes::all_of(n) {
            return Ok(());
        }
        return Err(Refusal::Length);
    }
    Err(Refusal::Side)
}

// A number as a place, where the checks are passed. Outside this crate there is no other way from a number to a place.
pub fn raster_at(n: u32, place: u32) -> Result<Raster, Refusal>
    ensures { result ≡ raster_if (first_failing (place_checks n place)) place }
{
    check_place(n, place)?;
    Ok(Raster(place))
}

pub fn linear_at(n: u32, place: u32) -> Result<Linear, Refusal>
    ensures { result ≡ linear_if (first_failing (place_checks n place)) place }
{
    check_place(n, place)?;
    Ok(Linear(place))
}

// Row and column bits interleaved, and taken apart again, for places of up to 32 bits.
// Kept: no plainer: there is no loop here, and std has no call that interleaves bits.
fn interleave(entries: &[u16; 256], n: u32, p: Raster) -> Linear
    requires { (entries.now ≡ spreader) × (n ≤ 16) × (p.0 < 4 ^ n) }
    ensures { result.0 ≡ to_linear n p.0 }
{
    let at = p.0;
    let row = at >> n;
    let col = at - (row << n);
    let rows = tables::spread_of(entries, row);
    let cols = tables::spread_of(entries, col);
    Linear(rows * 2 + cols)
}

fn separate(entries: &[u8; 256], n: u32, q: Linear) -> Raster
    requires { (entries.now ≡ gatherer) × (n ≤ 16) × (q.0 < 4 ^ n) }
    ensures { result.0 ≡ to_raster n q.0 }
{
    let at = q.0;
    let high = tables::gather_of(entries, at / 65536);
    let low = tables::gather_of(entries, at % 65536);
    let row = high / 256 * 256 + low / 256;
    let col = high % 256 * 256 + low % 256;
    Raster((row << n) + col)
}

// One place in the other order.
pub fn to_linear(n: u32, p: Raster) -> Result<Linear, Refusal>
    ensures { result ≡ linear_if (first_failing (place_checks n p.0)) (to_linear n p.0) }
{
    check_place(n, p.0)?;
    let entries = tables::spread_table();
    Ok(interleave(&entries, n, p))
}

pub fn to_raster(n: u32, q: Linear) -> Result<Raster, Refusal>
    ensures { result ≡ raster_if (first_failing (place_checks n q.0)) (to_raster n q.0) }
{
    check_place(n, q.0)?;
    let entries = tables::gather_table();
    Ok(separate(&entries, n, q))
}

// The checks of whole arrays, over the lengths of the input and of the output.
fn check_arrays(n: u32, input: usize, output: usize) -> Result<(), Refusal>
    ensures { result ≡ first_failing (reorder_checks n input output) }
{
    if sizes::side_fits(n) {
        let all = sizes::all_of(n);
        if input != all {
            return Err(Refusal::Length);
        }
        if output < all {
            return Err(Refusal::Lent);
        }
        return Ok(());
    }
    Err(Refusal::Side)
}

// The side of the square.
fn side_of(n: u32) -> usize
    requires { n ≤ 16 }
    ensures { result ≡ 2 ^ n }
{
    1usize << n
}

// Four entries of the output, from `first` on: two entries that follow one another, and the two that lie `step` further.
// Kept: misses the bar of speed: with two `copy_from_slice` of two entries each, a whole array takes 38 per cent more instructions.
fn copy_four(from: &[i32], at: usize, step: usize, to: &mut [i32], first: usize)
    requires { (at + step + 1 < length from.now) × (first + 3 < length to.old) }
    ensures { to.new ≡ set (set (set (set to.old first (get_or from.now at (pos 0))) (first + 1) (get_or from.now (at + 1) (pos 0)))
        (first + 2) (get_or from.now (at + step) (pos 0))) (first + 3) (get_or from.now (at + step + 1) (pos 0)) }
{
    let a = from[at];
    let b = from[at + 1];
    let c = from[at + step];
    let d = from[at + step + 1];
    to[first] = a;
    to[first + 1] = b;
    to[first + 2] = c;
    to[first + 3] = d;
}

// Fills the first 4^n entries of the output, from the front, four at a time: four linear places lie in two rows.
fn fill_linear(n: u32, from: &[i32], to: &mut [i32])
    requires { (2 ≤ n) × (n ≤ 16) × (length from.now ≡ 4 ^ n) × (4 ^ n ≤ length to.old) }
    ensures { to.new ≡ lent_after (Ok tt) (linearly n from.now) to.old }
{
    let entries = tables::gather_table();
    let side = side_of(n);
    for q in (0..from.len()).step_by(4) {
        let p = separate(&entries, n, Linear(q as u32));
        copy_four(from, p.0 as usize, side, to, q);
    }
}

// The same for raster places: four of them lie in one row, and so in two fours of linear places.
fn fill_raster(n: u32, from: &[i32], to: &mut [i32])
    requires { (2 ≤ n) × (n ≤ 16) × (length from.now ≡ 4 ^ n) × (4 ^ n ≤ length to.old) }
    ensures { to.new ≡ lent_after (Ok tt) (rasterly n from.now) to.old }
{
    let entries = tables::spread_table();
    for p in (0..from.len()).step_by(4) {
        let q = interleave(&entries, n, Raster(p as u32));
        copy_four(from, q.0 as usize, 4, to, p);
    }
}

// A whole array in the other order.
pub fn reorder_to_linear(n: u32, from: &[i32], to: &mut [i32]) -> Result<(), Refusal>
    ensures { (result ≡ first_failing (reorder_checks n (length from.now) (length to.old)))
        × (to.new ≡ lent_after result (linearly n from.now) to.old) }
{
    check_arrays(n, from.len(), to.len())?;
    fill_linear(n, from, to);
    Ok(())
}

pub fn reorder_to_raster(n: u32, from: &[i32], to: &mut [i32]) -> Result<(), Refusal>
    ensures { (result ≡ first_failing (reorder_checks n (length from.now) (length to.old)))
        × (to.new ≡ lent_after result (rasterly n from.now) to.old) }
{
    check_arrays(n, from.len(), to.len())?;
    fill_raster(n, from, to);
    Ok(())
}
