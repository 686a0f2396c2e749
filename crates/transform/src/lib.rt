// The reversible integer S transform, both ways. Samples are put into linear order once; then a level is one walk over blocks (`blocks`), and the next is of the first quarter alone.
#![tactic(auto)]

mod blocks;

ghost use Rattle.std.specs.Prelude.{◌≡◌, true, ◌&&◌, ◌∷◌, [], ℕ, ◌≤◌, ◌<◌, leb, nat_abs, length};
ghost use Rattle.std.specs.Int.Signed.{mag};
ghost use Rattle.refusals.specs.Checks.{first_failing};
ghost use Rattle.sizes.specs.Sizes.{all_of, side_fits, levels_fit, limit};
ghost use Rattle.sizes.specs.Tables.{table};
ghost use Rattle.coef.specs.Coef.{at, first_over};
ghost use Rattle.transform.specs.Transform.{coefficients_of, samples_of};
ghost use Rattle.transform.specs.Answers.{most_sample, is_sample, first_outside, transform_checks, entry_checks, restored_check, restored_of, all_zero, Transforms, Restores};
ghost use Rattle.transform.specs.Quads.{downs, ups, onward};

use refusals::Refusal;

// The least and the largest sample.
const LEAST_SAMPLE: i32 = -32768;

const MOST_SAMPLE: i32 = 32767;

// Whether a number is a sample.
fn is_sample(x: i32) -> bool
    ensures { result ≡ is_sample x }
{
    (LEAST_SAMPLE..=MOST_SAMPLE).contains(&x)
}

// The first place of a number that is no sample, or the length where there is none.
fn first_outside(a: &[i32]) -> usize
    ensures { result ≡ first_outside a.now }
{
    a.iter().position(|&x| !is_sample(x)).unwrap_or(a.len())
}

// The first entries of an array, in another.
// Kept: a loop, since a call of `copy_from_slice` makes the library ask others for `memmove`.
fn copy_head(count: usize, from: &[i32], to: &mut [i32])
    requires { (count ≤ length from.now) × (count ≤ length to.old) }
    ensures { at to.new ≡ onward count (at from.now) (at to.old) }
{
    for i in 0..count {
        to[i] = from[i];
    }
}

// All levels: the work table holds the samples in linear order.
fn levels_down(n: u32, l: u32, work: &mut [i32], out: &mut [i32])
    requires { (side_fits n ≡ true) × (levels_fit n l ≡ true) × (length work.old ≡ all_of n) × (length out.old ≡ all_of n) × ((i : ℕ) → mag (at work.old i) ≤ most_sample) }
    ensures { out.new ≡ table (all_of n) (downs n l (at work.old)) }
{
    let mut quarter = sizes::all_of(n);
    for _ in 0..l {
        quarter = quarter / 4;
        blocks::level_down(quarter, work, out);
    }
    copy_head(quarter, work, out);
}

// All levels back: the work table ends with the samples in linear order.
fn levels_up(n: u32, l: u32, from: &[i32], work: &mut [i32])
    requires { (side_fits n ≡ true) × (levels_fit n l ≡ true) × (length from.now ≡ all_of n) × (length work.old ≡ all_of n) × ((i : ℕ) → nat_abs (at from.now i) ≤ limit) }
    ensures { work.new ≡ table (all_of n) (ups n l (at from.now)) }
{
    let mut quarter = sizes::coarsest_of(n, l);
    copy_head(quarter, from, work);
    for _ in 0..l {
        blocks::level_up(quarter, from, work);
        quarter = 4 * quarter;
    }
}

// The coefficients of samples in range.
fn transform(n: u32, l: u32, samples: &[i32], out: &mut [i32], work: &mut [i32])
    requires { (side_fits n ≡ true) × (levels_fit n l ≡ true) × (length samples.now ≡ all_of n) × (length out.old ≡ all_of n) × (length work.old ≡ all_of n) × (first_outside samples.now ≡ length samples.now) }
    ensures result { out.new ≡ coefficients_of n l samples.now }
    ensures cleared { work.new ≡ all_zero n }
{
    let _ = places::reorder_to_linear(n, samples, work);
    levels_down(n, l, work, out);
    work.fill(0);
}

// The samples of coefficients within the limit, or zeros where one of them is out of range.
fn restore(n: u32, l: u32, coefs: &[i32], out: &mut [i32], work: &mut [i32]) -> Result<(), Refusal>
    requires { (side_fits n ≡ true) × (levels_fit n l ≡ true) × (length coefs.now ≡ all_of n) × (length out.old ≡ all_of n) × (length work.old ≡ all_of n) × (first_over coefs.now ≡ length coefs.now) }
    ensures answer { result ≡ first_failing (restored_check (samples_of n l coefs.now) ∷ []) }
    ensures result { out.new ≡ restored_of n l coefs.now }
    ensures cleared { work.new ≡ all_zero n }
{
    levels_up(n, l, coefs, work);
    let _ = places::reorder_to_raster(n, &work[..], out);
    work.fill(0);
    if first_outside(&out[..]) == out.len() {
        return Ok(());
    }
    out.fill(0);
    Err(Refusal::Restored)
}

// Whether both lent arrays have an entry for each place.
fn has_room(all: usize, out: usize, work: usize) -> bool
    ensures { result ≡ (leb all out && leb all work) }
{
    all <= out && all <= work
}

// The checks of the transform.
fn check_forward(n: u32, l: u32, samples: &[i32], out: usize, work: usize) -> Result<(), Refusal>
    ensures { result ≡ first_failing (transform_checks n l samples.now out work) }
{
    sizes::check_sizes(n, l, samples.len())?;
    if !has_room(samples.len(), out, work) {
        return Err(Refusal::Lent);
    }
    let outside = first_outside(samples);
    if outside < samples.len() {
        return Err(Refusal::Sample(outside as u32));
    }
    Ok(())
}

// The checks of the inverse before anything is touched: all but the last.
fn check_inverse(n: u32, l: u32, coefs: &[i32], out: usize, work: usize) -> Result<(), Refusal>
    ensures { result ≡ first_failing (entry_checks n l coefs.now out work) }
{
    sizes::check_sizes(n, l, coefs.len())?;
    let over = coef::first_over(coefs);
    if over < coefs.len() {
        return Err(Refusal::Coefficient(over as u32));
    }
    if !has_room(coefs.len(), out, work) {
        return Err(Refusal::Lent);
    }
    Ok(())
}

// The coefficients of a square of samples: L levels, rows then columns at each. Samples in raster order, coefficients in linear.
pub fn forward(
    n: u32,
    l: u32,
    samples: &[i32],
    out: &mut [i32],
    work: &mut [i32],
) -> Result<(), Refusal>
    ensures { Transforms n l samples.now out.old work.old result out.new work.new }
{
    check_forward(n, l, samples, out.len(), work.len())?;
    let all = sizes::all_of(n);
    transform(n, l, samples, &mut out[..all], &mut work[..all]);
    Ok(())
}

// The samples that these coefficients are of: the coarsest level is undone first, columns then rows at each.
pub fn inverse(
    n: u32,
    l: u32,
    coefs: &[i32],
    out: &mut [i32],
    work: &mut [i32],
) -> Result<(), Refusal>
    ensures { Restores n l coefs.now out.old work.old result out.new work.new }
{
    check_inverse(n, l, coefs, out.len(), work.len())?;
    let all = sizes::all_of(n);
    restore(n, l, coefs, &mut out[..all], &mut work[..all])
}
