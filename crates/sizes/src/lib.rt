// The sizes of document 01, and the checks behind refusals 1 to 3.
#![tactic(auto)]

ghost use Rattle.std.specs.Prelude.{◌≡◌, ◌&&◌, cond, ◌^◌, ◌≤◌, min};
ghost use Rattle.refusals.specs.Checks.{first_failing};
ghost use Rattle.sizes.specs.Sizes.{side_fits, levels_fit, all_of, coarsest_of, most_n};
ghost use Rattle.sizes.specs.Checks.{size_checks};

use refusals::Refusal;

// The least and the largest N.
pub const LEAST_N: u32 = 2;

pub const MOST_N: u32 = 10;

// The largest magnitude of a coefficient.
pub const LIMIT: u32 = 16777215;

// The largest number of planes.
pub const MOST_PLANES: u32 = 24;

// The smaller of two.
pub fn smaller(a: u32, b: u32) -> u32
    ensures { result ≡ min a b }
{
    a.min(b)
}

// Whether N is in range.
pub fn side_fits(n: u32) -> bool
    ensures { result ≡ side_fits n }
{
    if n < LEAST_N {
        return false;
    }
    n <= MOST_N
}

// Whether L is in range for this N.
pub fn levels_fit(n: u32, l: u32) -> bool
    ensures { result ≡ levels_fit n l }
{
    if l < 1 {
        return false;
    }
    l < n
}

// 4^k, where it is no larger than that of the largest side.
fn four_to(k: u32) -> usize
    requires { k ≤ most_n }
    ensures { result ≡ 4 ^ k }
{
    1usize << (k + k)
}

// I, the number of coefficients; 0 for an N out of range.
pub fn all_of(n: u32) -> usize
    ensures { result ≡ cond (side_fits n) (all_of n) 0 }
{
    if side_fits(n) {
        return four_to(n);
    }
    0
}

// D, the size of the coarsest band; 0 for sizes out of range.
pub fn coarsest_of(n: u32, l: u32) -> usize
    ensures { result ≡ cond (side_fits n && levels_fit n l) (coarsest_of n l) 0 }
{
    if side_fits(n) {
        if levels_fit(n, l) {
            return four_to(n - l);
        }
    }
    0
}

// The refusal of sizes out of range, or of an array that has not an entry for each place.
pub fn check_sizes(n: u32, l: u32, count: usize) -> Result<(), Refusal>
    ensures { result ≡ first_failing (size_checks n l count) }
{
    if !side_fits(n) {
        return Err(Refusal::Side);
    }
    if !levels_fit(n, l) {
        return Err(Refusal::Levels);
    }
    if count != all_of(n) {
        return Err(Refusal::Length);
    }
    Ok(())
}
