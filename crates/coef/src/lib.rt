// Coefficients: sign and magnitude, the limit, planes, the float.
#![tactic(auto)]

ghost use Rattle.std.specs.Prelude.{◌≡◌, map, ◌≤◌, ◌<◌, ◌^◌, eqb, length};
ghost use Rattle.sizes.specs.Sizes.{limit};
ghost use Rattle.bits.specs.Bits.{or_all};
ghost use Rattle.coef.specs.Coef.{negative, magnitude, signed, within, parted_of, joined_of, first_over, over_by, IsPlanes, float_of, Exactly};

use refusals::Refusal;
use sizes::LIMIT;

#[derive(Clone, Copy)]
pub struct Signed {
    pub negative: bool,
    pub magnitude: u32,
}

// The least and the largest coefficient: the limit, with a sign.
const LEAST_COEFFICIENT: i32 = -16777215;

const MOST_COEFFICIENT: i32 = 16777215;

// Whether x is below 0.
pub fn is_negative(x: i32) -> bool
    ensures { result ≡ negative x }
{
    x < 0
}

// The magnitude of a number that has a negative in its type.
// Kept: document 01 names this form, a checked negation behind the limit (docs/DECISIONS.md, "Named forms").
fn negated_if_below(x: i32) -> u32
    requires { magnitude x < 2 ^ 31 }
    ensures { result ≡ magnitude x }
{
    if x < 0 {
        return (-x) as u32;
    }
    x as u32
}

// The magnitude of any number, also of the least one, which has no negative in its type.
pub fn magnitude(x: i32) -> u32
    ensures { result ≡ magnitude x }
{
    x.unsigned_abs()
}

// Whether a coefficient is within the limit. Nothing is negated, since the least number has no negative in its type.
fn is_within(x: i32) -> bool
    ensures { result ≡ within x }
{
    (LEAST_COEFFICIENT..=MOST_COEFFICIENT).contains(&x)
}

// Sign and magnitude of a coefficient; none where it is over the limit, which is seen before any negation, of the least number too.
pub fn part_of(x: i32) -> Option<Signed>
    ensures { result ≡ parted_of x }
{
    if !is_within(x) {
        return None;
    }
    let size = negated_if_below(x);
    Some(Signed {
        negative: x < 0,
        magnitude: size,
    })
}

// A magnitude within the limit, with a sign.
fn with_sign(below: bool, size: u32) -> i32
    requires { size ≤ limit }
    ensures { result ≡ signed below size }
{
    let value = size as i32;
    if below {
        return -value;
    }
    value
}

// The coefficient with this sign and magnitude; none where that is over the limit.
pub fn join_of(s: Signed) -> Option<i32>
    ensures { result ≡ joined_of s }
{
    let size = s.magnitude;
    if size <= LIMIT {
        return Some(with_sign(s.negative, size));
    }
    None
}

// Whether every coefficient is within the limit. The walk has no early end and no branch, so that several entries are taken at a time.
fn all_within(a: &[i32]) -> bool
    ensures { result ≡ eqb (first_over a.now) (length a.now) }
{
    a.iter().fold(true, |all, &x| all & is_within(x))
}

// The same as `first_over`, one coefficient after the other, which is met on refused inputs alone.
// A call of its own: inlined into the encoder, the loop also counts up the refusal beside the place, at two instructions more a coefficient.
#[cold]
#[inline(never)]
fn place_over(a: &[i32]) -> usize
    ensures { result ≡ first_over a.now }
{
    a.iter().position(|&x| !is_within(x)).unwrap_or(a.len())
}

// The first place of a coefficient over the limit, or the length where there is none.
pub fn first_over(a: &[i32]) -> usize
    ensures { result ≡ first_over a.now }
{
    if all_within(a) {
        return a.len();
    }
    place_over(a)
}

// The same for an array whose planes are known: where they are at most those of the limit, no coefficient is looked at.
pub fn first_over_by(a: &[i32], planes: u32) -> usize
    ensures { result ≡ over_by planes a.now }
{
    if planes <= sizes::MOST_PLANES {
        return a.len();
    }
    first_over(a)
}

// The OR of all magnitudes. The walk has no branch, so that several entries are taken at a time.
fn magnitudes_or(a: &[i32]) -> u32
    ensures { result ≡ or_all (map (λ z. magnitude z) a.now) }
{
    a.iter().fold(0, |all, &x| all | magnitude(x))
}

// The planes of an array: the least P with every magnitude below 2^P.
pub fn planes(a: &[i32]) -> u32
    ensures { IsPlanes a.now result }
{
    32 - u32::leading_zeros(magnitudes_or(a))
}

// A coefficient as a float, which is exactly that whole number; 0 gives plus zero.
pub fn float_of(x: i32) -> Result<f32, Refusal>
    ensures { (result ≡ float_of x) × Exactly x result }
{
    if is_within(x) {
        return Ok(x as f32);
    }
    Err(Refusal::Coefficient(0))
}
