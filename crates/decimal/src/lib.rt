// Whole numbers as text: their characters to base 10, put into a lent buffer as far as there is room.
#![tactic(auto)]

ghost use Rattle.std.specs.Prelude.{◌+◌, ◌≤◌, ◌<◌, ◌≡◌, length, set};
ghost use Rattle.std.proofs.lemmas.List.Edits.{sets};
ghost use Rattle.decimal.specs.Decimal.{figure, minus, decimal, signed_decimal};

// The minus sign.
const MINUS: u8 = 0x2D;

// Puts a character at entry at + k; past the end it does nothing. No sum is made before it is known to be below the length.
fn put_at(out: &mut [u8], at: usize, k: usize, x: u8)
    ensures { out.new ≡ set out.old (at + k) x }
{
    if at < out.len() {
        if k < out.len() - at {
            out[at + k] = x;
        }
    }
}

// The character of a digit.
fn figure_of(x: u32) -> u8
    requires { x < 10 }
    ensures { result ≡ figure x }
{
    (x + 48) as u8
}

// How many digits a number has.
fn count(x: u32) -> usize
    ensures { result ≡ length (decimal x) }
{
    let mut digits: usize = 1;
    let mut left = x;
    while 10 <= left {
        left = left / 10;
        digits += 1;
    }
    digits
}

// Puts the digits of a number from entry at + before on, the lowest first, and answers how many there are.
fn put_behind(out: &mut [u8], at: usize, before: usize, x: u32) -> usize
    requires { before ≤ 1 }
    ensures { (result ≡ length (decimal x)) × (out.new ≡ sets out.old (at + before) (decimal x)) }
{
    let digits = count(x);
    let mut k = digits;
    let mut left = x;
    while 10 <= left {
        k -= 1;
        put_at(out, at, before + k, figure_of(left % 10));
        left = left / 10;
    }
    put_at(out, at, before, figure_of(left));
    digits
}

// Puts the digits of a number from entry `at` on, as far as there is room, and answers how many there are.
pub fn put(out: &mut [u8], at: usize, x: u32) -> usize
    ensures { (result ≡ length (decimal x)) × (out.new ≡ sets out.old at (decimal x)) }
{
    put_behind(out, at, 0, x)
}

// The same of a number with a sign: a minus sign stands before the digits where it is below 0. The least number is taken too.
pub fn put_signed(out: &mut [u8], at: usize, x: i32) -> usize
    ensures { (result ≡ length (signed_decimal x)) × (out.new ≡ sets out.old at (signed_decimal x)) }
{
    if coef::is_negative(x) {
        put_at(out, at, 0, MINUS);
        return put_behind(out, at, 1, coef::magnitude(x)) + 1;
    }
    put_behind(out, at, 0, coef::magnitude(x))
}
