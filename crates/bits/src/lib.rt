// Bits of a number, and of a byte slice: there the highest bit of each byte comes first.
#![tactic(auto)]

ghost use Rattle.std.specs.Prelude.{◌≡◌, ◌-◌, ◌%◌};
ghost use Rattle.bits.specs.Bits.{bit, fetched, byte_with, with_bit};

// Why there are no more bits: the declared count is reached, or the body is short of it.
#[derive(Clone, Copy)]
pub enum Why {
    Declared,
    Short,
}

// Bit b of x.
pub fn bit_of(x: u32, b: u32) -> bool
    ensures { result ≡ bit x b }
{
    if b < 32 {
        return (x >> b) % 2 == 1;
    }
    false
}

// The bit with number `at`, from the byte that holds it.
pub fn bit_in(byte: u8, at: usize) -> bool
    ensures { result ≡ bit byte (7 - at % 8) }
{
    ((byte as u32) >> (7 - at % 8)) % 2 == 1
}

// The bit with number `at`, or that there is none and why: past its last byte a body is short.
pub fn fetch(body: &[u8], at: usize) -> Result<bool, Why>
    ensures { result ≡ fetched body.now at }
{
    let byte = at / 8;
    if byte < body.len() {
        return Ok(bit_in(body[byte], at));
    }
    Err(Why::Short)
}

// The byte that holds the bit with number `at`, with x put there: what lies above stays, what lies below is 0.
pub fn with_bit(held: u8, at: usize, x: bool) -> u8
    ensures { result ≡ byte_with held (at % 8) x }
{
    let down = 7 - at % 8;
    ((((held as u32) >> down) / 2 * 2 + (x as u32)) << down) as u8
}

// Puts a bit at number `at` and clears what lies below it in its byte. Past the end it does nothing.
pub fn put(body: &mut [u8], at: usize, x: bool)
    ensures { body.new ≡ with_bit body.old at x }
{
    let byte = at / 8;
    if byte < body.len() {
        let held = body[byte];
        body[byte] = with_bit(held, at, x);
    }
}
