// The calls, each by the letter of its cases: tests/VECTORS.md has the table.
use crate::tables::Tables;
use crate::{stepping, transforming};

// A case: its letter, and the numbers and arrays that go in.
#[derive(Clone, Copy)]
pub struct Case<'a> {
    pub letter: u8,
    pub numbers: [u32; 4],
    pub ints: &'a [i32],
    pub file: &'a [u8],
}

// The first number, 0 where there is none.
fn first(ints: &[i32]) -> i32 {
    ints.first().copied().unwrap_or(0)
}

// A float's bit pattern. A float that is no number has none here; the answer is then one that is not a number's.
fn pattern_of(x: f32) -> u32 {
    if x.is_nan() { u32::MAX } else { x.to_bits() }
}

// A coefficient as a float; the pattern of the float, at first a half, is put into the first entry of `to`.
fn float(x: i32, to: &mut [u32], answer: &mut [u32; 16]) -> u32 {
    let mut value = 0.5f32;
    let result = ctxp::txp_float(x, &mut value, answer);
    if let Some(pattern) = to.first_mut() {
        *pattern = pattern_of(value);
    }
    result
}

// The coefficient of a sign and a magnitude, put into the first entry of `to`.
fn join(negative: u32, magnitude: u32, to: &mut [i32], answer: &mut [u32; 16]) -> u32 {
    let mut x = first(to);
    let result = ctxp::txp_join(negative, magnitude, &mut x, answer);
    if let Some(coef) = to.first_mut() {
        *coef = x;
    }
    result
}

// The call of a case, on tables of its lengths; none if no call has its letter.
pub fn call(case: Case<'_>, lent: &mut Tables<'_>, answer: &mut [u32; 16]) -> Option<u32> {
    let Case {
        letter,
        numbers: [a, b, c, d],
        ints,
        file,
    } = case;
    Some(match letter {
        b'E' => ctxp::txp_encode(
            a, b, ints, lent.desc, lent.grand, lent.marks, lent.bytes, c, answer,
        ),
        b'B' => ctxp::txp_encode_body(
            a, b, ints, lent.desc, lent.grand, lent.marks, lent.bytes, c as usize, d, answer,
        ),
        b'D' => ctxp::txp_decode(file, lent.values, lent.bytes, lent.marks, answer),
        b'd' => ctxp::txp_decode_midpoint(file, lent.values, lent.bytes, lent.marks, answer),
        b'C' => ctxp::txp_decode_body(
            a,
            b,
            c,
            file,
            d,
            lent.values,
            lent.bytes,
            lent.marks,
            answer,
        ),
        b'c' => ctxp::txp_decode_body_midpoint(
            a,
            b,
            c,
            file,
            d,
            lent.values,
            lent.bytes,
            lent.marks,
            answer,
        ),
        b'Y' | b'f' | b'b' | b't' => stepping::call(case, lent, answer),
        b'S' => ctxp::txp_summaries(a, b, ints, lent.desc, lent.grand, answer),
        b'G' => ctxp::txp_figures(a, b, ints, c, lent.desc, lent.grand, answer),
        b'O' => ctxp::txp_to_linear(a, ints, lent.values, answer),
        b'Q' => ctxp::txp_to_raster(a, ints, lent.values, answer),
        b'x' | b'r' => transforming::call(case, lent, answer),
        b'J' => join(a, b, lent.values, answer),
        b'F' => float(first(ints), lent.desc, answer),
        b'U' => ctxp::txp_put_bit(lent.bytes, a as usize, b, answer),
        b'P' => ctxp::txp_planes(ints, answer),
        b'N' => ctxp::txp_is_negative(first(ints), answer),
        b'M' => ctxp::txp_magnitude(first(ints), answer),
        b'T' => ctxp::txp_part(first(ints), answer),
        b'V' => ctxp::txp_read_bit(file, a as usize, b as usize, answer),
        b'H' => ctxp::txp_header(file, answer),
        b'W' => ctxp::txp_worst_body(a, b, c, answer),
        b'I' => ctxp::txp_linear_place(a, b, answer),
        b'R' => ctxp::txp_raster_place(a, b, answer),
        b'X' => ctxp::txp_bit(a, b, answer),
        b'K' => ctxp::txp_side_fits(a, answer),
        b'L' => ctxp::txp_levels_fit(a, b, answer),
        b'A' => ctxp::txp_all(a, answer),
        b'Z' => ctxp::txp_coarsest(a, b, answer),
        _ => return None,
    })
}
