// The static library for programs in C: `include/txp.h` declares these calls. Each is the call of `ctxp` of its name, under the same clauses.
// Each gives back the number of the refusal, 0 where it was done, and puts every other number into the lent answer.
// Kept: a second list of these calls, since an export has a name and a form of its own.
#![tactic(auto)]

ghost use Rattle.std.specs.Prelude.{◌≡◌, ◌&&◌, cond, length};
ghost use Rattle.refusals.specs.Checks.{first_failing, lent_after};
ghost use Rattle.sizes.specs.Sizes.{side_fits, levels_fit, all_of, coarsest_of};
ghost use Rattle.bits.specs.Bits.{bit, digit, with_bit};
ghost use Rattle.view.specs.View.{viewed};
ghost use Rattle.places.specs.Order as order;
ghost use Rattle.places.specs.Answers.{place_checks, reorder_checks, raster_if, linear_if};
ghost use Rattle.coef.specs.Coef as coefficient;
ghost use Rattle.tree.specs.Summaries.{summary_checks, desc_table, grand_table};
ghost use Rattle.figures.specs.Figures.{figures_of, figures_checks, answered, all_figures, all_figures_checks};
ghost use Rattle.room.specs.Room as room;
ghost use Rattle.nls.specs.Reading.{lower, midpoint};
ghost use Rattle.encoder.specs.Body.{loan};
ghost use Rattle.decoder.specs.Body.{tables};
ghost use Rattle.txp.specs.Header.{header_of};
ghost use Rattle.txp.specs.Calls.{header_checks, header_answer};
ghost use Rattle.ctxp.specs.Answers.{blank, of_value, of_planes, of_outcome, of_header, of_worst, of_figures, of_linear, of_raster, of_parted, of_joined, of_float, of_next, Answers};
ghost use Rattle.ctxp.specs.Lent.{as_bool, signed_of, joined_in, float_in, FileEncoded, BodyEncoded, FileDecoded, BodyDecoded, Started, Forwarded, Backed, Turned, Transformed, Restored};

// ---- the file

// Writes the file of a linear array of coefficients.
#[unsafe(no_mangle)]
pub extern "C" fn txp_encode(
    n: u32,
    l: u32,
    coefs: &[i32],
    desc: &mut [u32],
    grand: &mut [u32],
    marks: &mut [u8],
    out: &mut [u8],
    budget: u32,
    answer: &mut [u32; 16],
) -> u32
    ensures { FileEncoded n l coefs.now budget (loan desc.old grand.old marks.old out.old) result answer.new (loan desc.new grand.new marks.new out.new) }
{
    ctxp::txp_encode(n, l, coefs, desc, grand, marks, out, budget, answer)
}

// Reads a file, whole or cut: known bits stand for themselves.
#[unsafe(no_mangle)]
pub extern "C" fn txp_decode(
    file: &[u8],
    values: &mut [i32],
    precisions: &mut [u8],
    marks: &mut [u8],
    answer: &mut [u32; 16],
) -> u32
    ensures { FileDecoded lower file.now (tables values.old precisions.old marks.old) result answer.new (tables values.new precisions.new marks.new) }
{
    ctxp::txp_decode(file, values, precisions, marks, answer)
}

// The same, values by the midpoint.
#[unsafe(no_mangle)]
pub extern "C" fn txp_decode_midpoint(
    file: &[u8],
    values: &mut [i32],
    precisions: &mut [u8],
    marks: &mut [u8],
    answer: &mut [u32; 16],
) -> u32
    ensures { FileDecoded midpoint file.now (tables values.old precisions.old marks.old) result answer.new (tables values.new precisions.new marks.new) }
{
    ctxp::txp_decode_midpoint(file, values, precisions, marks, answer)
}

// What the header of a file says.
#[unsafe(no_mangle)]
pub extern "C" fn txp_header(file: &[u8], answer: &mut [u32; 16]) -> u32
    ensures { Answers result answer.new (of_header (header_answer (first_failing (header_checks file.now)) (header_of file.now))) }
{
    ctxp::txp_header(file, answer)
}

// ---- the body

// The most bits that a body of this N, L and P can have.
#[unsafe(no_mangle)]
pub extern "C" fn txp_worst_body(n: u32, l: u32, p: u32, answer: &mut [u32; 16]) -> u32
    ensures { Answers result answer.new (of_worst (room.worst_answer n l p (first_failing (room.worst_checks n l p)))) }
{
    ctxp::txp_worst_body(n, l, p, answer)
}

// Writes the body of a linear array of coefficients from `offset` on.
#[unsafe(no_mangle)]
pub extern "C" fn txp_encode_body(
    n: u32,
    l: u32,
    coefs: &[i32],
    desc: &mut [u32],
    grand: &mut [u32],
    marks: &mut [u8],
    out: &mut [u8],
    offset: usize,
    budget: u32,
    answer: &mut [u32; 16],
) -> u32
    ensures { BodyEncoded n l coefs.now offset budget (loan desc.old grand.old marks.old out.old) result answer.new (loan desc.new grand.new marks.new out.new) }
{
    ctxp::txp_encode_body(n, l, coefs, desc, grand, marks, out, offset, budget, answer)
}

// Reads the first `declared` bits of a body, or all that it has: known bits stand for themselves.
#[unsafe(no_mangle)]
pub extern "C" fn txp_decode_body(
    n: u32,
    l: u32,
    p: u32,
    body: &[u8],
    declared: u32,
    values: &mut [i32],
    precisions: &mut [u8],
    marks: &mut [u8],
    answer: &mut [u32; 16],
) -> u32
    ensures { BodyDecoded lower n l p declared body.now (tables values.old precisions.old marks.old) result answer.new (tables values.new precisions.new marks.new) }
{
    ctxp::txp_decode_body(n, l, p, body, declared, values, precisions, marks, answer)
}

// The same, values by the midpoint.
#[unsafe(no_mangle)]
pub extern "C" fn txp_decode_body_midpoint(
    n: u32,
    l: u32,
    p: u32,
    body: &[u8],
    declared: u32,
    values: &mut [i32],
    precisions: &mut [u8],
    marks: &mut [u8],
    answer: &mut [u32; 16],
) -> u32
    ensures { BodyDecoded midpoint n l p declared body.now (tables values.old precisions.old marks.old) result answer.new (tables values.new precisions.new marks.new) }
{
    ctxp::txp_decode_body_midpoint(n, l, p, body, declared, values, precisions, marks, answer)
}

// ---- the stepped decoder

// The record and the tables before the first bit of a body.
#[unsafe(no_mangle)]
pub extern "C" fn txp_start(
    dial: &mut [u32; 8],
    n: u32,
    l: u32,
    p: u32,
    values: &mut [i32],
    precisions: &mut [u8],
    marks: &mut [u8],
    answer: &mut [u32; 16],
) -> u32
    ensures { Started n l p dial.old (tables values.old precisions.old marks.old) result answer.new dial.new (tables values.new precisions.new marks.new) }
{
    ctxp::txp_start(dial, n, l, p, values, precisions, marks, answer)
}

// One bit forward.
#[unsafe(no_mangle)]
pub extern "C" fn txp_forward(
    dial: &mut [u32; 8],
    body: &[u8],
    declared: u32,
    values: &mut [i32],
    precisions: &mut [u8],
    marks: &mut [u8],
    answer: &mut [u32; 16],
) -> u32
    ensures { Forwarded declared body.now dial.old (tables values.old precisions.old marks.old) result answer.new dial.new (tables values.new precisions.new marks.new) }
{
    ctxp::txp_forward(dial, body, declared, values, precisions, marks, answer)
}

// One bit back.
#[unsafe(no_mangle)]
pub extern "C" fn txp_back(
    dial: &mut [u32; 8],
    body: &[u8],
    declared: u32,
    values: &mut [i32],
    precisions: &mut [u8],
    marks: &mut [u8],
    answer: &mut [u32; 16],
) -> u32
    ensures { Backed declared body.now dial.old (tables values.old precisions.old marks.old) result answer.new dial.new (tables values.new precisions.new marks.new) }
{
    ctxp::txp_back(dial, body, declared, values, precisions, marks, answer)
}

// To a number of bits used, forward or back.
#[unsafe(no_mangle)]
pub extern "C" fn txp_turn(
    dial: &mut [u32; 8],
    body: &[u8],
    declared: u32,
    to: u32,
    values: &mut [i32],
    precisions: &mut [u8],
    marks: &mut [u8],
    answer: &mut [u32; 16],
) -> u32
    ensures { Turned declared to body.now dial.old (tables values.old precisions.old marks.old) result answer.new dial.new (tables values.new precisions.new marks.new) }
{
    ctxp::txp_turn(dial, body, declared, to, values, precisions, marks, answer)
}

// ---- the transform

// The coefficients of a square of samples.
#[unsafe(no_mangle)]
pub extern "C" fn txp_transform(
    n: u32,
    l: u32,
    samples: &[i32],
    coefs: &mut [i32],
    work: &mut [i32],
    answer: &mut [u32; 16],
) -> u32
    ensures { Transformed n l samples.now coefs.old work.old result answer.new coefs.new work.new }
{
    ctxp::txp_transform(n, l, samples, coefs, work, answer)
}

// The samples that these coefficients are of.
#[unsafe(no_mangle)]
pub extern "C" fn txp_restore(
    n: u32,
    l: u32,
    coefs: &[i32],
    samples: &mut [i32],
    work: &mut [i32],
    answer: &mut [u32; 16],
) -> u32
    ensures { Restored n l coefs.now samples.old work.old result answer.new samples.new work.new }
{
    ctxp::txp_restore(n, l, coefs, samples, work, answer)
}

// ---- summaries and figures

// Fills DESC and GRAND.
#[unsafe(no_mangle)]
pub extern "C" fn txp_summaries(
    n: u32,
    l: u32,
    coefs: &[i32],
    desc: &mut [u32],
    grand: &mut [u32],
    answer: &mut [u32; 16],
) -> u32
    ensures answer { Answers result answer.new (of_outcome (first_failing (summary_checks n l coefs.now (length desc.old) (length grand.old)))) }
    ensures descs { desc.new ≡ lent_after (first_failing (summary_checks n l coefs.now (length desc.old) (length grand.old))) (desc_table n l coefs.now) desc.old }
    ensures grands { grand.new ≡ lent_after (first_failing (summary_checks n l coefs.now (length desc.old) (length grand.old))) (grand_table n l coefs.now) grand.old }
{
    ctxp::txp_summaries(n, l, coefs, desc, grand, answer)
}

// The figures of one plane. Fills DESC and GRAND on the way.
#[unsafe(no_mangle)]
pub extern "C" fn txp_figures(
    n: u32,
    l: u32,
    values: &[i32],
    plane: u32,
    desc: &mut [u32],
    grand: &mut [u32],
    answer: &mut [u32; 16],
) -> u32
    ensures answer { Answers result answer.new (of_figures (answered (first_failing (figures_checks n l values.now (length desc.old) (length grand.old) plane)) (figures_of n l values.now plane))) }
    ensures descs { desc.new ≡ lent_after (first_failing (figures_checks n l values.now (length desc.old) (length grand.old) plane)) (desc_table n l values.now) desc.old }
    ensures grands { grand.new ≡ lent_after (first_failing (figures_checks n l values.now (length desc.old) (length grand.old) plane)) (grand_table n l values.now) grand.old }
{
    ctxp::txp_figures(n, l, values, plane, desc, grand, answer)
}

// The figures of all planes, 0 to 23: the summaries are filled once.
#[unsafe(no_mangle)]
pub extern "C" fn txp_figures_all(
    n: u32,
    l: u32,
    values: &[i32],
    desc: &mut [u32],
    grand: &mut [u32],
    out: &mut [u32],
    answer: &mut [u32; 16],
) -> u32
    ensures answer { Answers result answer.new (of_outcome (first_failing (all_figures_checks n l values.now (length desc.old) (length grand.old) (length out.old)))) }
    ensures descs { desc.new ≡ lent_after (first_failing (all_figures_checks n l values.now (length desc.old) (length grand.old) (length out.old))) (desc_table n l values.now) desc.old }
    ensures grands { grand.new ≡ lent_after (first_failing (all_figures_checks n l values.now (length desc.old) (length grand.old) (length out.old))) (grand_table n l values.now) grand.old }
    ensures outs { out.new ≡ lent_after (first_failing (all_figures_checks n l values.now (length desc.old) (length grand.old) (length out.old))) (all_figures n l values.now) out.old }
{
    ctxp::txp_figures_all(n, l, values, desc, grand, out, answer)
}

// ---- places

// A whole raster array in linear order.
#[unsafe(no_mangle)]
pub extern "C" fn txp_to_linear(n: u32, from: &[i32], to: &mut [i32], answer: &mut [u32; 16]) -> u32
    ensures answer { Answers result answer.new (of_outcome (first_failing (reorder_checks n (length from.now) (length to.old)))) }
    ensures reordered { to.new ≡ lent_after (first_failing (reorder_checks n (length from.now) (length to.old))) (order.linearly n from.now) to.old }
{
    ctxp::txp_to_linear(n, from, to, answer)
}

// A whole linear array in raster order.
#[unsafe(no_mangle)]
pub extern "C" fn txp_to_raster(n: u32, from: &[i32], to: &mut [i32], answer: &mut [u32; 16]) -> u32
    ensures answer { Answers result answer.new (of_outcome (first_failing (reorder_checks n (length from.now) (length to.old)))) }
    ensures reordered { to.new ≡ lent_after (first_failing (reorder_checks n (length from.now) (length to.old))) (order.rasterly n from.now) to.old }
{
    ctxp::txp_to_raster(n, from, to, answer)
}

// The linear place of a raster place.
#[unsafe(no_mangle)]
pub extern "C" fn txp_linear_place(n: u32, place: u32, answer: &mut [u32; 16]) -> u32
    ensures { Answers result answer.new (of_linear (linear_if (first_failing (place_checks n place)) (order.to_linear n place))) }
{
    ctxp::txp_linear_place(n, place, answer)
}

// The raster place of a linear place.
#[unsafe(no_mangle)]
pub extern "C" fn txp_raster_place(n: u32, place: u32, answer: &mut [u32; 16]) -> u32
    ensures { Answers result answer.new (of_raster (raster_if (first_failing (place_checks n place)) (order.to_raster n place))) }
{
    ctxp::txp_raster_place(n, place, answer)
}

// ---- coefficients

// The planes of an array.
#[unsafe(no_mangle)]
pub extern "C" fn txp_planes(coefs: &[i32], answer: &mut [u32; 16]) -> u32
    ensures { Answers result answer.new (of_planes (coefficient.planes_of coefs.now)) }
{
    ctxp::txp_planes(coefs, answer)
}

// Whether x is below 0: 1 or 0.
#[unsafe(no_mangle)]
pub extern "C" fn txp_is_negative(x: i32, answer: &mut [u32; 16]) -> u32
    ensures { Answers result answer.new (of_value (digit (coefficient.negative x))) }
{
    ctxp::txp_is_negative(x, answer)
}

// The magnitude of any number.
#[unsafe(no_mangle)]
pub extern "C" fn txp_magnitude(x: i32, answer: &mut [u32; 16]) -> u32
    ensures { Answers result answer.new (of_value (coefficient.magnitude x)) }
{
    ctxp::txp_magnitude(x, answer)
}

// Sign and magnitude of a coefficient.
#[unsafe(no_mangle)]
pub extern "C" fn txp_part(x: i32, answer: &mut [u32; 16]) -> u32
    ensures { Answers result answer.new (of_parted (coefficient.parted_of x)) }
{
    ctxp::txp_part(x, answer)
}

// The coefficient with this sign and magnitude. Any `negative` but 0 says that it is below 0.
#[unsafe(no_mangle)]
pub extern "C" fn txp_join(
    negative: u32,
    magnitude: u32,
    to: &mut i32,
    answer: &mut [u32; 16],
) -> u32
    ensures answer { Answers result answer.new (of_joined (coefficient.joined_of (signed_of negative magnitude))) }
    ensures joined { to.new ≡ joined_in (coefficient.joined_of (signed_of negative magnitude)) to.old }
{
    ctxp::txp_join(negative, magnitude, to, answer)
}

// A coefficient as a float, which is exactly that whole number.
#[unsafe(no_mangle)]
pub extern "C" fn txp_float(x: i32, to: &mut f32, answer: &mut [u32; 16]) -> u32
    ensures answer { Answers result answer.new (of_float (coefficient.float_of x)) }
    ensures floated { to.new ≡ float_in (coefficient.float_of x) to.old }
{
    ctxp::txp_float(x, to, answer)
}

// ---- bits

// Bit b of x: 1 or 0.
#[unsafe(no_mangle)]
pub extern "C" fn txp_bit(x: u32, b: u32, answer: &mut [u32; 16]) -> u32
    ensures { Answers result answer.new (of_value (digit (bit x b))) }
{
    ctxp::txp_bit(x, b, answer)
}

// The bit with number `at` of a body of `declared` bits, or why there is none.
#[unsafe(no_mangle)]
pub extern "C" fn txp_read_bit(
    body: &[u8],
    at: usize,
    declared: usize,
    answer: &mut [u32; 16],
) -> u32
    ensures { Answers result answer.new (of_next (viewed body.now at declared)) }
{
    ctxp::txp_read_bit(body, at, declared, answer)
}

// Puts a bit at number `at` and clears what lies below it in its byte. Any `x` but 0 is a 1.
#[unsafe(no_mangle)]
pub extern "C" fn txp_put_bit(body: &mut [u8], at: usize, x: u32, answer: &mut [u32; 16]) -> u32
    ensures answer { Answers result answer.new blank }
    ensures written { body.new ≡ with_bit body.old at (as_bool x) }
{
    ctxp::txp_put_bit(body, at, x, answer)
}

// ---- sizes

// Whether N is in range: 1 or 0.
#[unsafe(no_mangle)]
pub extern "C" fn txp_side_fits(n: u32, answer: &mut [u32; 16]) -> u32
    ensures { Answers result answer.new (of_value (digit (side_fits n))) }
{
    ctxp::txp_side_fits(n, answer)
}

// Whether N and L are in range: 1 or 0.
#[unsafe(no_mangle)]
pub extern "C" fn txp_levels_fit(n: u32, l: u32, answer: &mut [u32; 16]) -> u32
    ensures { Answers result answer.new (of_value (digit (side_fits n && levels_fit n l))) }
{
    ctxp::txp_levels_fit(n, l, answer)
}

// I, the number of coefficients; 0 for an N out of range.
#[unsafe(no_mangle)]
pub extern "C" fn txp_all(n: u32, answer: &mut [u32; 16]) -> u32
    ensures { Answers result answer.new (of_value (cond (side_fits n) (all_of n) 0)) }
{
    ctxp::txp_all(n, answer)
}

// D, the size of the coarsest band; 0 for sizes out of range.
#[unsafe(no_mangle)]
pub extern "C" fn txp_coarsest(n: u32, l: u32, answer: &mut [u32; 16]) -> u32
    ensures { Answers result answer.new (of_value (cond (side_fits n && levels_fit n l) (coarsest_of n l) 0)) }
{
    ctxp::txp_coarsest(n, l, answer)
}
