// The calls of the base for programs in C. `ctxp_c` exports each under its name, and `include/txp.h` declares them.
// Each gives back the number of the refusal, 0 where it was done, and puts every other number into the lent answer.
// Kept: calls of up to ten parameters, and numbers for refusals, since the C interface lends each table and takes each number alone.
#![tactic(auto)]

mod answers;
mod dials;

ghost use Rattle.std.specs.Prelude.{◌≡◌, ◌&&◌, cond, length};
ghost use Rattle.refusals.specs.Checks.{first_failing, lent_after};
ghost use Rattle.sizes.specs.Sizes.{side_fits, levels_fit, all_of, coarsest_of};
ghost use Rattle.bits.specs.Bits.{bit, digit, with_bit};
ghost use Rattle.view.specs.View.{viewed};
ghost use Rattle.places.specs.Order as order;
ghost use Rattle.places.specs.Answers.{place_checks, reorder_checks, raster_if, linear_if};
ghost use Rattle.coef.specs.Coef as coefficient;
ghost use Rattle.tree.specs.Summaries.{summary_checks, desc_table, grand_table};
ghost use Rattle.figures.specs.Figures.{figures_of, figures_checks, answered, all_figures, all_figures_checks};
ghost use Rattle.room.specs.Room as room;
ghost use Rattle.nls.specs.Reading.{lower, midpoint};
ghost use Rattle.encoder.specs.Body.{loan};
ghost use Rattle.decoder.specs.Body.{tables};
ghost use Rattle.txp.specs.Header.{header_of};
ghost use Rattle.txp.specs.Calls.{header_checks, header_answer};
ghost use Rattle.ctxp.specs.Answers.{blank, of_value, of_planes, of_outcome, of_header, of_worst, of_figures, of_linear, of_raster, of_parted, of_joined, of_float, of_next, Answers};
ghost use Rattle.ctxp.specs.Lent.{as_bool, signed_of, joined_in, float_in, FileEncoded, BodyEncoded, FileDecoded, BodyDecoded, Started, Forwarded, Backed, Turned, Transformed, Restored};

use answers::put;

// ---- the file

// Writes the file of a linear array of coefficients.
pub fn txp_encode(
    n: u32,
    l: u32,
    coefs: &[i32],
    desc: &mut [u32],
    grand: &mut [u32],
    marks: &mut [u8],
    out: &mut [u8],
    budget: u32,
    answer: &mut [u32; 16],
) -> u32
    ensures { FileEncoded n l coefs.now budget (loan desc.old grand.old marks.old out.old) result answer.new (loan desc.new grand.new marks.new out.new) }
{
    let done = txp::encode(n, l, coefs, desc, grand, marks, out, budget);
    put(answer, answers::of_encoded(done))
}

// Reads a file, whole or cut: known bits stand for themselves.
pub fn txp_decode(
    file: &[u8],
    values: &mut [i32],
    precisions: &mut [u8],
    marks: &mut [u8],
    answer: &mut [u32; 16],
) -> u32
    ensures { FileDecoded lower file.now (tables values.old precisions.old marks.old) result answer.new (tables values.new precisions.new marks.new) }
{
    let done = txp::decode(file, values, precisions, marks);
    put(answer, answers::of_decoded(done))
}

// The same, values by the midpoint.
pub fn txp_decode_midpoint(
    file: &[u8],
    values: &mut [i32],
    precisions: &mut [u8],
    marks: &mut [u8],
    answer: &mut [u32; 16],
) -> u32
    ensures { FileDecoded midpoint file.now (tables values.old precisions.old marks.old) result answer.new (tables values.new precisions.new marks.new) }
{
    let done = txp::decode_midpoint(file, values, precisions, marks);
    put(answer, answers::of_decoded(done))
}

// What the header of a file says.
pub fn txp_header(file: &[u8], answer: &mut [u32; 16]) -> u32
    ensures { Answers result answer.new (of_header (header_answer (first_failing (header_checks file.now)) (header_of file.now))) }
{
    let done = txp::read_header(file);
    put(answer, answers::of_header(done))
}

// ---- the body

// The most bits that a body of this N, L and P can have.
pub fn txp_worst_body(n: u32, l: u32, p: u32, answer: &mut [u32; 16]) -> u32
    ensures { Answers result answer.new (of_worst (room.worst_answer n l p (first_failing (room.worst_checks n l p)))) }
{
    let done = room::worst_body(n, l, p);
    put(answer, answers::of_worst(done))
}

// Writes the body of a linear array of coefficients from `offset` on.
pub fn txp_encode_body(
    n: u32,
    l: u32,
    coefs: &[i32],
    desc: &mut [u32],
    grand: &mut [u32],
    marks: &mut [u8],
    out: &mut [u8],
    offset: usize,
    budget: u32,
    answer: &mut [u32; 16],
) -> u32
    ensures { BodyEncoded n l coefs.now offset budget (loan desc.old grand.old marks.old out.old) result answer.new (loan desc.new grand.new marks.new out.new) }
{
    let done = encoder::encode(n, l, coefs, desc, grand, marks, out, offset, budget);
    put(answer, answers::of_written(done))
}

// Reads the first `declared` bits of a body, or all that it has: known bits stand for themselves.
pub fn txp_decode_body(
    n: u32,
    l: u32,
    p: u32,
    body: &[u8],
    declared: u32,
    values: &mut [i32],
    precisions: &mut [u8],
    marks: &mut [u8],
    answer: &mut [u32; 16],
) -> u32
    ensures { BodyDecoded lower n l p declared body.now (tables values.old precisions.old marks.old) result answer.new (tables values.new precisions.new marks.new) }
{
    let done = decoder::decode(n, l, p, body, declared, values, precisions, marks);
    put(answer, answers::of_read(done))
}

// The same, values by the midpoint.
pub fn txp_decode_body_midpoint(
    n: u32,
    l: u32,
    p: u32,
    body: &[u8],
    declared: u32,
    values: &mut [i32],
    precisions: &mut [u8],
    marks: &mut [u8],
    answer: &mut [u32; 16],
) -> u32
    ensures { BodyDecoded midpoint n l p declared body.now (tables values.old precisions.old marks.old) result answer.new (tables values.new precisions.new marks.new) }
{
    let done = decoder::decode_midpoint(n, l, p, body, declared, values, precisions, marks);
    put(answer, answers::of_read(done))
}

// ---- the stepped decoder

// The record and the tables before the first bit of a body.
pub fn txp_start(
    dial: &mut [u32; 8],
    n: u32,
    l: u32,
    p: u32,
    values: &mut [i32],
    precisions: &mut [u8],
    marks: &mut [u8],
    answer: &mut [u32; 16],
) -> u32
    ensures { Started n l p dial.old (tables values.old precisions.old marks.old) result answer.new dial.new (tables values.new precisions.new marks.new) }
{
    let from = dials::dial_of(dial);
    let done = steps::take_start(from, n, l, p, values, precisions, marks);
    let moved = done.dial;
    let said = done.answer;
    dials::put_dial(dial, moved);
    put(answer, answers::of_read(said))
}

// One bit forward.
pub fn txp_forward(
    dial: &mut [u32; 8],
    body: &[u8],
    declared: u32,
    values: &mut [i32],
    precisions: &mut [u8],
    marks: &mut [u8],
    answer: &mut [u32; 16],
) -> u32
    ensures { Forwarded declared body.now dial.old (tables values.old precisions.old marks.old) result answer.new dial.new (tables values.new precisions.new marks.new) }
{
    let from = dials::dial_of(dial);
    let done = steps::take_forward(from, body, declared, values, precisions, marks);
    let moved = done.dial;
    let said = done.answer;
    dials::put_dial(dial, moved);
    put(answer, answers::of_read(said))
}

// One bit back.
pub fn txp_back(
    dial: &mut [u32; 8],
    body: &[u8],
    declared: u32,
    values: &mut [i32],
    precisions: &mut [u8],
    marks: &mut [u8],
    answer: &mut [u32; 16],
) -> u32
    ensures { Backed declared body.now dial.old (tables values.old precisions.old marks.old) result answer.new dial.new (tables values.new precisions.new marks.new) }
{
    let from = dials::dial_of(dial);
    let done = steps::take_back(from, body, declared, values, precisions, marks);
    let moved = done.dial;
    let said = done.answer;
    dials::put_dial(dial, moved);
    put(answer, answers::of_read(said))
}

// To a number of bits used, forward or back.
pub fn txp_turn(
    dial: &mut [u32; 8],
    body: &[u8],
    declared: u32,
    to: u32,
    values: &mut [i32],
    precisions: &mut [u8],
    marks: &mut [u8],
    answer: &mut [u32; 16],
) -> u32
    ensures { Turned declared to body.now dial.old (tables values.old precisions.old marks.old) result answer.new dial.new (tables values.new precisions.new marks.new) }
{
    let from = dials::dial_of(dial);
    let done = steps::take_turn(from, body, declared, to, values, precisions, marks);
    let moved = done.dial;
    let said = done.answer;
    dials::put_dial(dial, moved);
    put(answer, answers::of_read(said))
}

// ---- the transform

// The coefficients of a square of samples.
pub fn txp_transform(
    n: u32,
    l: u32,
    samples: &[i32],
    coefs: &mut [i32],
    work: &mut [i32],
    answer: &mut [u32; 16],
) -> u32
    ensures { Transformed n l samples.now coefs.old work.old result answer.new coefs.new work.new }
{
    let done = transform::forward(n, l, samples, coefs, work);
    put(answer, answers::of_outcome(done))
}

// The samples that these coefficients are of.
pub fn txp_restore(
    n: u32,
    l: u32,
    coefs: &[i32],
    samples: &mut [i32],
    work: &mut [i32],
    answer: &mut [u32; 16],
) -> u32
    ensures { Restored n l coefs.now samples.old work.old result answer.new samples.new work.new }
{
    let done = transform::inverse(n, l, coefs, samples, work);
    put(answer, answers::of_outcome(done))
}

// ---- summaries and figures

// Fills DESC and GRAND.
pub fn txp_summaries(
    n: u32,
    l: u32,
    coefs: &[i32],
    desc: &mut [u32],
    grand: &mut [u32],
    answer: &mut [u32; 16],
) -> u32
    ensures answer { Answers result answer.new (of_outcome (first_failing (summary_checks n l coefs.now (length desc.old) (length grand.old)))) }
    ensures descs { desc.new ≡ lent_after (first_failing (summary_checks n l coefs.now (length desc.old) (length grand.old))) (desc_table n l coefs.now) desc.old }
    ensures grands { grand.new ≡ lent_after (first_failing (summary_checks n l coefs.now (length desc.old) (length grand.old))) (grand_table n l coefs.now) grand.old }
{
    let done = tree::summaries(n, l, coefs, desc, grand);
    put(answer, answers::of_outcome(done))
}

// The figures of one plane. Fills DESC and GRAND on the way.
pub fn txp_figures(
    n: u32,
    l: u32,
    values: &[i32],
    plane: u32,
    desc: &mut [u32],
    grand: &mut [u32],
    answer: &mut [u32; 16],
) -> u32
    ensures answer { Answers result answer.new (of_figures (answered (first_failing (figures_checks n l values.now (length desc.old) (length grand.old) plane)) (figures_of n l values.now plane))) }
    ensures descs { desc.new ≡ lent_after (first_failing (figures_checks n l values.now (length desc.old) (length grand.old) plane)) (desc_table n l values.now) desc.old }
    ensures grands { grand.new ≡ lent_after (first_failing (figures_checks n l values.now (length desc.old) (length grand.old) plane)) (grand_table n l values.now) grand.old }
{
    let done = figures::figures_of(n, l, values, plane, desc, grand);
    put(answer, answers::of_figures(done))
}

// The figures of all planes, 0 to 23: the summaries are filled once.
pub fn txp_figures_all(
    n: u32,
    l: u32,
    values: &[i32],
    desc: &mut [u32],
    grand: &mut [u32],
    out: &mut [u32],
    answer: &mut [u32; 16],
) -> u32
    ensures answer { Answers result answer.new (of_outcome (first_failing (all_figures_checks n l values.now (length desc.old) (length grand.old) (length out.old)))) }
    ensures descs { desc.new ≡ lent_after (first_failing (all_figures_checks n l values.now (length desc.old) (length grand.old) (length out.old))) (desc_table n l values.now) desc.old }
    ensures grands { grand.new ≡ lent_after (first_failing (all_figures_checks n l values.now (length desc.old) (length grand.old) (length out.old))) (grand_table n l values.now) grand.old }
    ensures outs { out.new ≡ lent_after (first_failing (all_figures_checks n l values.now (length desc.old) (length grand.old) (length out.old))) (all_figures n l values.now) out.old }
{
    let done = figures::figures_of_all(n, l, values, desc, grand, out);
    put(answer, answers::of_outcome(done))
}

// ---- places

// A whole raster array in linear order.
pub fn txp_to_linear(n: u32, from: &[i32], to: &mut [i32], answer: &mut [u32; 16]) -> u32
    ensures answer { Answers result answer.new (of_outcome (first_failing (reorder_checks n (length from.now) (length to.old)))) }
    ensures reordered { to.new ≡ lent_after (first_failing (reorder_checks n (length from.now) (length to.old))) (order.linearly n from.now) to.old }
{
    let done = places::reorder_to_linear(n, from, to);
    put(answer, answers::of_outcome(done))
}

// A whole linear array in raster order.
pub fn txp_to_raster(n: u32, from: &[i32], to: &mut [i32], answer: &mut [u32; 16]) -> u32
    ensures answer { Answers result answer.new (of_outcome (first_failing (reorder_checks n (length from.now) (length to.old)))) }
    ensures reordered { to.new ≡ lent_after (first_failing (reorder_checks n (length from.now) (length to.old))) (order.rasterly n from.now) to.old }
{
    let done = places::reorder_to_raster(n, from, to);
    put(answer, answers::of_outcome(done))
}

// The linear place of a raster place.
pub fn txp_linear_place(n: u32, place: u32, answer: &mut [u32; 16]) -> u32
    ensures { Answers result answer.new (of_linear (linear_if (first_failing (place_checks n place)) (order.to_linear n place))) }
{
    match places::raster_at(n, place) {
        Ok(p) => {
            let done = places::to_linear(n, p);
            put(answer, answers::of_linear(done))
        }
        Err(why) => put(answer, answers::refused(why)),
    }
}

// The raster place of a linear place.
pub fn txp_raster_place(n: u32, place: u32, answer: &mut [u32; 16]) -> u32
    ensures { Answers result answer.new (of_raster (raster_if (first_failing (place_checks n place)) (order.to_raster n place))) }
{
    match places::linear_at(n, place) {
        Ok(q) => {
            let done = places::to_raster(n, q);
            put(answer, answers::of_raster(done))
        }
        Err(why) => put(answer, answers::refused(why)),
    }
}

// ---- coefficients

// The planes of an array.
pub fn txp_planes(coefs: &[i32], answer: &mut [u32; 16]) -> u32
    ensures { Answers result answer.new (of_planes (coefficient.planes_of coefs.now)) }
{
    let done = coef::planes(coefs);
    put(answer, answers::of_planes(done))
}

// Whether x is below 0: 1 or 0.
pub fn txp_is_negative(x: i32, answer: &mut [u32; 16]) -> u32
    ensures { Answers result answer.new (of_value (digit (coefficient.negative x))) }
{
    let done = coef::is_negative(x);
    put(answer, answers::of_bool(done))
}

// The magnitude of any number.
pub fn txp_magnitude(x: i32, answer: &mut [u32; 16]) -> u32
    ensures { Answers result answer.new (of_value (coefficient.magnitude x)) }
{
    let done = coef::magnitude(x);
    put(answer, answers::value(done))
}

// Sign and magnitude of a coefficient.
pub fn txp_part(x: i32, answer: &mut [u32; 16]) -> u32
    ensures { Answers result answer.new (of_parted (coefficient.parted_of x)) }
{
    let done = coef::part_of(x);
    put(answer, answers::of_parted(done))
}

// The coefficient with this sign and magnitude. Any `negative` but 0 says that it is below 0.
pub fn txp_join(negative: u32, magnitude: u32, to: &mut i32, answer: &mut [u32; 16]) -> u32
    ensures answer { Answers result answer.new (of_joined (coefficient.joined_of (signed_of negative magnitude))) }
    ensures joined { to.new ≡ joined_in (coefficient.joined_of (signed_of negative magnitude)) to.old }
{
    match coef::join_of(coef::Signed {
        negative: negative != 0,
        magnitude,
    }) {
        Some(x) => {
            *to = x;
            put(answer, answers::nothing())
        }
        None => put(answer, answers::too_large()),
    }
}

// A coefficient as a float, which is exactly that whole number.
pub fn txp_float(x: i32, to: &mut f32, answer: &mut [u32; 16]) -> u32
    ensures answer { Answers result answer.new (of_float (coefficient.float_of x)) }
    ensures floated { to.new ≡ float_in (coefficient.float_of x) to.old }
{
    match coef::float_of(x) {
        Ok(v) => {
            *to = v;
            put(answer, answers::nothing())
        }
        Err(why) => put(answer, answers::refused(why)),
    }
}

// ---- bits

// Bit b of x: 1 or 0.
pub fn txp_bit(x: u32, b: u32, answer: &mut [u32; 16]) -> u32
    ensures { Answers result answer.new (of_value (digit (bit x b))) }
{
    let done = bits::bit_of(x, b);
    put(answer, answers::of_bool(done))
}

// The bit with number `at` of a body of `declared` bits, or why there is none.
pub fn txp_read_bit(body: &[u8], at: usize, declared: usize, answer: &mut [u32; 16]) -> u32
    ensures { Answers result answer.new (of_next (viewed body.now at declared)) }
{
    let done = view::read(body, at, declared);
    put(answer, answers::of_next(done))
}

// Puts a bit at number `at` and clears what lies below it in its byte. Any `x` but 0 is a 1.
pub fn txp_put_bit(body: &mut [u8], at: usize, x: u32, answer: &mut [u32; 16]) -> u32
    ensures answer { Answers result answer.new blank }
    ensures written { body.new ≡ with_bit body.old at (as_bool x) }
{
    bits::put(body, at, x != 0);
    put(answer, answers::nothing())
}

// ---- sizes

// Whether N is in range: 1 or 0.
pub fn txp_side_fits(n: u32, answer: &mut [u32; 16]) -> u32
    ensures { Answers result answer.new (of_value (digit (side_fits n))) }
{
    let done = sizes::side_fits(n);
    put(answer, answers::of_bool(done))
}

// Whether N and L are in range.
fn sizes_fit(n: u32, l: u32) -> bool
    ensures { result ≡ (side_fits n && levels_fit n l) }
{
    if sizes::side_fits(n) {
        return sizes::levels_fit(n, l);
    }
    false
}

// Whether N and L are in range: 1 or 0.
pub fn txp_levels_fit(n: u32, l: u32, answer: &mut [u32; 16]) -> u32
    ensures { Answers result answer.new (of_value (digit (side_fits n && levels_fit n l))) }
{
    let done = sizes_fit(n, l);
    put(answer, answers::of_bool(done))
}

// I, the number of coefficients; 0 for an N out of range.
pub fn txp_all(n: u32, answer: &mut [u32; 16]) -> u32
    ensures { Answers result answer.new (of_value (cond (side_fits n) (all_of n) 0)) }
{
    let done = sizes::all_of(n);
    put(answer, answers::value(done as u32))
}

// D, the size of the coarsest band; 0 for sizes out of range.
pub fn txp_coarsest(n: u32, l: u32, answer: &mut [u32; 16]) -> u32
    ensures { Answers result answer.new (of_value (cond (side_fits n && levels_fit n l) (coarsest_of n l) 0)) }
{
    let done = sizes::coarsest_of(n, l);
    put(answer, answers::value(done as u32))
}
