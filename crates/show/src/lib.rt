// What is shown of a file, as text in a lent buffer. Each inner function puts its text from entry `at` on, as far as there is room, and answers the entry behind it.
#![tactic(auto)]

ghost use Rattle.std.specs.Prelude.{◌+◌, ◌*◌, ◌≤◌, ◌<◌, ◌^◌, ◌≡◌, [], ◌∷◌, ◌++◌, map, length, set, take};
ghost use Rattle.sizes.specs.Sizes.{all_of, most_planes};
ghost use Rattle.places.specs.Order.{rasterly};
ghost use Rattle.decimal.specs.Decimal.{decimal, signed_decimal};
ghost use Rattle.figures.specs.Figures.{figures_of};
ghost use Rattle.show.specs.Text.{number, space, newline, words_after, line_text, text_of, refused_line, ending_letters, first_line, plane_line, plane_lines, row_lines, picture_lines, most_shown_n, too_large, too_large_line, most_text, Rendered};
ghost use Rattle.show.specs.Putting.{Puts, Drawn};

use decoder::Ending;
use figures::Figures;
use refusals::Refusal;
use sizes::MOST_N;
use txp::Decoded;

// The largest file, and the largest N, that is shown.
const MOST_SHOWN: usize = 16384;

const MOST_SHOWN_N: u32 = 6;

// Whether a file is too large to be shown.
#[tactic(auto, unfolding(crate::specs::Text::too_large))]
fn is_large(file: &[u8]) -> bool
    ensures { result ≡ too_large file.now }
{
    let n = txp::header_of(file).n;
    MOST_SHOWN < file.len()
        || (txp::letters_fit(file) && txp::version_fits(file) && MOST_SHOWN_N < n && n <= MOST_N)
}

// Stores a character at an entry; past the end it does nothing.
// Kept: of the buffer behind `out.get_mut(at)` a proof knows the length and no entry, so that the write through it did not close.
fn store(out: &mut [u8], at: usize, x: u8)
    ensures { out.new ≡ set out.old at x }
{
    if at < out.len() {
        out[at] = x;
    }
}

// One character.
fn put_byte(out: &mut [u8], at: usize, x: u8) -> usize
    requires { at < 2 ^ 32 }
    ensures { Puts out.old at (x ∷ []) out.new result }
{
    store(out, at, x);
    at + 1
}

// Letters.
fn put_letters(out: &mut [u8], at: usize, word: &[u8]) -> usize
    requires { (at < 2 ^ 32) × (length word.now < 2 ^ 32) }
    ensures { Puts out.old at word.now out.new result }
{
    for (i, x) in word.iter().enumerate() {
        store(out, at + i, *x);
    }
    at + word.len()
}

// A number with a sign.
fn put_signed(out: &mut [u8], at: usize, x: i32) -> usize
    requires { at < 2 ^ 32 }
    ensures { Puts out.old at (signed_decimal x) out.new result × (result ≤ at + 11) }
{
    let length = decimal::put_signed(out, at, x);
    at + length
}

// A space, and a number.
fn put_number(out: &mut [u8], at: usize, x: u32) -> usize
    requires { at < 2 ^ 32 }
    ensures { Puts out.old at (space ∷ decimal x) out.new result × (result ≤ at + 11) }
{
    store(out, at, b' ');
    let length = decimal::put(out, at + 1, x);
    at + 1 + length
}

// A space, and a number with a sign.
fn put_next(out: &mut [u8], at: usize, x: i32) -> usize
    requires { at < 2 ^ 31 }
    ensures { Puts out.old at (space ∷ signed_decimal x) out.new result × (result ≤ at + 12) }
{
    store(out, at, b' ');
    put_signed(out, at + 1, x)
}

// The line of a file that is too large.
fn put_large(out: &mut [u8]) -> usize
    ensures { Puts out.old 0 (line_text too_large_line) out.new result × (result ≤ most_text) }
{
    put_letters(out, 0, b"too large\n")
}

// The line of a refusal: `refused`, number, place.
fn put_refusal(out: &mut [u8], why: Refusal) -> usize
    ensures { Puts out.old 0 (line_text (refused_line why)) out.new result × (result ≤ most_text) }
{
    let word = put_letters(out, 0, b"refused");
    let number = put_number(out, word, refusals::number(why));
    let place = put_number(out, number, refusals::place(why));
    put_byte(out, place, b'\n')
}

// A space, and why the bits ended.
fn put_ending(out: &mut [u8], at: usize, ending: Ending) -> usize
    requires { at < 2 ^ 31 }
    ensures { Puts out.old at (space ∷ ending_letters ending) out.new result × (result ≤ at + 7) }
{
    match ending {
        Ending::Whole => put_letters(out, at, b" whole"),
        Ending::Budget => put_letters(out, at, b" budget"),
        Ending::Cut => put_letters(out, at, b" cut"),
        Ending::GoesOn => put_letters(out, at, b" "),
    }
}

// The first line: letters, version, N, L, P, declared bits, used bits, and why the bits ended.
fn put_first(out: &mut [u8], d: Decoded) -> usize
    ensures { Puts out.old 0 (line_text (first_line d)) out.new result × (result < 100) }
{
    let word = put_letters(out, 0, b"TXP 1");
    let n = put_number(out, word, d.n);
    let l = put_number(out, n, d.l);
    let p = put_number(out, l, d.p);
    let declared = put_number(out, p, d.declared);
    let used = put_number(out, declared, d.used);
    let why = d.ending;
    let ending = put_ending(out, used, why);
    put_byte(out, ending, b'\n')
}

// Four numbers that end a line.
fn put_columns(out: &mut [u8], at: usize, a: u32, b: u32, c: u32, d: u32) -> usize
    requires { at < 2 ^ 31 }
    ensures { Puts out.old at (space ∷ (decimal a ++ (space ∷ (decimal b ++ (space ∷ (decimal c ++ (space ∷ (decimal d ++ (newline ∷ []))))))))) out.new result × (result ≤ at + 45) }
{
    let first = put_number(out, at, a);
    let second = put_number(out, first, b);
    let third = put_number(out, second, c);
    let fourth = put_number(out, third, d);
    put_byte(out, fourth, b'\n')
}

// The line of a finished plane: its number, the bits read in it, the parts that stand after it, the sets split in it.
fn put_plane(out: &mut [u8], at: usize, plane: u32, f: Figures) -> usize
    requires { at < 2 ^ 30 }
    ensures { Puts out.old at (line_text (plane_line plane f)) out.new result × (result ≤ at + 50) }
{
    let word = put_letters(out, at, b"plane");
    put_columns(out, word, plane, f.bits, f.parts, f.splits)
}

// The figures of a plane of values that are drawn. `desc` and `grand` are room for the summaries.
fn figures_at(
    n: u32,
    l: u32,
    values: &[i32],
    plane: u32,
    desc: &mut [u32],
    grand: &mut [u32],
) -> Figures
    requires { Drawn n l values.now × (plane < most_planes) × (all_of n ≤ 4 * length desc.old) × (all_of n ≤ 16 * length grand.old) }
    ensures { result ≡ figures_of n l values.now plane }
{
    figures::figures_of(n, l, values, plane, desc, grand).unwrap()
}

// The lines of the finished planes, from the highest down.
fn put_planes(
    out: &mut [u8],
    at: usize,
    n: u32,
    l: u32,
    values: &[i32],
    planes: u32,
    finished: u32,
    desc: &mut [u32],
    grand: &mut [u32],
) -> usize
    requires { (at < 2 ^ 16) × Drawn n l values.now × (planes ≤ most_planes) × (finished ≤ planes) × (all_of n ≤ 4 * length desc.old) × (all_of n ≤ 16 * length grand.old) }
    ensures { Puts out.old at (text_of (plane_lines n l values.now planes finished)) out.new result × (result ≤ at + 50 * finished) }
{
    let mut end = at;
    for plane in (planes - finished..planes).rev() {
        let f = figures_at(n, l, values, plane, desc, grand);
        end = put_plane(out, end, plane, f);
    }
    end
}

// The numbers of a row behind the first, and the end of the line.
fn put_row_behind(out: &mut [u8], at: usize, row: &[i32]) -> usize
    requires { (at < 2 ^ 30) × (length row.now ≤ 64) }
    ensures { Puts out.old at (words_after (map number row.now)) out.new result × (result ≤ at + 800) }
{
    let mut end = at;
    for x in row {
        end = put_next(out, end, *x);
    }
    put_byte(out, end, b'\n')
}

// One row of the picture.
fn put_row(out: &mut [u8], at: usize, row: &[i32]) -> usize
    requires { (at < 2 ^ 29) × (1 ≤ length row.now) × (length row.now ≤ 64) }
    ensures { Puts out.old at (line_text (map number row.now)) out.new result × (result ≤ at + 900) }
{
    let x = row[0];
    let first = put_signed(out, at, x);
    put_row_behind(out, first, &row[1..])
}

// The rows of a picture of side * side numbers.
fn put_rows(out: &mut [u8], at: usize, raster: &[i32], side: usize) -> usize
    requires { (at < 2 ^ 20) × (1 ≤ side) × (side ≤ 64) × (length raster.now ≡ side * side) }
    ensures { Puts out.old at (text_of (row_lines side side raster.now)) out.new result × (result ≤ at + 900 * side) }
{
    let mut end = at;
    for row in raster.chunks_exact(side) {
        end = put_row(out, end, row);
    }
    end
}

// The side of a picture: 2^N.
fn side_of(n: u32) -> usize
    requires { n ≤ most_shown_n }
    ensures { result ≡ 2 ^ n }
{
    1usize << n
}

// The picture: the values in raster order, row after row. `raster` is room for them.
fn put_square(
    out: &mut [u8],
    at: usize,
    n: u32,
    l: u32,
    values: &[i32],
    raster: &mut [i32],
) -> usize
    requires { (at < 2 ^ 20) × Drawn n l values.now × (all_of n ≤ length raster.old) }
    ensures { Puts out.old at (text_of (row_lines (2 ^ n) (2 ^ n) (rasterly n values.now))) out.new result × (result ≤ at + 57600) }
{
    let side = side_of(n);
    let _ = places::reorder_to_raster(n, values, raster);
    let count = values.len();
    put_rows(out, at, &raster[..count], side)
}

// What is shown of a file that was taken.
fn put_picture(out: &mut [u8], d: Decoded, values: &[i32]) -> usize
    requires { Drawn d.n d.l values.now × (d.p ≤ most_planes) × (d.finished ≤ d.p) }
    ensures { Puts out.old 0 (text_of (picture_lines d values.now)) out.new result × (result ≤ most_text) }
{
    let mut desc = [0u32; 1024];
    let mut grand = [0u32; 256];
    let mut raster = [0i32; 4096];
    let first = put_first(out, d);
    let planes = put_planes(
        out, first, d.n, d.l, values, d.p, d.finished, &mut desc, &mut grand,
    );
    put_square(out, planes, d.n, d.l, values, &mut raster)
}

// What is shown of a file: the text, from entry 0 on as far as there is room. The answer is the length of the whole text.
pub fn render(file: &[u8], out: &mut [u8]) -> usize
    ensures rendered { Rendered file.now out.old out.new result }
    ensures short { result ≤ most_text }
{
    if is_large(file) {
        return put_large(out);
    }
    let mut values = [0i32; 4096];
    let mut precisions = [0u8; 4096];
    let mut marks = [0u8; 4096];
    match txp::decode_midpoint(file, &mut values, &mut precisions, &mut marks) {
        Ok(d) => {
            let all = sizes::all_of(d.n);
            put_picture(out, d, &values[..all])
        }
        Err(why) => put_refusal(out, why),
    }
}
