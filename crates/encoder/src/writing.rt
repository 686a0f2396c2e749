// The encoder's scan: visits, passes, planes.
ghost use Rattle.std.specs.Prelude.{◌≡◌, false, [], ℕ, ◌+◌, ◌*◌, ◌/◌, ◌<◌, ◌≤◌, length, get_or};
ghost use Rattle.sizes.specs.Sizes.{most_n, most_planes, all_of};
ghost use Rattle.bits.specs.Bits.{bit, with_bit};
ghost use Rattle.coef.specs.Coef.{at, mag_at, negative};
ghost use Rattle.nls.specs.Scan.{pixels, in_desc, in_grand};
ghost use Rattle.walk.specs.Scans.{Ran, planes, Resumes, left_at, pass_at};
ghost use Rattle.marking.specs.Marking.{desc_split_marks, grand_split_marks};
ghost use Rattle.walk.specs.Visits.{Sv, one_seen, test_seen, pixels_seen, sets_seen, refining_seen, visit_seen, scan_of};
ghost use Rattle.encoder.specs.Writing.{Bytes, writer, plain, st, bytes, Does, Room, Summed, Holds};

use crate::{Reached, Source, Step};

// Bit b of the magnitude at a place.
fn bit_at(coefs: &[i32], b: u32, place: usize) -> bool
    requires { place < length coefs.now }
    ensures { result ≡ bit (mag_at coefs.now place) b }
{
    let z = coefs[place];
    bits::bit_of(coef::magnitude(z), b)
}

// The sign at a place.
fn negative_at(coefs: &[i32], place: usize) -> bool
    requires { place < length coefs.now }
    ensures { result ≡ negative (at coefs.now place) }
{
    let z = coefs[place];
    coef::is_negative(z)
}

// Puts a bit into bytes that have room for it.
fn put(out: &mut [u8], n: usize, x: bool)
    requires { n < 8 * length out.old }
    ensures { out.new ≡ with_bit out.old n x }
{
    let byte = n / 8;
    let held = out[byte];
    out[byte] = bits::with_bit(held, n, x);
}

// A coefficient by itself: its bit, and after a 1 its sign.
fn coefficient(
    coefs: &[i32],
    marks: &mut [u8],
    out: &mut [u8],
    budget: usize,
    n: usize,
    b: u32,
    place: usize,
) -> Step
    requires { Room coefs.now marks.old out.old (length marks.old) budget place n }
    ensures { Does (one_seen (plain coefs.now budget) pixels b place false marks.old (bytes out.old n)) budget place n result marks.new out.new }
{
    if budget <= n {
        return Step::Stop(n, place);
    }
    let x = bit_at(coefs, b, place);
    put(out, n, x);
    let k = n + 1;
    if !x {
        marks[place] = marking::MIP;
        return Step::Go(k, place + 1);
    }
    if budget <= k {
        return Step::Stop(k, place);
    }
    put(out, k, negative_at(coefs, place));
    marks[place] = marking::MNP;
    Step::Go(k + 1, place + 1)
}

// A place of the pixel pass.
fn pixel(
    coefs: &[i32],
    marks: &mut [u8],
    out: &mut [u8],
    budget: usize,
    n: usize,
    b: u32,
    place: usize,
) -> Step
    requires { Room coefs.now marks.old out.old (length marks.old) budget place n }
    ensures { Does (pixels_seen (plain coefs.now budget) b place (get_or marks.old place 0) marks.old (bytes out.old n)) budget place n result marks.new out.new }
{
    let mark = marks[place];
    if mark == marking::MIP {
        return coefficient(coefs, marks, out, budget, n, b, place);
    }
    let next = place + marking::skip(mark);
    Step::Go(n, next)
}

// A place of the refinement pass.
fn refine(
    coefs: &[i32],
    marks: &mut [u8],
    out: &mut [u8],
    budget: usize,
    n: usize,
    b: u32,
    place: usize,
) -> Step
    requires { Room coefs.now marks.old out.old (length marks.old) budget place n }
    ensures { Does (refining_seen (plain coefs.now budget) b place (get_or marks.old place 0) marks.old (bytes out.old n)) budget place n result marks.new out.new }
{
    let mark = marks[place];
    if mark == marking::MSP {
        if budget <= n {
            return Step::Stop(n, place);
        }
        put(out, n, bit_at(coefs, b, place));
        return Step::Go(n + 1, place + 1);
    }
    if marking::MSP < mark {
        let next = place + marking::skip(mark);
        return Step::Go(n, next);
    }
    if mark == marking::MNP {
        marks[place] = marking::MSP;
        return Step::Go(n, place + 1);
    }
    Step::Go(n, place + 1)
}

// The test of a DESC.
fn test_desc(
    desc: &[u32],
    marks: &mut [u8],
    out: &mut [u8],
    budget: usize,
    n: usize,
    b: u32,
    place: usize,
) -> Step
    requires { (place < length marks.old) × (length marks.old ≤ all_of most_n) × (length marks.old ≤ length desc.now * 4) × (n ≤ budget) × (budget ≤ 8 * length out.old) }
    ensures { Does (test_seen (writer [] desc.now [] budget) b place (in_desc (place / 4) b) 4 false (desc_split_marks (length marks.old) place marks.old) marks.old (bytes out.old n)) budget place n result marks.new out.new }
{
    if budget <= n {
        return Step::Stop(n, place);
    }
    let sum = desc[place / 4];
    let x = bits::bit_of(sum, b);
    put(out, n, x);
    if !x {
        return Step::Go(n + 1, place + 4);
    }
    marking::split_desc(marks, place);
    Step::Go(n + 1, place)
}

// The test of a GRAND.
fn test_grand(
    grand: &[u32],
    marks: &mut [u8],
    out: &mut [u8],
    budget: usize,
    n: usize,
    b: u32,
    place: usize,
) -> Step
    requires { (place < length marks.old) × (length marks.old ≤ all_of most_n) × (length marks.old ≤ length grand.now * 16) × (n ≤ budget) × (budget ≤ 8 * length out.old) }
    ensures { Does (test_seen (writer [] [] grand.now budget) b place (in_grand (place / 16) b) 16 false (grand_split_marks (length marks.old) place marks.old) marks.old (bytes out.old n)) budget place n result marks.new out.new }
{
    if budget <= n {
        return Step::Stop(n, place);
    }
    let sum = grand[place / 16];
    let x = bits::bit_of(sum, b);
    put(out, n, x);
    if !x {
        return Step::Go(n + 1, place + 16);
    }
    marking::split_grand(marks, place);
    Step::Go(n + 1, place)
}

// A place of the set pass.
fn sets(
    src: Source<'_>,
    marks: &mut [u8],
    out: &mut [u8],
    budget: usize,
    n: usize,
    b: u32,
    place: usize,
) -> Step
    requires { Room src.coefs.now marks.old out.old (length marks.old) budget place n × Summed src.desc.now src.grand.now (length marks.old) }
    ensures { Does (sets_seen (writer src.entry.coefs.now src.entry.desc.now src.entry.grand.now budget) (length marks.old) b place (get_or marks.old place 0) marks.old (bytes out.old n)) budget place n result marks.new out.new }
{
    let mark = marks[place];
    if mark == marking::MCP {
        return coefficient(src.coefs, marks, out, budget, n, b, place);
    }
    if mark == marking::MD {
        return test_desc(src.desc, marks, out, budget, n, b, place);
    }
    if mark == marking::MG {
        return test_grand(src.grand, marks, out, budget, n, b, place);
    }
    let next = place + marking::set_skip(mark);
    Step::Go(n, next)
}

// A place of a pass.
fn visit(
    src: Source<'_>,
    marks: &mut [u8],
    out: &mut [u8],
    budget: usize,
    n: usize,
    b: u32,
    pass: u32,
    place: usize,
) -> Step
    requires { Room src.coefs.now marks.old out.old (length marks.old) budget place n × Summed src.desc.now src.grand.now (length marks.old) }
    ensures { Does (visit_seen (writer src.entry.coefs.now src.entry.desc.now src.entry.grand.now budget) (length marks.old) b pass place (st marks.old out.old n)) budget place n result marks.new out.new }
{
    match pass {
        0 => pixel(src.coefs, marks, out, budget, n, b, place),
        1 => sets(src, marks, out, budget, n, b, place),
        _ => refine(src.coefs, marks, out, budget, n, b, place),
    }
}

// The scan from where it was left, left again where the next bit exceeds the budget. It answers the number of bits put.
fn go_on(src: Source<'_>, marks: &mut [u8], out: &mut [u8], budget: usize, from: Reached) -> usize
    requires { (length marks.old ≤ all_of most_n) × (length marks.old ≤ length src.coefs.now) × (budget ≤ 8 * length out.old) × Summed src.desc.now src.grand.now (length marks.old) × (from.turn ≤ 3 * most_planes) × (from.n ≤ budget) }
    ensures { (X : Ran (Sv Bytes)) (L : ℕ) → Resumes (scan_of (writer src.entry.coefs.now src.entry.desc.now src.entry.grand.now budget) (length marks.old)) (left_at from.turn) (pass_at from.turn) from.place (st marks.old out.old from.n) X L → Holds X result marks.new out.new }
{
    let all = marks.len();
    let mut n = from.n;
    let mut turn = from.turn;
    let mut place = from.place;
    'scan: while 0 < turn {
        let left = (turn + 2) / 3;
        while place < all {
            match visit(src, marks, out, budget, n, left - 1, 3 * left - turn, place) {
                Step::Stop(k, _) => {
                    n = k;
                    break 'scan;
                }
                Step::Go(k, p) => {
                    place = p;
                    n = k;
                }
            }
        }
        place = 0;
        turn -= 1;
    }
    n
}

// The scan of `count` planes, left where the next bit exceeds the budget. It answers the number of bits put.
pub(crate) fn scan(
    src: Source<'_>,
    marks: &mut [u8],
    out: &mut [u8],
    budget: usize,
    count: u32,
) -> usize
    requires { (4 ≤ length marks.old) × (length marks.old ≤ all_of most_n) × (length marks.old ≤ length src.coefs.now) × (budget ≤ 8 * length out.old) × Summed src.desc.now src.grand.now (length marks.old) × (count ≤ most_planes) }
    ensures { Holds (planes (scan_of (writer src.entry.coefs.now src.entry.desc.now src.entry.grand.now budget) (length marks.old)) count (st marks.old out.old 0)) result marks.new out.new }
{
    if budget < 64 {
        let start = Reached {
            n: 0,
            turn: 3 * count,
            place: 0,
        };
        return go_on(src, marks, out, budget, start);
    }
    let r = crate::siblings::scan(src, marks, out, budget, count);
    go_on(src, marks, out, budget, r)
}
