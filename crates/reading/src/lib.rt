// The decoder's scan: visits, passes, planes.
// While it runs a known value is kept as a code: twice its magnitude, and 1 more where it is below 0.
#![tactic(auto)]

mod siblings;
mod values;

ghost use Rattle.std.specs.Prelude.{◌≡◌, ◌&&◌, leb, false, List, ℕ, ◌*◌, ◌/◌, ◌<◌, ◌≤◌, ℤ, length, get_or, set};
ghost use Rattle.sizes.specs.Sizes.{most_n, most_planes, all_of};
ghost use Rattle.coef.specs.Coef.{at};
ghost use Rattle.nls.specs.Scan.{pixels, in_desc, in_grand};
ghost use Rattle.walk.specs.Scans.{Ran, planes, left_of, Resumes, left_at, pass_at};
ghost use Rattle.marking.specs.Marking.{desc_split_marks, grand_split_marks};
ghost use Rattle.walk.specs.Visits.{Sv, one_seen, test_seen, pixels_seen, sets_seen, refining_seen, visit_seen, scan_of};
ghost use Rattle.reading.specs.Reading.{new_code, more_code, is, child_clash, grand_clash, last_clash, root_clash, desc_clash, bars_at, bars_fit, bars_zero, Read, reader, read, st, Does, Room, Sizes, Holds, scan_fits, Scanned};

// What stays the same through a scan: the places, the coarsest ones of these, the planes, and the usable bits of the body.
#[derive(Clone, Copy)]
struct Frame {
    all: usize,
    coarsest: usize,
    top: u32,
    usable: usize,
}

// What a visit of the decoder leaves to do: nothing, for want of a bit or because the next one fits no array, or to go on.
// In each the number of bits used comes first, and then the place: where it stopped, or where to go on.
#[derive(Clone, Copy)]
pub enum Turn {
    Stop(usize, usize),
    Bad(usize, usize),
    Go(usize, usize),
}

// Where a step over four places leads: whether it goes on there, and the bits used.
// Kept: no Option, since the bits and the place hold whether it goes on or not.
#[derive(Clone, Copy)]
pub struct Went {
    pub on: bool,
    pub n: usize,
    pub place: usize,
}

// Where the scan goes on: the bits used, the passes not finished, and the place.
#[derive(Clone, Copy)]
pub struct Handed {
    pub n: usize,
    pub turn: u32,
    pub place: usize,
}

// Where the decoder's scan ended: the bits used, the planes not finished, where it stopped in its plane (pass times I, and the place), and
// whether the next bit fits no array.
// Kept: no Result, since the bits and the planes hold where it fits none too.
#[derive(Clone, Copy)]
pub struct Reached {
    pub bits: usize,
    pub left: u32,
    pub stop: usize,
    pub bad: bool,
}

// A coefficient that is found in plane b, as a code.
fn found(values: &mut [i32], b: u32, place: usize, negative: bool)
    requires { (place < length values.old) × (b < most_planes) }
    ensures { values.new ≡ set values.old place (new_code negative b) }
{
    values[place] = ((2u32 << b) + (negative as u32)) as i32;
}

// Bit b of a magnitude, put into its code. Its place there was 0 before.
fn refined(values: &mut [i32], b: u32, place: usize, x: bool)
    requires { (place < length values.old) × (b < most_planes) }
    ensures { values.new ≡ set values.old place (more_code x b (at values.old place)) }
{
    let old = values[place];
    values[place] = old | (((x as u32) << (b + 1)) as i32);
}

// Whether three marks are all of one code.
fn three(marks: &[u8], p: usize, q: usize, r: usize, code: u8) -> bool
    requires { (p < length marks.now) × (q < length marks.now) × (r < length marks.now) }
    ensures { result ≡ (is marks.now p code && (is marks.now q code && is marks.now r code)) }
{
    marks[p] == code && marks[q] == code && marks[r] == code
}

// Whether a child's 0 fits no array.
#[tactic(auto, unfolding(crate::specs::Reading::child_clash))]
fn child_clash(marks: &[u8], place: usize) -> bool
    requires { (place < length marks.now) × (length marks.now ≤ all_of most_n) }
    ensures { result ≡ child_clash (length marks.now) place marks.now }
{
    place % 4 == 3
        && marks.len() <= 16 * (place / 4)
        && three(marks, place - 1, place - 2, place - 3, marking::MIP)
}

// Whether the 0 of a GRAND fits no array.
#[tactic(auto, unfolding(crate::specs::Reading::grand_clash))]
pub(crate) fn grand_clash(marks: &[u8], place: usize) -> bool
    requires { (place < length marks.now) × (16 ≤ length marks.now) }
    ensures { result ≡ grand_clash place marks.now }
{
    let up = 4 * (place / 16);
    marks[up] == marking::MIP && three(marks, up + 1, up + 2, up + 3, marking::MIP)
}

// Whether the 0 of the last DESC of a split GRAND fits no array.
#[tactic(auto, unfolding(crate::specs::Reading::last_clash))]
fn last_clash(marks: &[u8], place: usize) -> bool
    requires { place < length marks.now }
    ensures { result ≡ last_clash place marks.now }
{
    let up = place / 4;
    up % 4 == 3 && three(marks, 4 * (up - 1), 4 * (up - 2), 4 * (up - 3), marking::MD)
}

// Whether the 0 of the last root fits no array.
#[tactic(auto, unfolding(crate::specs::Reading::root_clash))]
fn root_clash(coarsest: usize, top: u32, n: usize, b: u32, place: usize) -> bool
    requires { (place < all_of most_n) × (coarsest ≤ all_of most_n) × (4 ≤ coarsest) × (b < most_planes) }
    ensures { result ≡ root_clash coarsest top b n place }
{
    place + 4 == 4 * coarsest && b + 1 == top && n == coarsest + 3 * coarsest / 4 - 1
}

// Whether the 0 of a DESC fits no array.
pub(crate) fn desc_clash(
    marks: &[u8],
    coarsest: usize,
    top: u32,
    n: usize,
    b: u32,
    place: usize,
) -> bool
    requires { (place < length marks.now) × (b < most_planes) × Sizes (length marks.now) coarsest top }
    ensures { result ≡ desc_clash coarsest top b n place marks.now }
{
    if 4 * coarsest <= place {
        return last_clash(marks, place);
    }
    root_clash(coarsest, top, n, b, place)
}

// Whether a coefficient's 0 fits no array: in the set pass it may not.
fn one_clash(marks: &[u8], place: usize, in_sets: bool) -> bool
    requires { (place < length marks.now) × (length marks.now ≤ all_of most_n) }
    ensures { result ≡ (in_sets && child_clash (length marks.now) place marks.now) }
{
    in_sets && child_clash(marks, place)
}

// Whether a table of `all` marks and a scan of such sizes fit one another.
fn sizes_fit(all: usize, coarsest: usize, top: u32) -> bool
    ensures { result ≡ (leb all (all_of most_n) && (leb 4 coarsest && (leb (4 * coarsest) all && leb top most_planes))) }
{
    all <= sizes::all_of(sizes::MOST_N)
        && 4 <= coarsest
        && coarsest <= all / 4
        && top <= sizes::MOST_PLANES
}

// Whether a scan of such sizes can stand so.
#[tactic(auto, unfolding(crate::specs::Reading::bars_fit))]
fn bars_fit(all: usize, coarsest: usize, top: u32, left: u32, place: usize) -> bool
    ensures { result ≡ bars_fit all coarsest top left place }
{
    sizes_fit(all, coarsest, top) && 1 <= left && left <= sizes::MOST_PLANES && place < all
}

// Whether a 0 at a place of the set pass fits no array, by the mark there.
fn clash_at(marks: &[u8], coarsest: usize, top: u32, n: usize, b: u32, place: usize) -> bool
    requires { (place < length marks.now) × (b < most_planes) × Sizes (length marks.now) coarsest top }
    ensures { result ≡ bars_at (length marks.now) coarsest top b n place marks.now }
{
    let mark = marks[place];
    if mark == marking::MCP {
        return child_clash(marks, place);
    }
    if mark == marking::MD {
        return desc_clash(marks, coarsest, top, n, b, place);
    }
    if mark == marking::MG {
        return grand_clash(marks, place);
    }
    false
}

// The same for any table of marks, with `left` planes not finished and n bits used.
pub fn bars_zero(marks: &[u8], coarsest: usize, top: u32, left: u32, n: usize, place: usize) -> bool
    ensures { result ≡ bars_zero (length marks.now) coarsest top left n place marks.now }
{
    bars_fit(marks.len(), coarsest, top, left, place)
        && clash_at(marks, coarsest, top, n, left - 1, place)
}

// A coefficient by itself: its bit, and after a 1 its sign.
fn coefficient(
    body: &[u8],
    marks: &mut [u8],
    values: &mut [i32],
    frame: Frame,
    n: usize,
    b: u32,
    place: usize,
    in_sets: bool,
) -> Turn
    requires { Room body.now marks.old values.old frame.all frame.usable place n b }
    ensures { Does (one_seen (reader body.now frame.usable frame.all 0 0) pixels b place (in_sets && child_clash frame.all place marks.old) marks.old (read values.old n)) frame.usable place n result marks.new values.new }
{
    let Ok(x) = view::read(body, n, frame.usable) else {
        return Turn::Stop(n, place);
    };
    let k = n + 1;
    if x {
        let Ok(negative) = view::read(body, k, frame.usable) else {
            return Turn::Stop(k, place);
        };
        found(values, b, place, negative);
        marks[place] = marking::MNP;
        return Turn::Go(k + 1, place + 1);
    }
    if one_clash(marks, place, in_sets) {
        return Turn::Bad(n, place);
    }
    marks[place] = marking::MIP;
    Turn::Go(k, place + 1)
}

// A place of the pixel pass.
fn pixel(
    body: &[u8],
    marks: &mut [u8],
    values: &mut [i32],
    frame: Frame,
    n: usize,
    b: u32,
    place: usize,
) -> Turn
    requires { Room body.now marks.old values.old frame.all frame.usable place n b }
    ensures { Does (pixels_seen (reader body.now frame.usable frame.all 0 0) b place (get_or marks.old place 0) marks.old (read values.old n)) frame.usable place n result marks.new values.new }
{
    let mark = marks[place];
    if mark == marking::MIP {
        return coefficient(body, marks, values, frame, n, b, place, false);
    }
    let next = place + marking::skip(mark);
    Turn::Go(n, next)
}

// A place of the refinement pass.
fn refine(
    body: &[u8],
    marks: &mut [u8],
    values: &mut [i32],
    frame: Frame,
    n: usize,
    b: u32,
    place: usize,
) -> Turn
    requires { Room body.now marks.old values.old frame.all frame.usable place n b }
    ensures { Does (refining_seen (reader body.now frame.usable frame.all 0 0) b place (get_or marks.old place 0) marks.old (read values.old n)) frame.usable place n result marks.new values.new }
{
    let mark = marks[place];
    if mark == marking::MSP {
        let Ok(x) = view::read(body, n, frame.usable) else {
            return Turn::Stop(n, place);
        };
        refined(values, b, place, x);
        return Turn::Go(n + 1, place + 1);
    }
    if marking::MSP < mark {
        let next = place + marking::skip(mark);
        return Turn::Go(n, next);
    }
    if mark == marking::MNP {
        marks[place] = marking::MSP;
        return Turn::Go(n, place + 1);
    }
    Turn::Go(n, place + 1)
}

// The test of a DESC.
fn test_desc(body: &[u8], marks: &mut [u8], frame: Frame, n: usize, b: u32, place: usize) -> Turn
    requires { (place < frame.all) × (length marks.old ≡ frame.all) × (b < most_planes) × (n ≤ frame.usable) × (frame.usable ≤ 8 * length body.now) × Sizes frame.all frame.coarsest frame.top }
    ensures { (v : List ℤ) → Does (test_seen (reader body.now frame.usable frame.all frame.coarsest frame.top) b place (in_desc (place / 4) b) 4 (desc_clash frame.coarsest frame.top b n place marks.old) (desc_split_marks frame.all place marks.old) marks.old (read v n)) frame.usable place n result marks.new v }
{
    let Ok(x) = view::read(body, n, frame.usable) else {
        return Turn::Stop(n, place);
    };
    if x {
        marking::split_desc(marks, place);
        return Turn::Go(n + 1, place);
    }
    if desc_clash(marks, frame.coarsest, frame.top, n, b, place) {
        return Turn::Bad(n, place);
    }
    Turn::Go(n + 1, place + 4)
}

// The test of a GRAND.
fn test_grand(body: &[u8], marks: &mut [u8], frame: Frame, n: usize, b: u32, place: usize) -> Turn
    requires { (place < frame.all) × (length marks.old ≡ frame.all) × (frame.all ≤ all_of most_n) × (16 ≤ frame.all) × (n ≤ frame.usable) × (frame.usable ≤ 8 * length body.now) }
    ensures { (v : List ℤ) → Does (test_seen (reader body.now frame.usable frame.all 0 0) b place (in_grand (place / 16) b) 16 (grand_clash place marks.old) (grand_split_marks frame.all place marks.old) marks.old (read v n)) frame.usable place n result marks.new v }
{
    let Ok(x) = view::read(body, n, frame.usable) else {
        return Turn::Stop(n, place);
    };
    if x {
        marking::split_grand(marks, place);
        return Turn::Go(n + 1, place);
    }
    if grand_clash(marks, place) {
        return Turn::Bad(n, place);
    }
    Turn::Go(n + 1, place + 16)
}

// A place of the set pass.
fn sets(
    body: &[u8],
    marks: &mut [u8],
    values: &mut [i32],
    frame: Frame,
    n: usize,
    b: u32,
    place: usize,
) -> Turn
    requires { Room body.now marks.old values.old frame.all frame.usable place n b × Sizes frame.all frame.coarsest frame.top }
    ensures { Does (sets_seen (reader body.now frame.usable frame.all frame.coarsest frame.top) frame.all b place (get_or marks.old place 0) marks.old (read values.old n)) frame.usable place n result marks.new values.new }
{
    let mark = marks[place];
    if mark == marking::MCP {
        return coefficient(body, marks, values, frame, n, b, place, true);
    }
    if mark == marking::MD {
        return test_desc(body, marks, frame, n, b, place);
    }
    if mark == marking::MG {
        return test_grand(body, marks, frame, n, b, place);
    }
    let next = place + marking::set_skip(mark);
    Turn::Go(n, next)
}

// A place of a pass.
fn visit(
    body: &[u8],
    marks: &mut [u8],
    values: &mut [i32],
    frame: Frame,
    n: usize,
    b: u32,
    pass: u32,
    place: usize,
) -> Turn
    requires { Room body.now marks.old values.old frame.all frame.usable place n b × Sizes frame.all frame.coarsest frame.top }
    ensures { Does (visit_seen (reader body.now frame.usable frame.all frame.coarsest frame.top) frame.all b pass place (st marks.old values.old n)) frame.usable place n result marks.new values.new }
{
    match pass {
        0 => pixel(body, marks, values, frame, n, b, place),
        1 => sets(body, marks, values, frame, n, b, place),
        _ => refine(body, marks, values, frame, n, b, place),
    }
}

// The scan from a place on, with `turn0` passes not finished, left where no usable bit is left or the next one fits no array.
// Kept: its numbers are no Frame, since it is called out of line: the scan of 256 by 256 with 12 planes takes 9,861,872 instructions so, 9,982,493 with one.
fn go_on(
    body: &[u8],
    marks: &mut [u8],
    values: &mut [i32],
    all: usize,
    coarsest: usize,
    top: u32,
    usable: usize,
    turn0: u32,
    place0: usize,
    n0: usize,
) -> Reached
    requires { (length marks.old ≡ all) × (length values.old ≡ all) × (usable ≤ 8 * length body.now) × Sizes all coarsest top × (turn0 ≤ 3 * most_planes) × (n0 ≤ usable) }
    ensures { (X : Ran (Sv Read)) (L : ℕ) → Resumes (scan_of (reader body.now usable all coarsest top) all) (left_at turn0) (pass_at turn0) place0 (st marks.old values.old n0) X L → Holds X L result.bits result.left result.stop result.bad marks.new values.new }
{
    let frame = Frame {
        all,
        coarsest,
        top,
        usable,
    };
    let mut n = n0;
    let mut turn = turn0;
    let mut place = place0;
    let mut left = 0;
    let mut stop = 0;
    let mut bad = false;
    'scan: while 0 < turn {
        let planes = (turn + 2) / 3;
        let pass = 3 * planes - turn;
        while place < all {
            match visit(body, marks, values, frame, n, planes - 1, pass, place) {
                Turn::Stop(k, p) => {
                    n = k;
                    left = planes;
                    stop = pass as usize * all + p;
                    break 'scan;
                }
                Turn::Bad(k, _) => {
                    n = k;
                    left = planes;
                    bad = true;
                    break 'scan;
                }
                Turn::Go(k, p) => {
                    place = p;
                    n = k;
                }
            }
        }
        place = 0;
        turn -= 1;
    }
    Reached {
        bits: n,
        left,
        stop,
        bad,
    }
}

// The scan of `top` planes, left where no usable bit is left or the next one fits no array.
fn run(body: &[u8], marks: &mut [u8], values: &mut [i32], frame: Frame) -> Reached
    requires { (length marks.old ≡ frame.all) × (length values.old ≡ frame.all) × (frame.usable ≤ 8 * length body.now) × Sizes frame.all frame.coarsest frame.top }
    ensures { Holds (planes (scan_of (reader body.now frame.usable frame.all frame.coarsest frame.top) frame.all) frame.top (st marks.old values.old 0)) (left_of (scan_of (reader body.now frame.usable frame.all frame.coarsest frame.top) frame.all) frame.top (st marks.old values.old 0)) result.bits result.left result.stop result.bad marks.new values.new }
{
    if frame.usable < 128 {
        return go_on(
            body,
            marks,
            values,
            frame.all,
            frame.coarsest,
            frame.top,
            frame.usable,
            3 * frame.top,
            0,
            0,
        );
    }
    let r = siblings::scan(body, marks, values, frame);
    go_on(
        body,
        marks,
        values,
        frame.all,
        frame.coarsest,
        frame.top,
        frame.usable,
        r.turn,
        r.place,
        r.n,
    )
}

// Whether tables of `all` marks and `values` values and a scan of such sizes fit one another.
#[tactic(auto, unfolding(crate::specs::Reading::scan_fits))]
fn scan_fits(all: usize, values: usize, coarsest: usize, top: u32) -> bool
    ensures { result ≡ scan_fits all values coarsest top }
{
    values == all && sizes_fit(all, coarsest, top)
}

// The scan of `top` planes over all of `marks` and `values`, by the first `usable` bits of a body or all that it has; where the sizes
// do not fit, nothing is read.
pub fn scan(
    body: &[u8],
    marks: &mut [u8],
    values: &mut [i32],
    coarsest: usize,
    top: u32,
    usable: u32,
) -> Reached
    ensures { Scanned body.now usable coarsest top marks.old values.old result marks.new values.new }
{
    let all = marks.len();
    let most = room::usable_of(usable, body.len());
    if scan_fits(all, values.len(), coarsest, top) {
        let frame = Frame {
            all,
            coarsest,
            top,
            usable: most as usize,
        };
        return run(body, marks, values, frame);
    }
    Reached {
        bits: 0,
        left: 0,
        stop: 0,
        bad: false,
    }
}
