// One bit back: the state of the scan before its last answer, from marks and values alone.
#![tactic(auto)]

ghost use Rattle.std.specs.Prelude.{◌≡◌, Bool, true, false, ◌&&◌, ◌||◌, not, cond, ℕ, ◌+◌, ◌*◌, ◌-◌, ◌%◌, ◌<◌, ◌≤◌, ltb, leb, eqb, length, get_or, set};
ghost use Rattle.sizes.specs.Sizes.{most_n, most_planes, all_of};
ghost use Rattle.nls.specs.Marks.{no_mark, MIP, MNP, MSP, MCP, MD, MG, MN, push_from};
ghost use Rattle.nls.specs.Scan.{pixels, sets, refining, state_at};
ghost use Rattle.moves.specs.Stands.{pass_of, stand, state_of, stand_of};
ghost use Rattle.undo.specs.Back as spec;
ghost use Rattle.undo.specs.declared.Before.TheVariants.{Answer};
ghost use Rattle.undo.specs.Undoing.{Was, plain, Hushed, four_found, any_big, is_new, Stood, Room, Scanned, table_fits, stand_fits, back_fits};

use moves::Stand;

// What led to where the scan stands: nothing, a silent move from there, where no sign is pending, or an answer.
#[derive(Clone, Copy)]
pub enum Before {
    Nothing,
    Quiet(Stand),
    Answer(Stand),
}

// At a place, with no sign pending.
fn at(left: u32, pass: u32, place: usize) -> Stand
    ensures { result ≡ stand left pass place false }
{
    Stand {
        left,
        pass,
        place,
        pending: false,
    }
}

// Where the block of places that ends at `end` begins.
fn block(marks: &[u8], end: usize) -> usize
    requires { (1 ≤ length marks.now) × (end ≤ length marks.now) }
    ensures { result ≡ spec.block marks.now end }
{
    let mut size = 1;
    for _ in 0..sizes::MOST_N {
        let at = end.saturating_sub(size);
        if marks[at] != marking::NO_MARK {
            return at;
        }
        size = 4 * size;
    }
    end.saturating_sub(size)
}

// Whether the value at a place has a bit of plane `left` or above.
fn is_big(values: &[i32], left: u32, place: usize) -> bool
    requires { (place < length values.now) × (left ≤ most_planes) }
    ensures { result ≡ spec.big_in values.now left place }
{
    let v = values[place];
    1u32 << left <= coef::magnitude(v)
}

// A push, and the mark above it, taken back.
fn wipe(marks: &mut [u8], place: usize)
    requires { (length marks.old ≤ all_of most_n) × (1 ≤ place) × (place < length marks.old) }
    ensures { marks.new ≡ spec.wiped (length marks.old) place marks.old }
{
    marks[place] = marking::NO_MARK;
    let mut at = 4 * place;
    while at < marks.len() {
        marks[at] = marking::NO_MARK;
        at = 4 * at;
    }
}

// The marks below a GRAND: MN3 at 4i, MN4 at 16i and so on.
fn push_grand(marks: &mut [u8], place: usize)
    requires { (length marks.old ≤ all_of most_n) × (16 ≤ place) × (place < length marks.old) }
    ensures { marks.new ≡ push_from (length marks.old) (length marks.old) (4 * place) (MN 3) marks.old }
{
    let mut at = 4 * place;
    for k in marking::MN2 + 1..marking::CODES_END {
        if marks.len() <= at {
            break;
        }
        marks[at] = k;
        at = 4 * at;
    }
}

// DESC is one set again.
fn join_desc(marks: &mut [u8], place: usize)
    requires { (length marks.old ≤ all_of most_n) × (place + 3 < length marks.old) }
    ensures { marks.new ≡ spec.join_desc (length marks.old) place marks.old (ltb (4 * place) (length marks.old)) }
{
    marks[place] = marking::MD;
    marks[place + 1] = marking::NO_MARK;
    marks[place + 2] = marking::NO_MARK;
    marks[place + 3] = marking::NO_MARK;
    if 4 * place < marks.len() {
        marks[4 * place] = marking::MN2;
    }
}

// GRAND is one set again.
fn join_grand(marks: &mut [u8], place: usize)
    requires { (length marks.old ≤ all_of most_n) × (16 ≤ place) × (place + 12 < length marks.old) }
    ensures { marks.new ≡ spec.join_grand (length marks.old) place marks.old }
{
    wipe(marks, place + 12);
    wipe(marks, place + 8);
    wipe(marks, place + 4);
    marks[place] = marking::MG;
    push_grand(marks, place);
}

// Whether none of four marks is MSP.
fn none_old(marks: &[u8], place: usize) -> bool
    requires { place + 3 < length marks.now }
    ensures { result ≡ spec.none_is marks.now place MSP }
{
    marks[place] != marking::MSP
        && marks[place + 1] != marking::MSP
        && marks[place + 2] != marking::MSP
        && marks[place + 3] != marking::MSP
}

// Whether the four at a place were split in the plane in progress.
fn fresh(marks: &[u8], place: usize) -> bool
    requires { (length marks.now ≤ all_of most_n) × (place + 3 < length marks.now) }
    ensures { result ≡ (spec.none_is marks.now place MSP && (leb (length marks.now) (4 * place) || spec.is marks.now (4 * place) MG)) }
{
    none_old(marks, place) && (marks.len() <= 4 * place || marks[4 * place] == marking::MG)
}

// Whether four DESC begin here: those of a GRAND that was split.
fn four_descs(marks: &[u8], coarsest: usize, place: usize) -> bool
    requires { (length marks.now ≤ all_of most_n) × (coarsest ≤ length marks.now) × (place < length marks.now) }
    ensures { result ≡ spec.many_descs coarsest marks.now place }
{
    place % 16 == 0
        && 4 * coarsest <= place
        && place + 12 < marks.len()
        && marks[place] == marking::MD
        && marks[place + 4] == marking::MD
        && marks[place + 8] == marking::MD
        && marks[place + 12] == marking::MD
}

// The answer of a coefficient whose mark was `mark` is taken back: MNP shows that it was the sign.
fn unasked(marks: &mut [u8], from: Stand, mark: u8) -> Before
    requires { from.place < length marks.old }
    ensures value { result ≡ Answer (stand from.left from.pass from.place (spec.is marks.old from.place MNP)) }
    ensures marks_after { marks.new ≡ set marks.old from.place mark }
{
    let was = marks[from.place];
    marks[from.place] = mark;
    Before::Answer(Stand {
        pending: was == marking::MNP,
        ..from
    })
}

// One move back in the pixel pass.
fn prior_pixels(marks: &mut [u8], planes: u32, from: Stand) -> Before
    requires { (1 ≤ length marks.old) × (from.place ≤ length marks.old) }
    ensures { (D : ℕ) (big : ℕ → ℕ → Bool) → Was (spec.prior (length marks.old) D planes big (state_at from.left pixels from.place marks.old)) result marks.old marks.new }
{
    let left = from.left;
    if from.place == 0 {
        if left < planes {
            return Before::Quiet(at(left + 1, 2, marks.len()));
        }
        return Before::Nothing;
    }
    let head = block(marks, from.place);
    let mark = marks[head];
    if mark == marking::MIP || mark == marking::MNP {
        return unasked(marks, at(left, 0, head), marking::MIP);
    }
    Before::Quiet(at(left, 0, head))
}

// One move back in the refinement pass.
fn prior_refining(marks: &mut [u8], values: &[i32], from: Stand) -> Before
    requires { (1 ≤ length marks.old) × (from.place ≤ length marks.old) × (length values.now ≡ length marks.old) × (from.left ≤ most_planes) }
    ensures { (D P : ℕ) → Was (spec.prior (length marks.old) D P (spec.big_in values.now) (state_at from.left refining from.place marks.old)) result marks.old marks.new }
{
    let left = from.left;
    if from.place == 0 {
        return Before::Quiet(at(left, 1, marks.len()));
    }
    let head = block(marks, from.place);
    if marks[head] == marking::MSP {
        if is_big(values, left, head) {
            return Before::Answer(at(left, 2, head));
        }
        marks[head] = marking::MNP;
    }
    Before::Quiet(at(left, 2, head))
}

// Whether a mark is that of a coefficient which no set has any more.
fn alone(mark: u8) -> bool
    ensures { result ≡ (ltb no_mark mark && ltb mark MCP) }
{
    marking::NO_MARK < mark && mark < marking::MCP
}

// Whether the four at a place, below some root, were split in the plane in progress.
fn new_four(marks: &[u8], coarsest: usize, place: usize) -> bool
    requires { (length marks.now ≤ all_of most_n) × (place + 3 < length marks.now) }
    ensures { result ≡ (leb coarsest place && (spec.none_is marks.now place MSP && (leb (length marks.now) (4 * place) || spec.is marks.now (4 * place) MG))) }
{
    coarsest <= place && fresh(marks, place)
}

// One move back in the set pass, to what ends at a place.
fn prior_block(marks: &mut [u8], coarsest: usize, from: Stand) -> Before
    requires { Room coarsest marks.old from.place × (4 ≤ from.place) }
    ensures { (planes : ℕ) (big : ℕ → ℕ → Bool) → Was (spec.prior_block (length marks.old) coarsest planes big from.left from.place marks.old (spec.alone marks.old (from.place - 4)) (leb coarsest (from.place - 4) && spec.fresh (length marks.old) coarsest planes big marks.old (from.place - 4))) result marks.old marks.new }
{
    let left = from.left;
    let four = from.place - 4;
    if alone(marks[four]) {
        if new_four(marks, coarsest, four) {
            return unasked(marks, at(left, 1, from.place - 1), marking::MCP);
        }
        return Before::Quiet(at(left, 1, four));
    }
    let head = block(marks, from.place);
    let mark = marks[head];
    if mark == marking::MD || mark == marking::MG {
        return Before::Answer(at(left, 1, head));
    }
    Before::Quiet(at(left, 1, head))
}

// One move back in the set pass.
fn prior_sets(marks: &mut [u8], coarsest: usize, from: Stand) -> Before
    requires { Room coarsest marks.old from.place }
    ensures { (planes : ℕ) (big : ℕ → ℕ → Bool) → Was (spec.prior (length marks.old) coarsest planes big (state_at from.left sets from.place marks.old)) result marks.old marks.new }
{
    let left = from.left;
    let place = from.place;
    if place % 4 != 0 {
        return unasked(marks, at(left, 1, place - 1), marking::MCP);
    }
    if marks.len() <= place {
        return prior_block(marks, coarsest, from);
    }
    if marks[place] == marking::MCP {
        join_desc(marks, place);
        return Before::Answer(at(left, 1, place));
    }
    if four_descs(marks, coarsest, place) {
        join_grand(marks, place);
        return Before::Answer(at(left, 1, place));
    }
    if place == 0 {
        return Before::Quiet(at(left, 0, marks.len()));
    }
    prior_block(marks, coarsest, from)
}

// One move back from where no sign is pending.
fn prior(marks: &mut [u8], values: &[i32], coarsest: usize, planes: u32, from: Stand) -> Before
    requires { Room coarsest marks.old from.place × Scanned (length marks.old) planes values.now from.left from.pass }
    ensures { Was (spec.prior (length marks.old) coarsest planes (spec.big_in values.now) (plain from marks.old)) result marks.old marks.new }
{
    match from.pass {
        0 => prior_pixels(marks, planes, from),
        1 => prior_sets(marks, coarsest, from),
        _ => prior_refining(marks, values, from),
    }
}

// Whether the four coefficients before a place were found before this plane, or in it.
fn four_found(marks: &[u8], place: usize) -> bool
    ensures { result ≡ four_found marks.now place }
{
    4 <= place && marking::same_four(marks, place - 4, marking::MSP)
}

// Back over the coefficients before a place that are found, four at a time where it can be: the pixel pass asked nothing there.
fn back_old(marks: &[u8], place: usize) -> usize
    requires { place ≤ length marks.now }
    ensures { (D P l : ℕ) (big : ℕ → ℕ → Bool) → l ≤ P → Hushed (length marks.now) D P big l pixels place marks.now result marks.now }
{
    // Kept: a while, since it goes by fours as long as a test of four marks holds.
    let mut at = place;
    while four_found(marks, at) {
        at -= 4;
    }
    for i in (0..at).rev() {
        if marks[i] != marking::MSP {
            return i + 1;
        }
    }
    0
}

// Whether one of four values has a bit of plane `left` or above.
fn any_big(values: &[i32], left: u32, place: usize) -> bool
    requires { (place + 3 < length values.now) × (left ≤ most_planes) }
    ensures { result ≡ any_big (spec.big_in values.now) left place }
{
    let a = values[place];
    let b = values[place + 1];
    let c = values[place + 2];
    let d = values[place + 3];
    let two = coef::magnitude(a) | coef::magnitude(b);
    let more = coef::magnitude(c) | coef::magnitude(d);
    1u32 << left <= two | more
}

// Whether the four coefficients before a place were found in this plane.
fn four_new(marks: &[u8], values: &[i32], left: u32, place: usize) -> bool
    requires { (length values.now ≡ length marks.now) × (left ≤ most_planes) }
    ensures { result ≡ (four_found marks.now place && not (any_big (spec.big_in values.now) left (place - 4))) }
{
    four_found(marks, place) && !any_big(values, left, place - 4)
}

// Whether the refinement pass asked nothing at a place, since the coefficient there is not found, or was found in this plane; MSP
// becomes MNP again.
fn was_new(marks: &mut [u8], values: &[i32], left: u32, place: usize) -> bool
    requires { (place < length marks.old) × (length values.now ≡ length marks.old) × (left ≤ most_planes) }
    ensures value { result ≡ (spec.is marks.old place MIP || is_new (spec.big_in values.now) left marks.old place) }
    ensures marks_after { marks.new ≡ cond (is_new (spec.big_in values.now) left marks.old place) (set marks.old place MNP) marks.old }
{
    let mark = marks[place];
    if mark == marking::MSP && !is_big(values, left, place) {
        marks[place] = marking::MNP;
        return true;
    }
    mark == marking::MIP
}

// Back over such coefficients before a place, four at a time where it can be.
fn back_new(marks: &mut [u8], values: &[i32], left: u32, place: usize) -> usize
    requires { (place ≤ length marks.old) × (length values.now ≡ length marks.old) × (left ≤ most_planes) }
    ensures { (D P : ℕ) → left ≤ P → Hushed (length marks.old) D P (spec.big_in values.now) left refining place marks.old result marks.new }
{
    // Kept: a while, since it writes by fours as long as a test of four marks holds.
    let mut at = place;
    while four_new(marks, values, left, at) {
        marking::set_four(marks, at - 4, marking::MNP);
        at -= 4;
    }
    for i in (0..at).rev() {
        if !was_new(marks, values, left, i) {
            return i + 1;
        }
    }
    0
}

// Whether the four at a place are in no set, and were split before this plane.
fn old_four(marks: &[u8], coarsest: usize, place: usize) -> bool
    requires { (length marks.now ≤ all_of most_n) × (place + 3 < length marks.now) }
    ensures { result ≡ (spec.alone marks.now place && not (leb coarsest place && (spec.none_is marks.now place MSP && (leb (length marks.now) (4 * place) || spec.is marks.now (4 * place) MG)))) }
{
    alone(marks[place]) && !new_four(marks, coarsest, place)
}

// Back over such fours before a place, which is the end, or where such a four begins: the set pass asked nothing there.
fn back_alone(marks: &[u8], coarsest: usize, place: usize) -> usize
    requires { Room coarsest marks.now place × (place % 4 ≡ 0) × (place < length marks.now → spec.alone marks.now place ≡ true) }
    ensures { (P l : ℕ) (big : ℕ → ℕ → Bool) → l ≤ P → Hushed (length marks.now) coarsest P big l sets place marks.now result marks.now }
{
    // Kept: a while, since it counts back by fours; a `for` over place / 4 of them would return a product.
    let mut at = place;
    while 4 <= at && old_four(marks, coarsest, at - 4) {
        at -= 4;
    }
    at
}

// Whether a place is the end, or where four begin that are in no set.
fn at_four(marks: &[u8], place: usize) -> bool
    requires { place ≤ length marks.now }
    ensures { result ≡ (eqb (place % 4) 0 && (leb (length marks.now) place || spec.alone marks.now place)) }
{
    place % 4 == 0 && (marks.len() <= place || alone(marks[place]))
}

// Back over the places of a pass where it asked nothing, as far as it is seen by their marks alone, or by values of their own.
fn run_back(marks: &mut [u8], values: &[i32], coarsest: usize, from: Stand) -> usize
    requires { Room coarsest marks.old from.place × (length values.now ≡ length marks.old) × (from.left ≤ most_planes) × (from.pass < 3) }
    ensures { (P : ℕ) → from.left ≤ P → Hushed (length marks.old) coarsest P (spec.big_in values.now) from.left (pass_of from.pass) from.place marks.old result marks.new }
{
    let place = from.place;
    match from.pass {
        0 => back_old(marks, place),
        1 if at_four(marks, place) => back_alone(marks, coarsest, place),
        1 => place,
        _ => back_new(marks, values, from.left, place),
    }
}

// The way back from where no sign is pending: silent moves, and the answer before them.
fn way_back(marks: &mut [u8], values: &[i32], coarsest: usize, planes: u32, from: Stand) -> Stand
    requires { Room coarsest marks.old from.place × Scanned (length marks.old) planes values.now from.left from.pass }
    ensures { Stood (spec.back (length marks.old) coarsest planes (spec.big_in values.now) (plain from marks.old)) result marks.new }
{
    let mut last = from;
    loop {
        match prior(marks, values, coarsest, planes, last) {
            Before::Nothing => {
                return at(last.left, last.pass, last.place);
            }
            Before::Quiet(next) => {
                let place = run_back(marks, values, coarsest, next);
                last = at(next.left, next.pass, place);
            }
            Before::Answer(stand) => {
                return stand;
            }
        }
    }
}

// Whether tables of this many marks and values may be gone back in.
#[tactic(auto, unfolding(crate::specs::Undoing::table_fits))]
fn table_fits(all: usize, count: usize, coarsest: usize) -> bool
    ensures { result ≡ table_fits all count coarsest }
{
    all <= sizes::all_of(sizes::MOST_N)
        && count == all
        && all % 16 == 0
        && 4 <= coarsest
        && coarsest <= all / 4
}

// Whether the scan can stand there.
#[tactic(auto, unfolding(crate::specs::Undoing::stand_fits))]
fn stand_fits(all: usize, planes: u32, from: Stand) -> bool
    ensures { result ≡ stand_fits all planes from }
{
    planes <= sizes::MOST_PLANES && from.left <= planes && from.pass < 3 && from.place <= all
}

// One bit back: where the scan stood before its last answer, with its marks in `marks`. It tells by the values which coefficients
// were found before the plane in progress. Where there was no answer, this is where the silent moves began; where the sizes or the
// stand do not fit, all stays as it is.
pub fn go_back(marks: &mut [u8], values: &[i32], coarsest: usize, planes: u32, from: Stand) -> Stand
    ensures value { result ≡ cond (back_fits (length marks.old) (length values.now) coarsest planes from) (stand_of (spec.back (length marks.old) coarsest planes (spec.big_in values.now) (state_of from marks.old))) from }
    ensures marks_after { marks.new ≡ cond (back_fits (length marks.old) (length values.now) coarsest planes from) (spec.back (length marks.old) coarsest planes (spec.big_in values.now) (state_of from marks.old)).marks marks.old }
{
    if !table_fits(marks.len(), values.len(), coarsest) || !stand_fits(marks.len(), planes, from) {
        return from;
    }
    if from.pending {
        return at(from.left, from.pass, from.place);
    }
    way_back(marks, values, coarsest, planes, from)
}
