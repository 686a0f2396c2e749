// The table of marks: skips, splits, and the table before the first bit.
#![tactic(auto)]

ghost use Rattle.std.specs.Prelude.{◌≡◌, cond, ◌+◌, ◌*◌, ◌%◌, ◌<◌, ◌≤◌, leb, length, replicate, set};
ghost use Rattle.sizes.specs.Sizes.{most_n, all_of};
ghost use Rattle.nls.specs.Marks.{start_marks};
ghost use Rattle.marking.specs.Marking.{skip_of, set_skip_of, push_most, new_desc, desc_split_marks, grand_split_marks, same_four, set_four, in_table, start_fits};

// The marks: none; a coefficient that is not found, one found in this plane, one found before, one whose set was just split;
// a DESC, a GRAND; and MN2, the first of the marks that skip more.
pub const NO_MARK: u8 = 0;

pub const MIP: u8 = 1;

pub const MNP: u8 = 2;

pub const MSP: u8 = 3;

pub const MCP: u8 = 4;

pub const MD: u8 = 5;

pub const MG: u8 = 6;

pub const MN2: u8 = 7;

// Behind the last of them: MNk is k + 5, and k is below N.
pub const CODES_END: u8 = sizes::MOST_N as u8 + 5;

// How far a mark is skipped in the pixel and the refinement pass: a power of 4, whose exponent the constant has at digit `mark`.
pub fn skip(mark: u8) -> usize
    ensures { result ≡ skip_of mark }
{
    if 15 < mark {
        return 1;
    }
    let half = (0x0987654322100000u64 >> (4 * mark as u32)) % 16;
    1 << (2 * half as u32)
}

// How far a mark is skipped in the set pass.
pub fn set_skip(mark: u8) -> usize
    ensures { result ≡ set_skip_of mark }
{
    if mark < MD {
        return 4;
    }
    skip(mark)
}

// Every entry becomes v.
pub fn fill(dst: &mut [u8], v: u8)
    ensures { dst.new ≡ replicate (length dst.old) v }
{
    dst.fill(v);
}

// A mark; past the end nothing is written.
// Kept: of the table behind `marks.get_mut(place)` a proof knows the length and no entry, so that the write through it did not close.
fn store(marks: &mut [u8], place: usize, code: u8)
    ensures { marks.new ≡ set marks.old place code }
{
    if place < marks.len() {
        marks[place] = code;
    }
}

// The places 4i, 16i and so on get their marks, only while the place is below I.
fn push(marks: &mut [u8], all: usize, place: usize)
    requires { (length marks.old ≡ all) × (all ≤ all_of most_n) × (place < 2 * all_of most_n) }
    ensures { marks.new ≡ push_most all place marks.old }
{
    let mut at = 4 * place;
    // Kept: as in `store`, a write through `marks.get_mut(at)` did not close.
    for k in MN2..CODES_END {
        if all <= at {
            break;
        }
        marks[at] = k;
        at = 4 * at;
    }
}

// Whether a table of this many marks may be split at this place.
fn in_table(all: usize, place: usize) -> bool
    ensures { result ≡ in_table all place }
{
    if all <= sizes::all_of(sizes::MOST_N) {
        return place < all;
    }
    false
}

// Four coefficients by themselves; past the end nothing is written. Where all four are in the table one test does.
fn four_alone(marks: &mut [u8], place: usize)
    requires { place < all_of most_n }
    ensures { marks.new ≡ set_four marks.old place 4 }
{
    if place + 3 < marks.len() {
        marks[place..place + 4].fill(MCP);
        return;
    }
    store(marks, place, MCP);
    store(marks, place + 1, MCP);
    store(marks, place + 2, MCP);
    store(marks, place + 3, MCP);
}

// DESC is split: four coefficients by themselves, and the GRAND below them, if there is one.
fn open_desc(marks: &mut [u8], all: usize, place: usize)
    requires { (length marks.old ≡ all) × (all ≤ all_of most_n) × (place < all_of most_n) }
    ensures { marks.new ≡ desc_split_marks all place marks.old }
{
    four_alone(marks, place);
    if 4 * place < all {
        marks[4 * place] = MG;
    }
}

// The same; a table that is too large, or that has no such place, stays as it is.
pub fn split_desc(marks: &mut [u8], place: usize)
    ensures { marks.new ≡ cond (in_table (length marks.old) place) (desc_split_marks (length marks.old) place marks.old) marks.old }
{
    let all = marks.len();
    if in_table(all, place) {
        open_desc(marks, all, place);
    }
}

// A DESC, pushed.
fn new_desc(marks: &mut [u8], all: usize, place: usize)
    requires { (length marks.old ≡ all) × (all ≤ all_of most_n) × (place < 2 * all_of most_n) }
    ensures { marks.new ≡ new_desc all place marks.old }
{
    store(marks, place, MD);
    push(marks, all, place);
}

// GRAND is split: four DESC, each pushed.
fn open_grand(marks: &mut [u8], all: usize, place: usize)
    requires { (length marks.old ≡ all) × (all ≤ all_of most_n) × (place < all_of most_n) }
    ensures { marks.new ≡ grand_split_marks all place marks.old }
{
    new_desc(marks, all, place);
    new_desc(marks, all, place + 4);
    new_desc(marks, all, place + 8);
    new_desc(marks, all, place + 12);
}

// The same, under the same conditions.
pub fn split_grand(marks: &mut [u8], place: usize)
    ensures { marks.new ≡ cond (in_table (length marks.old) place) (grand_split_marks (length marks.old) place marks.old) marks.old }
{
    let all = marks.len();
    if in_table(all, place) {
        open_grand(marks, all, place);
    }
}

// Whether four entries from a place on are in a table of this many.
fn four_in(all: usize, place: usize) -> bool
    ensures { result ≡ leb (place + 4) all }
{
    if all < 4 {
        return false;
    }
    place <= all - 4
}

// Whether the four marks from a place on are all this one.
pub fn same_four(marks: &[u8], place: usize, mark: u8) -> bool
    ensures { result ≡ same_four marks.now place mark }
{
    if !four_in(marks.len(), place) {
        return false;
    }
    marks[place..place + 4].iter().all(|x| *x == mark)
}

// The four marks from a place on become this one; a table that has no such four stays as it is.
pub fn set_four(marks: &mut [u8], place: usize, mark: u8)
    ensures { marks.new ≡ cond (leb (place + 4) (length marks.old)) (set_four marks.old place mark) marks.old }
{
    if four_in(marks.len(), place) {
        marks[place..place + 4].fill(mark);
    }
}

// Whether a table of this many marks can begin with a coarsest band of this size.
fn start_fits(all: usize, coarsest: usize) -> bool
    ensures { result ≡ start_fits all coarsest }
{
    if sizes::all_of(sizes::MOST_N) < all {
        return false;
    }
    if coarsest < 4 {
        return false;
    }
    if all / 4 < coarsest {
        return false;
    }
    coarsest % 4 == 0
}

// The table before the first bit.
fn begin(marks: &mut [u8], all: usize, coarsest: usize)
    requires { (length marks.old ≡ all) × (all ≤ all_of most_n) × (4 ≤ coarsest) × (4 * coarsest ≤ all) × (coarsest % 4 ≡ 0) }
    ensures { marks.new ≡ start_marks all coarsest }
{
    marks.fill(NO_MARK);
    marks[..coarsest].fill(MIP);
    for j in coarsest / 4..coarsest {
        new_desc(marks, all, 4 * j);
    }
}

// The same; a table that can't begin so stays as it is.
pub fn start(marks: &mut [u8], coarsest: usize)
    ensures { marks.new ≡ cond (start_fits (length marks.old) coarsest) (start_marks (length marks.old) coarsest) marks.old }
{
    let all = marks.len();
    if start_fits(all, coarsest) {
        begin(marks, all, coarsest);
    }
}
