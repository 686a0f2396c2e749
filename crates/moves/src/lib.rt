// The scan, one answer at a time: what an answer does to the marks, and the silent moves after it.
#![tactic(auto)]

ghost use Rattle.std.specs.Prelude.{◌≡◌, true, false, cond, ◌||◌, ◌+◌, ◌<◌, ◌≤◌, min, eqb, length, get_or, set};
ghost use Rattle.sizes.specs.Sizes.{most_n, all_of};
ghost use Rattle.nls.specs.Marks.{MIP, MNP, MSP, skip};
ghost use Rattle.nls.specs.Scan.{pixels, sets, refining, state_at, settle};
ghost use Rattle.moves.specs.Stands.{stand, state_of, stand_of};
ghost use Rattle.moves.specs.Moves.{told, onward, Moves, Passed, stand_fits};

// Where the scan stands: the planes that are not finished, the pass (0, 1 or 2), the place, and whether a sign is pending.
#[derive(Clone, Copy)]
pub struct Stand {
    pub left: u32,
    pub pass: u32,
    pub place: usize,
    pub pending: bool,
}

// At a place, with no sign pending; and with one.
fn at(left: u32, pass: u32, place: usize) -> Stand
    ensures { result ≡ stand left pass place false }
{
    Stand {
        left,
        pass,
        place,
        pending: false,
    }
}

fn waiting(left: u32, pass: u32, place: usize) -> Stand
    ensures { result ≡ stand left pass place true }
{
    Stand {
        left,
        pass,
        place,
        pending: true,
    }
}

// Behind the mark at a place; a code without a meaning skips all. In the set pass this is asked of the marks of sets alone.
fn behind(marks: &[u8], place: usize) -> usize
    requires { (place < length marks.now) × (length marks.now ≤ all_of most_n) }
    ensures { (min result (length marks.now) ≡ min (place + skip (get_or marks.now place 0)) (length marks.now)) × (place < result) }
{
    let mark = marks[place];
    if mark < marking::CODES_END {
        return place + marking::skip(mark);
    }
    marks.len()
}

// Over the coefficients from a place on that were found before this plane, four at a time where it can be: the pixel pass asks
// nothing there.
fn over_old(marks: &[u8], place: usize) -> usize
    requires { (place ≤ length marks.now) × (length marks.now ≤ all_of most_n) }
    ensures { Passed (length marks.now) pixels place marks.now result marks.now }
{
    let mut at = place;
    // Kept: a while, since it goes by fours as long as a test of four marks holds.
    while marking::same_four(marks, at, marking::MSP) {
        at += 4;
    }
    for i in at..marks.len() {
        if marks[i] != marking::MSP {
            return i;
        }
    }
    marks.len()
}

// Over the fours from a place on that are in no set: the set pass asks nothing there.
fn over_alone(marks: &[u8], place: usize) -> usize
    requires { length marks.now ≤ all_of most_n }
    ensures { Passed (length marks.now) sets place marks.now result marks.now }
{
    let mut at = place;
    // Kept: a while, since it counts by fours, and its end is the answer also where that is past the marks.
    while at < marks.len() && marks[at] < marking::MCP {
        at += 4;
    }
    at
}

// Whether the refinement pass asks nothing at a place, since the coefficient there is not found, or was found in this plane; MNP
// becomes MSP.
fn is_new(marks: &mut [u8], place: usize) -> bool
    requires { place < length marks.old }
    ensures value { result ≡ (eqb (get_or marks.old place 0) MIP || eqb (get_or marks.old place 0) MNP) }
    ensures marks_after { marks.new ≡ cond (eqb (get_or marks.old place 0) MNP) (set marks.old place MSP) marks.old }
{
    let mark = marks[place];
    if mark == marking::MNP {
        marks[place] = marking::MSP;
        return true;
    }
    mark == marking::MIP
}

// Over such coefficients from a place on, four at a time where it can be.
fn over_new(marks: &mut [u8], place: usize) -> usize
    requires { (place ≤ length marks.old) × (length marks.old ≤ all_of most_n) }
    ensures { Passed (length marks.old) refining place marks.old result marks.new }
{
    let mut at = place;
    // Kept: a while, since it writes by fours as long as a test of four marks holds.
    while marking::same_four(marks, at, marking::MNP) {
        marking::set_four(marks, at, marking::MSP);
        at += 4;
    }
    for i in at..marks.len() {
        if !is_new(marks, i) {
            return i;
        }
    }
    marks.len()
}

// A place of the pixel pass.
fn look_pixels(marks: &[u8], from: Stand) -> Option<Stand>
    requires { (length marks.now ≤ all_of most_n) × (1 ≤ from.left) }
    ensures { Moves (length marks.now) (state_at from.left pixels from.place marks.now) result marks.now }
{
    if marks.len() <= from.place {
        return Some(at(from.left, 1, 0));
    }
    let mark = marks[from.place];
    if mark == marking::MIP {
        return None;
    }
    if mark == marking::MSP {
        return Some(at(from.left, 0, over_old(marks, from.place + 1)));
    }
    Some(at(from.left, 0, behind(marks, from.place)))
}

// A place of the set pass.
fn look_sets(marks: &[u8], from: Stand) -> Option<Stand>
    requires { (length marks.now ≤ all_of most_n) × (1 ≤ from.left) }
    ensures { Moves (length marks.now) (state_at from.left sets from.place marks.now) result marks.now }
{
    if marks.len() <= from.place {
        return Some(at(from.left, 2, 0));
    }
    let mark = marks[from.place];
    if mark < marking::MCP {
        return Some(at(from.left, 1, over_alone(marks, from.place + 4)));
    }
    if mark == marking::MCP || mark == marking::MD || mark == marking::MG {
        return None;
    }
    Some(at(from.left, 1, behind(marks, from.place)))
}

// A place of the refinement pass. Behind the last one the plane has ended.
fn look_refining(marks: &mut [u8], from: Stand) -> Option<Stand>
    requires { (length marks.old ≤ all_of most_n) × (1 ≤ from.left) }
    ensures { Moves (length marks.old) (state_at from.left refining from.place marks.old) result marks.new }
{
    if marks.len() <= from.place {
        return Some(at(from.left - 1, 0, 0));
    }
    if marks[from.place] == marking::MSP {
        return None;
    }
    if is_new(marks, from.place) {
        return Some(at(from.left, 2, over_new(marks, from.place + 1)));
    }
    Some(at(from.left, 2, behind(marks, from.place)))
}

// Where the scan goes on to by itself, if it does: it rests at a question and at its end.
fn look(marks: &mut [u8], from: Stand) -> Option<Stand>
    requires { length marks.old ≤ all_of most_n }
    ensures { Moves (length marks.old) (state_of from marks.old) result marks.new }
{
    if from.pending || from.left == 0 {
        return None;
    }
    match from.pass {
        0 => look_pixels(marks, from),
        1 => look_sets(marks, from),
        _ => look_refining(marks, from),
    }
}

// All silent moves, up to a question or the end.
fn rest(marks: &mut [u8], from: Stand) -> Stand
    requires { (length marks.old ≤ all_of most_n) × (from.pass < 3) }
    ensures stand { result ≡ stand_of (settle (length marks.old) (state_of from marks.old)) }
    ensures marked { marks.new ≡ (settle (length marks.old) (state_of from marks.old)).marks }
{
    let mut stand = from;
    while let Some(next) = look(marks, stand) {
        stand = next;
    }
    stand
}

// The answer to a question of the set pass.
fn tell_sets(marks: &mut [u8], from: Stand, bit: bool) -> Stand
    requires { (from.place < length marks.old) × (length marks.old ≤ all_of most_n) × (from.pass ≡ 1) × (from.pending ≡ false) }
    ensures stand { result ≡ stand_of (told (length marks.old) (state_of from marks.old) bit) }
    ensures marked { marks.new ≡ (told (length marks.old) (state_of from marks.old) bit).marks }
{
    let left = from.left;
    let place = from.place;
    let mark = marks[place];
    if mark == marking::MD {
        if bit {
            marking::split_desc(marks, place);
            return from;
        }
        return at(left, 1, place + 4);
    }
    if mark == marking::MG {
        if bit {
            marking::split_grand(marks, place);
            return from;
        }
        return at(left, 1, place + 16);
    }
    if bit {
        return waiting(left, 1, place);
    }
    marks[place] = marking::MIP;
    at(left, 1, place + 1)
}

// The answer to a question.
fn tell(marks: &mut [u8], from: Stand, bit: bool) -> Stand
    requires { (from.place < length marks.old) × (length marks.old ≤ all_of most_n) × (from.pass < 3) }
    ensures stand { result ≡ stand_of (told (length marks.old) (state_of from marks.old) bit) }
    ensures marked { marks.new ≡ (told (length marks.old) (state_of from marks.old) bit).marks }
{
    let left = from.left;
    let pass = from.pass;
    let place = from.place;
    if from.pending {
        marks[place] = marking::MNP;
        return at(left, pass, place + 1);
    }
    match pass {
        0 if bit => waiting(left, 0, place),
        0 => at(left, 0, place + 1),
        1 => tell_sets(marks, from, bit),
        _ => at(left, 2, place + 1),
    }
}

// Whether the scan stands so in a table of this many marks.
#[tactic(auto, using(marking::proofs::Laws::most_all), unfolding(crate::specs::Moves::stand_fits, marking::specs::Marking::in_table))]
fn stand_fits(all: usize, from: Stand) -> bool
    ensures { result ≡ stand_fits all from }
{
    all <= sizes::all_of(sizes::MOST_N) && from.place < all && from.pass < 3
}

// The answer to the question where the scan stands, and the silent moves after it. Where the scan can't stand so, nothing is done.
pub fn go_on(marks: &mut [u8], from: Stand, bit: bool) -> Stand
    ensures stand { result ≡ cond (stand_fits (length marks.old) from) (stand_of (onward (length marks.old) (state_of from marks.old) bit)) from }
    ensures marked { marks.new ≡ cond (stand_fits (length marks.old) from) (onward (length marks.old) (state_of from marks.old) bit).marks marks.old }
{
    if stand_fits(marks.len(), from) {
        let told = tell(marks, from, bit);
        return rest(marks, told);
    }
    from
}
