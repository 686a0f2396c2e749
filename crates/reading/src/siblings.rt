// The decoder's scan while there is room: four siblings at once.
// What is not as awaited, and the last 128 bits of a body, are left to the scan that goes by one place at a time.
ghost use Rattle.std.specs.Prelude.{◌≡◌, true, false, ◌+◌, ◌*◌, ◌/◌, ◌%◌, ◌^◌, ◌<◌, ◌≤◌, length, get_or};
ghost use Rattle.sizes.specs.Sizes.{most_n, most_planes, all_of};
ghost use Rattle.bits.specs.Bits.{bit, digit};
ghost use Rattle.walk.specs.Scans.{planes, left_of, Resumes, left_at, pass_at};
ghost use Rattle.walk.specs.Visits.{scan_of};
ghost use Rattle.fours.specs.Tables.{parsed_table, placed_table, row_table, in_byte, end4, found_of, minus_of};
ghost use Rattle.reading.specs.Reading.{reader, st, Sizes};
ghost use Rattle.reading.specs.Siblings.{goes, rests, Ahead, Led, Gone};

use crate::values::{found_four, refined_four, window};
use crate::{Frame, Handed, Went};

// The tables by which a step hears what bits say: where the bits of four lie, which of the four have one, and the four as a row.
#[derive(Clone, Copy)]
struct Lookups<'a> {
    parsed: &'a [u32; 256],
    placed: &'a [u8; 256],
    rows: &'a [u32; 64],
}

// What stays the same through the steps: the frame, the most bits that may be used before a step, and the tables.
#[derive(Clone, Copy)]
struct Sweep<'a> {
    frame: Frame,
    safe: usize,
    lookups: Lookups<'a>,
}

// A step that goes on, and one that does not.
fn goes(n: usize, place: usize) -> Went
    ensures { result ≡ goes n place }
{
    Went { on: true, n, place }
}

fn rests(n: usize, place: usize) -> Went
    ensures { result ≡ rests n place }
{
    Went {
        on: false,
        n,
        place,
    }
}

// What eight bits say of the four of k: how many are used, which are found, and which of these have a minus.
#[derive(Clone, Copy)]
struct Heard {
    used: usize,
    found: usize,
    minus: usize,
}

fn listen<'a>(lookups: Lookups<'a>, k: u32, byte: u32) -> Heard
    requires { (lookups.parsed.now ≡ parsed_table) × (lookups.placed.now ≡ placed_table) × (k < 16) × (byte < 256) }
    ensures { (result.used ≡ end4 (bit k) (in_byte byte)) × (result.found ≡ found_of (bit k) (in_byte byte)) × (result.minus ≡ minus_of (bit k) (in_byte byte)) }
{
    let e = lookups.parsed[byte as usize];
    let a = lookups.placed[(16 * k + e / 1048576 % 16) as usize];
    let s = lookups.placed[(16 * k + e / 16777216) as usize];
    Heard {
        used: ((e >> (4 * fours::count(k))) % 16) as usize,
        found: a as usize,
        minus: s as usize,
    }
}

// A step of the pixel pass.
fn pixels<'a>(
    body: &[u8],
    marks: &mut [u8],
    values: &mut [i32],
    sweep: Sweep<'a>,
    b: u32,
    place: usize,
    n: usize,
) -> Went
    requires { Ahead body.now marks.old values.old sweep.frame.all sweep.frame.usable sweep.safe b place n × (sweep.lookups.parsed.now ≡ parsed_table) × (sweep.lookups.placed.now ≡ placed_table) × (sweep.lookups.rows.now ≡ row_table) }
    ensures { Gone body.now sweep.entry.frame.all sweep.entry.frame.coarsest sweep.entry.frame.top sweep.entry.frame.usable b 0 place marks.old values.old n result marks.new values.new }
{
    let mark = marks[place];
    if marking::MCP < mark {
        let next = place + marking::skip(mark);
        return goes(n, next);
    }
    let w = fours::word_at(marks, place);
    if sweep.safe < n || !fours::low(w) {
        return rests(n, place);
    }
    let k = fours::ones(w);
    if k == 0 {
        return goes(n, place + 4);
    }
    let h = listen(sweep.lookups, k, window(body, n) / 256);
    found_four(values, sweep.lookups.rows, b, place, h.found, h.minus);
    fours::set_word(marks, place, w + fours::spread(h.found as u32));
    goes(n + h.used, place + 4)
}

// A step of the refinement pass.
fn refine<'a>(
    body: &[u8],
    marks: &mut [u8],
    values: &mut [i32],
    sweep: Sweep<'a>,
    b: u32,
    place: usize,
    n: usize,
) -> Went
    requires { Ahead body.now marks.old values.old sweep.frame.all sweep.frame.usable sweep.safe b place n × (sweep.lookups.placed.now ≡ placed_table) × (sweep.lookups.rows.now ≡ row_table) }
    ensures { Gone body.now sweep.entry.frame.all sweep.entry.frame.coarsest sweep.entry.frame.top sweep.entry.frame.usable b 2 place marks.old values.old n result marks.new values.new }
{
    let mark = marks[place];
    if marking::MCP < mark {
        let next = place + marking::skip(mark);
        return goes(n, next);
    }
    let w = fours::word_at(marks, place);
    if w == 0x01010101 {
        return goes(n, place + 4);
    }
    if sweep.safe < n || !fours::low(w) {
        return rests(n, place);
    }
    let k = fours::threes(w);
    let a = sweep.lookups.placed[(16 * k + window(body, n) / 4096) as usize];
    refined_four(values, sweep.lookups.rows, b, place, a as usize);
    fours::set_word(marks, place, fours::refined(w));
    goes(n + fours::count(k) as usize, place + 4)
}

// The test of a DESC, and after a 1 its four children. A 0 that fits no array is left to the other scan.
fn test_desc<'a>(
    body: &[u8],
    marks: &mut [u8],
    values: &mut [i32],
    sweep: Sweep<'a>,
    b: u32,
    place: usize,
    n: usize,
) -> Went
    requires { Ahead body.now marks.old values.old sweep.frame.all sweep.frame.usable sweep.safe b place n × (sweep.lookups.parsed.now ≡ parsed_table) × (sweep.lookups.placed.now ≡ placed_table) × (sweep.lookups.rows.now ≡ row_table) × Sizes sweep.frame.all sweep.frame.coarsest sweep.frame.top × (n ≤ sweep.safe) × (4 ≤ place) × (get_or marks.old place 0 ≡ 5) }
    ensures { Gone body.now sweep.entry.frame.all sweep.entry.frame.coarsest sweep.entry.frame.top sweep.entry.frame.usable b 1 place marks.old values.old n result marks.new values.new }
{
    let w = window(body, n);
    if w < 32768 {
        if crate::desc_clash(marks, sweep.frame.coarsest, sweep.frame.top, n, b, place) {
            return rests(n, place);
        }
        return goes(n + 1, place + 4);
    }
    let h = listen(sweep.lookups, 15, w / 128 % 256);
    if place % 4 != 0 {
        return rests(n, place);
    }
    if h.found == 0 && sweep.frame.all <= 4 * place {
        return rests(n, place);
    }
    marking::split_desc(marks, place);
    found_four(values, sweep.lookups.rows, b, place, h.found, h.minus);
    fours::set_word(marks, place, 0x01010101 + fours::spread(h.found as u32));
    goes(n + 1 + h.used, place + 4)
}

// The test of a GRAND. A 0 that fits no array is left to the other scan.
fn test_grand<'a>(
    body: &[u8],
    marks: &mut [u8],
    values: &[i32],
    sweep: Sweep<'a>,
    b: u32,
    place: usize,
    n: usize,
) -> Went
    requires { Ahead body.now marks.old values.now sweep.frame.all sweep.frame.usable sweep.safe b place n × Sizes sweep.frame.all sweep.frame.coarsest sweep.frame.top × (n ≤ sweep.safe) × (get_or marks.old place 0 ≡ 6) }
    ensures { Gone body.now sweep.entry.frame.all sweep.entry.frame.coarsest sweep.entry.frame.top sweep.entry.frame.usable b 1 place marks.old values.now n result marks.new values.now }
{
    if window(body, n) < 32768 {
        if crate::grand_clash(marks, place) {
            return rests(n, place);
        }
        return goes(n + 1, place + 16);
    }
    marking::split_grand(marks, place);
    goes(n + 1, place)
}

// A step of the set pass.
fn sets<'a>(
    body: &[u8],
    marks: &mut [u8],
    values: &mut [i32],
    sweep: Sweep<'a>,
    b: u32,
    place: usize,
    n: usize,
) -> Went
    requires { Ahead body.now marks.old values.old sweep.frame.all sweep.frame.usable sweep.safe b place n × (sweep.lookups.parsed.now ≡ parsed_table) × (sweep.lookups.placed.now ≡ placed_table) × (sweep.lookups.rows.now ≡ row_table) × Sizes sweep.frame.all sweep.frame.coarsest sweep.frame.top }
    ensures { Gone body.now sweep.entry.frame.all sweep.entry.frame.coarsest sweep.entry.frame.top sweep.entry.frame.usable b 1 place marks.old values.old n result marks.new values.new }
{
    let mark = marks[place];
    if mark < marking::MCP {
        return goes(n, place + 4);
    }
    if mark == marking::MD {
        if sweep.safe < n || place < 4 {
            return rests(n, place);
        }
        return test_desc(body, marks, values, sweep, b, place, n);
    }
    if mark == marking::MG {
        if sweep.safe < n {
            return rests(n, place);
        }
        return test_grand(body, marks, values, sweep, b, place, n);
    }
    if mark == marking::MCP {
        return rests(n, place);
    }
    let next = place + marking::set_skip(mark);
    goes(n, next)
}

// A step of a pass.
fn step<'a>(
    body: &[u8],
    marks: &mut [u8],
    values: &mut [i32],
    sweep: Sweep<'a>,
    b: u32,
    pass: u32,
    place: usize,
    n: usize,
) -> Went
    requires { Ahead body.now marks.old values.old sweep.frame.all sweep.frame.usable sweep.safe b place n × (sweep.lookups.parsed.now ≡ parsed_table) × (sweep.lookups.placed.now ≡ placed_table) × (sweep.lookups.rows.now ≡ row_table) × Sizes sweep.frame.all sweep.frame.coarsest sweep.frame.top × (pass < 3) }
    ensures { Gone body.now sweep.entry.frame.all sweep.entry.frame.coarsest sweep.entry.frame.top sweep.entry.frame.usable b pass place marks.old values.old n result marks.new values.new }
{
    match pass {
        0 => pixels(body, marks, values, sweep, b, place, n),
        1 => sets(body, marks, values, sweep, b, place, n),
        _ => refine(body, marks, values, sweep, b, place, n),
    }
}

// A pass from its first place on, as far as there is room and marks are as awaited.
fn pass_on<'a>(
    body: &[u8],
    marks: &mut [u8],
    values: &mut [i32],
    sweep: Sweep<'a>,
    b: u32,
    pass: u32,
    n0: usize,
) -> Went
    requires { Ahead body.now marks.old values.old sweep.frame.all sweep.frame.usable sweep.safe b 0 n0 × (sweep.lookups.parsed.now ≡ parsed_table) × (sweep.lookups.placed.now ≡ placed_table) × (sweep.lookups.rows.now ≡ row_table) × Sizes sweep.frame.all sweep.frame.coarsest sweep.frame.top × (pass < 3) }
    ensures { Led body.now sweep.entry.frame.all sweep.entry.frame.coarsest sweep.entry.frame.top sweep.entry.frame.usable b pass 0 marks.old values.old n0 result.place result.n marks.new values.new }
{
    let last = marks.len() - 4;
    let mut n = n0;
    let mut place = 0;
    while place <= last {
        let r = step(body, marks, values, sweep, b, pass, place, n);
        n = r.n;
        place = r.place;
        if !r.on {
            break;
        }
    }
    goes(n, place)
}

// The scan of `top` planes as far as there is room: the bits used, the passes not finished, and the place where to go on.
pub(crate) fn scan(body: &[u8], marks: &mut [u8], values: &mut [i32], frame: Frame) -> Handed
    requires { (length marks.old ≡ frame.all) × (length values.old ≡ frame.all) × (frame.usable ≤ 8 * length body.now) × Sizes frame.all frame.coarsest frame.top × (128 ≤ frame.usable) }
    ensures { Resumes (scan_of (reader body.now frame.usable frame.all frame.coarsest frame.top) frame.all) (left_at result.turn) (pass_at result.turn) result.place (st marks.new values.new result.n) (planes (scan_of (reader body.now frame.usable frame.all frame.coarsest frame.top) frame.all) frame.top (st marks.old values.old 0)) (left_of (scan_of (reader body.now frame.usable frame.all frame.coarsest frame.top) frame.all) frame.top (st marks.old values.old 0)) × (result.turn ≤ 3 * frame.top) × (result.n ≤ frame.usable) }
{
    let parsed = fours::parsed_table();
    let placed = fours::placed_table();
    let rows = fours::row_table();
    let safe = frame.usable - 128;
    let sweep = Sweep {
        frame,
        safe,
        lookups: Lookups {
            parsed: &parsed,
            placed: &placed,
            rows: &rows,
        },
    };
    let mut n = 0;
    let mut turn = 3 * frame.top;
    while 0 < turn {
        let left = (turn + 2) / 3;
        let r = pass_on(body, marks, values, sweep, left - 1, 3 * left - turn, n);
        if r.place < frame.all {
            return Handed {
                n: r.n,
                turn,
                place: r.place,
            };
        }
        n = r.n;
        turn -= 1;
    }
    Handed { n, turn, place: 0 }
}
