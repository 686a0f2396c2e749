// The encoder's scan while there is room: four siblings at once.
// What is not as awaited, and the last 64 bits of a budget, are left to the scan of `writing`.
ghost use Rattle.std.specs.Prelude.{◌≡◌, true, false, ◌+◌, ◌*◌, ◌/◌, ◌%◌, ◌^◌, ◌<◌, ◌≤◌, length, get_or};
ghost use Rattle.sizes.specs.Sizes.{most_n, most_planes, all_of};
ghost use Rattle.bits.specs.Bits.{bit, digit};
ghost use Rattle.coef.specs.Coef.{at, mag_at, negative};
ghost use Rattle.walk.specs.Scans.{planes, left_of, Resumes, left_at, pass_at};
ghost use Rattle.walk.specs.Visits.{scan_of};
ghost use Rattle.fours.specs.Words.{key};
ghost use Rattle.fours.specs.Tables.{sent_table, picked_table};
ghost use Rattle.encoder.specs.Writing.{writer, st, Summed};
ghost use Rattle.encoder.specs.Sinks.{Holding, SameHeld};
ghost use Rattle.encoder.specs.Siblings.{bits_at, signs_at, Ahead, Led, Gone};

use crate::sinks::{ended, flushed, put};
use crate::{Reached, Sink, Source, Went};

// The tables of what is sent of four coefficients: where they are looked for, and where they are refined.
#[derive(Clone, Copy)]
struct Lookups<'a> {
    sent: &'a [u16; 256],
    picked: &'a [u16; 256],
}

// What stays the same during a scan: the number of marks, the budget, and the most whole bytes that may be written where a step has room still.
// A step reads the last alone; its contract speaks of all three.
#[derive(Clone, Copy)]
struct Limits {
    all: usize,
    budget: usize,
    safe: usize,
}

// A step that goes on at a place, and one that rests there.
fn goes(sink: Sink, place: usize) -> Went
    ensures { result ≡ record { on = true; sink = sink; place = place } }
{
    Went {
        on: true,
        sink,
        place,
    }
}

fn rests(sink: Sink, place: usize) -> Went
    ensures { result ≡ record { on = false; sink = sink; place = place } }
{
    Went {
        on: false,
        sink,
        place,
    }
}

// Bit b of the magnitude at a place, and the sign there, as digits.
fn bit_digit(coefs: &[i32], b: u32, place: usize) -> u32
    requires { (place < length coefs.now) × (b < most_planes) }
    ensures { result ≡ digit (bit (mag_at coefs.now place) b) }
{
    let z = coefs[place];
    (coef::magnitude(z) >> b) % 2
}

fn sign_digit(coefs: &[i32], place: usize) -> u32
    requires { place < length coefs.now }
    ensures { result ≡ digit (negative (at coefs.now place)) }
{
    let z = coefs[place];
    coef::is_negative(z) as u32
}

// Those of four places, the first lowest.
fn four_bits(coefs: &[i32], b: u32, place: usize) -> u32
    requires { (place + 3 < length coefs.now) × (place < all_of most_n) × (b < most_planes) }
    ensures { result ≡ bits_at coefs.now b place }
{
    let x0 = bit_digit(coefs, b, place);
    let x1 = bit_digit(coefs, b, place + 1);
    let x2 = bit_digit(coefs, b, place + 2);
    let x3 = bit_digit(coefs, b, place + 3);
    x0 + 2 * x1 + 4 * x2 + 8 * x3
}

fn four_signs(coefs: &[i32], place: usize) -> u32
    requires { (place + 3 < length coefs.now) × (place < all_of most_n) }
    ensures { result ≡ signs_at coefs.now place }
{
    let x0 = sign_digit(coefs, place);
    let x1 = sign_digit(coefs, place + 1);
    let x2 = sign_digit(coefs, place + 2);
    let x3 = sign_digit(coefs, place + 3);
    x0 + 2 * x1 + 4 * x2 + 8 * x3
}

// Where the table has what is sent of those of k, 16 times which of them are found being its first part.
fn key_of(coefs: &[i32], b: u32, place: usize, k: u32) -> u32
    requires { (place + 3 < length coefs.now) × (place < all_of most_n) × (b < most_planes) × (k < 16) }
    ensures { result ≡ key k (bits_at coefs.now b place) (signs_at coefs.now place) }
{
    let x = four_bits(coefs, b, place);
    let minus = four_signs(coefs, place);
    let a = k & x;
    16 * a + ((k ^ a) | (a & minus))
}

// The bits of an entry more: it has 256 times their number, and they.
fn put_entry(s: Sink, e: u16, out: &mut [u8]) -> Sink
    requires { Holding s (e / 256) × (e % 256 < 2 ^ (e / 256)) × (s.at + 4 ≤ length out.old) }
    ensures { SameHeld out.old (record { acc = s.acc * 2 ^ (e / 256) + e % 256; n = s.n + e / 256; at = s.at }) out.new result × (result.n ≤ 31) }
{
    let t = put(s, (e / 256) as usize, (e % 256) as u64);
    flushed(t, out)
}

// A step of the pixel pass.
fn pixels(
    src: Source<'_>,
    sent: &[u16; 256],
    limits: Limits,
    marks: &mut [u8],
    out: &mut [u8],
    b: u32,
    place: usize,
    s: Sink,
) -> Went
    requires { Ahead src.coefs.now marks.old out.old limits.all limits.budget limits.safe b place s × (sent.now ≡ sent_table) }
    ensures { Gone src.entry.coefs.now src.entry.desc.now src.entry.grand.now limits.all limits.budget b 0 place marks.old out.old s result marks.new out.new }
{
    let mark = marks[place];
    if marking::MCP < mark {
        return goes(s, place + marking::skip(mark));
    }
    let w = fours::word_at(marks, place);
    if limits.safe < s.at || !fours::low(w) {
        return rests(s, place);
    }
    let k = fours::ones(w);
    if k == 0 {
        return goes(s, place + 4);
    }
    let x = key_of(src.coefs, b, place, k);
    let e = sent[x as usize];
    let t = put_entry(s, e, out);
    fours::set_word(marks, place, w + fours::spread(x / 16));
    goes(t, place + 4)
}

// A step of the refinement pass.
fn refine(
    src: Source<'_>,
    picked: &[u16; 256],
    limits: Limits,
    marks: &mut [u8],
    out: &mut [u8],
    b: u32,
    place: usize,
    s: Sink,
) -> Went
    requires { Ahead src.coefs.now marks.old out.old limits.all limits.budget limits.safe b place s × (picked.now ≡ picked_table) }
    ensures { Gone src.entry.coefs.now src.entry.desc.now src.entry.grand.now limits.all limits.budget b 2 place marks.old out.old s result marks.new out.new }
{
    let mark = marks[place];
    if marking::MCP < mark {
        return goes(s, place + marking::skip(mark));
    }
    let w = fours::word_at(marks, place);
    if w == 0x01010101 {
        return goes(s, place + 4);
    }
    if limits.safe < s.at || !fours::low(w) {
        return rests(s, place);
    }
    let e = picked[(16 * fours::threes(w) + four_bits(src.coefs, b, place)) as usize];
    let t = put_entry(s, e, out);
    fours::set_word(marks, place, fours::refined(w));
    goes(t, place + 4)
}

// The test of a DESC, and after a 1 its four children.
fn test_desc(
    src: Source<'_>,
    sent: &[u16; 256],
    limits: Limits,
    marks: &mut [u8],
    out: &mut [u8],
    b: u32,
    place: usize,
    s: Sink,
) -> Went
    requires { Ahead src.coefs.now marks.old out.old limits.all limits.budget limits.safe b place s × (sent.now ≡ sent_table) × Summed src.desc.now src.grand.now limits.all × (s.at ≤ limits.safe) × (4 ≤ place) × (get_or marks.old place 0 ≡ 5) }
    ensures { Gone src.entry.coefs.now src.entry.desc.now src.entry.grand.now limits.all limits.budget b 1 place marks.old out.old s result marks.new out.new }
{
    let sum = src.desc[place / 4];
    if bits::bit_of(sum, b) {
        let x = key_of(src.coefs, b, place, 15);
        let e = sent[x as usize];
        let t = put_entry(put(s, 1, 1), e, out);
        marking::split_desc(marks, place);
        fours::set_word(marks, place, 0x01010101 + fours::spread(x / 16));
        return goes(t, place + 4);
    }
    let t = flushed(put(s, 1, 0), out);
    goes(t, place + 4)
}

// The test of a GRAND.
fn test_grand(
    src: Source<'_>,
    limits: Limits,
    marks: &mut [u8],
    out: &mut [u8],
    b: u32,
    place: usize,
    s: Sink,
) -> Went
    requires { Ahead src.coefs.now marks.old out.old limits.all limits.budget limits.safe b place s × Summed src.desc.now src.grand.now limits.all × (s.at ≤ limits.safe) × (get_or marks.old place 0 ≡ 6) }
    ensures { Gone src.entry.coefs.now src.entry.desc.now src.entry.grand.now limits.all limits.budget b 1 place marks.old out.old s result marks.new out.new }
{
    let sum = src.grand[place / 16];
    if bits::bit_of(sum, b) {
        let t = flushed(put(s, 1, 1), out);
        marking::split_grand(marks, place);
        return goes(t, place);
    }
    let t = flushed(put(s, 1, 0), out);
    goes(t, place + 16)
}

// A step of the set pass.
fn sets(
    src: Source<'_>,
    sent: &[u16; 256],
    limits: Limits,
    marks: &mut [u8],
    out: &mut [u8],
    b: u32,
    place: usize,
    s: Sink,
) -> Went
    requires { Ahead src.coefs.now marks.old out.old limits.all limits.budget limits.safe b place s × (sent.now ≡ sent_table) × Summed src.desc.now src.grand.now limits.all }
    ensures { Gone src.entry.coefs.now src.entry.desc.now src.entry.grand.now limits.all limits.budget b 1 place marks.old out.old s result marks.new out.new }
{
    let mark = marks[place];
    if mark < marking::MCP {
        return goes(s, place + 4);
    }
    if mark == marking::MD {
        if limits.safe < s.at || place < 4 {
            return rests(s, place);
        }
        return test_desc(src, sent, limits, marks, out, b, place, s);
    }
    if mark == marking::MG {
        if limits.safe < s.at {
            return rests(s, place);
        }
        return test_grand(src, limits, marks, out, b, place, s);
    }
    if mark == marking::MCP {
        return rests(s, place);
    }
    goes(s, place + marking::set_skip(mark))
}

// A step of a pass.
fn step(
    src: Source<'_>,
    tables: Lookups<'_>,
    limits: Limits,
    marks: &mut [u8],
    out: &mut [u8],
    b: u32,
    pass: u32,
    place: usize,
    s: Sink,
) -> Went
    requires { Ahead src.coefs.now marks.old out.old limits.all limits.budget limits.safe b place s × (tables.sent.now ≡ sent_table) × (tables.picked.now ≡ picked_table) × Summed src.desc.now src.grand.now limits.all × (pass < 3) }
    ensures { Gone src.entry.coefs.now src.entry.desc.now src.entry.grand.now limits.all limits.budget b pass place marks.old out.old s result marks.new out.new }
{
    match pass {
        0 => pixels(src, tables.sent, limits, marks, out, b, place, s),
        1 => sets(src, tables.sent, limits, marks, out, b, place, s),
        _ => refine(src, tables.picked, limits, marks, out, b, place, s),
    }
}

// A pass from its first place on, as far as there is room and marks are as awaited.
fn pass_on(
    src: Source<'_>,
    tables: Lookups<'_>,
    limits: Limits,
    marks: &mut [u8],
    out: &mut [u8],
    b: u32,
    pass: u32,
    s0: Sink,
) -> Went
    requires { Ahead src.coefs.now marks.old out.old limits.all limits.budget limits.safe b 0 s0 × (tables.sent.now ≡ sent_table) × (tables.picked.now ≡ picked_table) × Summed src.desc.now src.grand.now limits.all × (pass < 3) }
    ensures { Led src.entry.coefs.now src.entry.desc.now src.entry.grand.now limits.all limits.budget b pass 0 marks.old out.old s0 result.place result.sink marks.new out.new }
{
    let last = marks.len() - 4;
    let mut s = s0;
    let mut place = 0;
    while place <= last {
        let r = step(src, tables, limits, marks, out, b, pass, place, s);
        s = r.sink;
        place = r.place;
        if !r.on {
            break;
        }
    }
    Went {
        on: true,
        sink: s,
        place,
    }
}

// The scan of `count` planes as far as there is room: the bits put, the passes not finished, and the place where to go on.
pub(crate) fn scan(
    src: Source<'_>,
    marks: &mut [u8],
    out: &mut [u8],
    budget: usize,
    count: u32,
) -> Reached
    requires { (4 ≤ length marks.old) × (length marks.old ≤ all_of most_n) × (length marks.old ≤ length src.coefs.now) × (64 ≤ budget) × (budget ≤ 8 * length out.old) × Summed src.desc.now src.grand.now (length marks.old) × (count ≤ most_planes) }
    ensures { Resumes (scan_of (writer src.entry.coefs.now src.entry.desc.now src.entry.grand.now budget) (length marks.old)) (left_at result.turn) (pass_at result.turn) result.place (st marks.new out.new result.n) (planes (scan_of (writer src.entry.coefs.now src.entry.desc.now src.entry.grand.now budget) (length marks.old)) count (st marks.old out.old 0)) (left_of (scan_of (writer src.entry.coefs.now src.entry.desc.now src.entry.grand.now budget) (length marks.old)) count (st marks.old out.old 0)) × (result.turn ≤ 3 * count) × (result.n ≤ budget) }
{
    let all = marks.len();
    let sent = fours::sent_table();
    let picked = fours::picked_table();
    let tables = Lookups {
        sent: &sent,
        picked: &picked,
    };
    let safe = (budget - 64) / 8;
    let limits = Limits { all, budget, safe };
    let mut s = Sink {
        acc: 0,
        n: 0,
        at: 0,
    };
    let mut turn = 3 * count;
    while 0 < turn {
        let left = (turn + 2) / 3;
        let r = pass_on(
            src,
            tables,
            limits,
            marks,
            out,
            left - 1,
            3 * left - turn,
            s,
        );
        let place = r.place;
        if place < all {
            let n = ended(r.sink, out);
            return Reached { n, turn, place };
        }
        s = r.sink;
        turn -= 1;
    }
    let n = ended(s, out);
    Reached { n, turn, place: 0 }
}
