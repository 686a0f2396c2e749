// One level. Rows and then columns mix the four numbers of a block of 2 by 2 alone, and in linear order these are neighbours: block k is the entries 4k to 4k + 3, and its four numbers go to place k of each quarter.
ghost use Rattle.std.specs.Prelude.{◌≡◌, ℕ, ◌+◌, ◌*◌, ◌≤◌, ◌<◌, nat_abs, length, set};
ghost use Rattle.std.specs.Int.Signed.{mag};
ghost use Rattle.sizes.specs.Sizes.{limit};
ghost use Rattle.transform.specs.Transform.{low, high, first, second};
ghost use Rattle.transform.specs.Answers.{most_sample};
ghost use Rattle.coef.specs.Coef.{at};
ghost use Rattle.transform.specs.Quads.{apart, joined, block, bands, unbands, onward, widest, widest_coarse};

// Four numbers: those of a block, row by row; or one of each quarter.
#[derive(Clone, Copy)]
struct Quad {
    tl: i32,
    tr: i32,
    bl: i32,
    br: i32,
}

// A pair taken apart.
fn low(a: i32, b: i32) -> i32
    requires { (nat_abs a ≤ widest) × (nat_abs b ≤ widest) }
    ensures { result ≡ low a b }
{
    (a + b) >> 1
}

fn high(a: i32, b: i32) -> i32
    requires { (nat_abs a ≤ widest) × (nat_abs b ≤ widest) }
    ensures { result ≡ high a b }
{
    a - b
}

// And joined again.
fn first(l: i32, h: i32) -> i32
    requires { (nat_abs l ≤ widest) × (nat_abs h ≤ widest) }
    ensures { result ≡ first l h }
{
    l + ((h + 1) >> 1)
}

fn second(l: i32, h: i32) -> i32
    requires { (nat_abs l ≤ widest) × (nat_abs h ≤ widest) }
    ensures { result ≡ second l h }
{
    first(l, h) - h
}

// A block: rows, then columns.
fn apart(p: i32, q: i32, r: i32, s: i32) -> Quad
    requires { (mag p ≤ most_sample) × (mag q ≤ most_sample) × (mag r ≤ most_sample) × (mag s ≤ most_sample) }
    ensures { result ≡ apart p q r s }
{
    let upper = low(p, q);
    let lower = low(r, s);
    let over = high(p, q);
    let under = high(r, s);
    Quad {
        tl: low(upper, lower),
        tr: low(over, under),
        bl: high(upper, lower),
        br: high(over, under),
    }
}

// And back: columns, then rows.
fn joined(a: i32, b: i32, c: i32, d: i32) -> Quad
    requires { (nat_abs a ≤ widest_coarse) × (nat_abs b ≤ limit) × (nat_abs c ≤ limit) × (nat_abs d ≤ limit) }
    ensures { result ≡ joined a b c d }
{
    let upper = first(a, c);
    let lower = second(a, c);
    let over = first(b, d);
    let under = second(b, d);
    Quad {
        tl: first(upper, over),
        tr: second(upper, over),
        bl: first(lower, under),
        br: second(lower, under),
    }
}

// The numbers that block k goes to.
fn block_at(from: &[i32], k: usize) -> Quad
    requires { (4 * k + 3 < length from.now) × ((i : ℕ) → i < 4 * k + 4 → 4 * k ≤ i → mag (at from.now i) ≤ most_sample) }
    ensures { result ≡ block (at from.now) k }
{
    let at = 4 * k;
    let p = from[at];
    let q = from[at + 1];
    let r = from[at + 2];
    let s = from[at + 3];
    apart(p, q, r, s)
}

// Them, put where they belong: the coarse one into the work table, the others into the output.
fn put_bands(quarter: usize, k: usize, v: Quad, work: &mut [i32], out: &mut [i32])
    requires { (k < quarter) × (4 * quarter ≤ length work.old) × (4 * quarter ≤ length out.old) }
    ensures coarse { work.new ≡ set work.old k v.tl }
    ensures fine { out.new ≡ set (set (set out.old (quarter + k) v.tr) (2 * quarter + k) v.bl) (3 * quarter + k) v.br }
{
    let tl = v.tl;
    let tr = v.tr;
    let bl = v.bl;
    let br = v.br;
    work[k] = tl;
    out[quarter + k] = tr;
    out[2 * quarter + k] = bl;
    out[3 * quarter + k] = br;
}

// One level of the first four quarters of the work table: the coarse quarter stays in it, the others go to the output.
pub(crate) fn level_down(quarter: usize, work: &mut [i32], out: &mut [i32])
    requires { (4 * quarter ≤ length work.old) × (4 * quarter ≤ length out.old) × ((i : ℕ) → i < 4 * quarter → mag (at work.old i) ≤ most_sample) }
    ensures coarse { at work.new ≡ onward quarter (bands quarter (at work.old)) (at work.old) }
    ensures fine { at out.new ≡ onward quarter (at out.old) (onward (4 * quarter) (bands quarter (at work.old)) (at out.old)) }
{
    for k in 0..quarter {
        let v = block_at(&work[..], k);
        put_bands(quarter, k, v, work, out);
    }
}

// The numbers of block k, from its place in each quarter.
fn unblock_at(quarter: usize, k: usize, coarse: &[i32], fine: &[i32]) -> Quad
    requires { (k < quarter) × (4 * quarter ≤ length coarse.now) × (4 * quarter ≤ length fine.now) × (nat_abs (at coarse.now k) ≤ widest_coarse) × ((i : ℕ) → nat_abs (at fine.now i) ≤ limit) }
    ensures { result ≡ joined (at coarse.now k) (at fine.now (quarter + k)) (at fine.now (2 * quarter + k)) (at fine.now (3 * quarter + k)) }
{
    let a = coarse[k];
    let b = fine[quarter + k];
    let c = fine[2 * quarter + k];
    let d = fine[3 * quarter + k];
    joined(a, b, c, d)
}

// Them, put where they belong.
fn put_block(k: usize, v: Quad, work: &mut [i32])
    requires { 4 * k + 3 < length work.old }
    ensures { work.new ≡ set (set (set (set work.old (4 * k + 3) v.br) (4 * k + 2) v.bl) (4 * k + 1) v.tr) (4 * k) v.tl }
{
    let at = 4 * k;
    let tl = v.tl;
    let tr = v.tr;
    let bl = v.bl;
    let br = v.br;
    work[at + 3] = br;
    work[at + 2] = bl;
    work[at + 1] = tr;
    work[at] = tl;
}

// One level back, from the last block to the first, so that no coarse number is overwritten before it is read.
pub(crate) fn level_up(quarter: usize, from: &[i32], work: &mut [i32])
    requires { (4 * quarter ≤ length from.now) × (4 * quarter ≤ length work.old) × ((i : ℕ) → i < quarter → nat_abs (at work.old i) ≤ widest_coarse) × ((i : ℕ) → nat_abs (at from.now i) ≤ limit) }
    ensures { at work.new ≡ onward (4 * quarter) (unbands quarter (onward quarter (at work.old) (at from.now))) (at work.old) }
{
    for k in (0..quarter).rev() {
        let v = unblock_at(quarter, k, &work[..], from);
        put_block(k, v, work);
    }
}
