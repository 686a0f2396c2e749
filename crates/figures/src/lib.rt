// The figures of one plane and of all planes, from the values alone: the parts that stand after a plane, the sets split in it, the coefficients found in it, and the bits that these make.
#![tactic(auto)]

ghost use Rattle.std.specs.Prelude.{ℕ, ◌+◌, ◌*◌, ◌/◌, ◌<◌, ◌≤◌, ◌^◌, ◌≡◌, true, [], ◌∷◌, ◌++◌, leb, length, get_or, set, Ok};
ghost use Rattle.std.specs.Int.Count.{count_leading_zeros};
ghost use Rattle.refusals.specs.Checks.{need, first_failing, lent_after};
ghost use Rattle.sizes.specs.Sizes.{all_of, coarsest_of, most_n, most_planes, side_fits, levels_fit};
ghost use Rattle.tree.specs.Summaries.{desc_table, grand_table, summary_checks};
ghost use Rattle.nls.specs.Parts.{count_to};
ghost use Rattle.figures.specs.Figures.{figures_of, figures_checks, answered, outcome_of, all_figures, all_figures_checks};
ghost use Rattle.figures.specs.Tables.{Filled, reach_of, Between, figures_between, tally_of, tallies_of, AllSized, Within, reach_less};

use refusals::Refusal;
use sizes::MOST_PLANES;

// Four numbers for each plane.
const ALL_FIGURES: usize = 96;

#[derive(Clone, Copy)]
pub struct Figures {
    pub parts: u32,
    pub splits: u32,
    pub bits: u32,
    pub found: u32,
}

// The level of a plane.
fn level_of(plane: u32) -> u32
    requires { plane < most_planes }
    ensures { result ≡ 2 ^ plane }
{
    1u32 << plane
}

// The entries whose size reaches the level.
fn count_by<T: Copy, F: Fn(T) -> u32>(level: u32, entries: &[T], size: F) -> u32
    requires callable { F.IsAlwaysCallable size }
    requires few { length entries.now ≤ all_of most_n }
    ensures { (d : T) (x : ℕ → ℕ) → AllSized (F.post size) entries.now d x → result ≡ count_to (length entries.now) (λ i. leb level (x i)) }
{
    let mut count = 0;
    for x in entries {
        count += (level <= size(*x)) as u32;
    }
    count
}

// How many reach a level: of DESC, of its entries that have one in GRAND, of GRAND, and of the magnitudes.
#[derive(Clone, Copy)]
struct Reach {
    descs: u32,
    inner: u32,
    grands: u32,
    large: u32,
}

fn reach_of(level: u32, values: &[i32], desc: &[u32], grand: &[u32]) -> Reach
    requires { (length values.now ≤ all_of most_n) × (length desc.now ≤ all_of most_n) × (length grand.now ≤ length desc.now) }
    ensures { result ≡ reach_of level values.now desc.now grand.now }
{
    Reach {
        descs: count_by(level, desc, |x| x),
        inner: count_by(level, &desc[..grand.len()], |x| x),
        grands: count_by(level, grand, |x| x),
        large: count_by(level, values, coef::magnitude),
    }
}

// The figures of a plane, from what reaches its level and what reaches twice that. Each split of an entry of DESC adds three parts, and one more where it has one in GRAND; each split of an entry of GRAND adds three.
fn figures_between(least: u32, here: Reach, above: Reach) -> Figures
    requires { Between least here above }
    ensures { result ≡ figures_between least here above }
{
    let parts = least + 3 * here.descs + 3 * here.grands + here.inner;
    let splits = here.descs + here.grands - (above.descs + above.grands);
    let found = here.large - above.large;
    let bits = parts + splits + found;
    Figures {
        parts,
        splits,
        bits,
        found,
    }
}

// The parts that stand where no set is split: D coefficients, and three sets for four of them.
fn least_parts(n: u32, l: u32) -> u32
    requires { (side_fits n ≡ true) × (levels_fit n l ≡ true) }
    ensures { result ≡ coarsest_of n l / 4 * 7 }
{
    (sizes::coarsest_of(n, l) / 4 * 7) as u32
}

// The figures, from tables that are filled.
fn count(n: u32, l: u32, values: &[i32], plane: u32, desc: &[u32], grand: &[u32]) -> Figures
    requires { Filled n l values.now desc.now grand.now × (plane < most_planes) }
    ensures { result ≡ figures_of n l values.now plane }
{
    let least = least_parts(n, l);
    let level = level_of(plane);
    let here = reach_of(level, values, desc, grand);
    let above = reach_of(2 * level, values, desc, grand);
    figures_between(least, here, above)
}

// The checks of the summaries, and after them one more.
fn check_more(
    n: u32,
    l: u32,
    values: &[i32],
    descs: usize,
    grands: usize,
    holds: bool,
    otherwise: Refusal,
) -> Result<(), Refusal>
    ensures { result ≡ first_failing (summary_checks n l values.now descs grands ++ (need holds otherwise ∷ [])) }
{
    tree::check(n, l, values, descs, grands)?;
    if holds {
        return Ok(());
    }
    Err(otherwise)
}

// The figures of one plane. Fills DESC and GRAND on the way: I/4 and I/16 entries. Nothing is filled before the plane is checked too.
pub fn figures_of(
    n: u32,
    l: u32,
    values: &[i32],
    plane: u32,
    desc: &mut [u32],
    grand: &mut [u32],
) -> Result<Figures, Refusal>
    ensures answer { result ≡ answered (first_failing (figures_checks n l values.now (length desc.old) (length grand.old) plane)) (figures_of n l values.now plane) }
    ensures descs { desc.new ≡ lent_after (outcome_of result) (desc_table n l values.now) desc.old }
    ensures grands { grand.new ≡ lent_after (outcome_of result) (grand_table n l values.now) grand.old }
{
    check_more(
        n,
        l,
        values,
        desc.len(),
        grand.len(),
        plane < MOST_PLANES,
        Refusal::Planes,
    )?;
    let _ = tree::summaries(n, l, values, desc, grand);
    let descs = values.len() / 4;
    let grands = values.len() / 16;
    Ok(count(n, l, values, plane, &desc[..descs], &grand[..grands]))
}

// The four numbers of a plane, from `first` on.
fn put_numbers(out: &mut [u32], first: usize, figures: Figures)
    requires { first + 3 < length out.old }
    ensures { out.new ≡ set (set (set (set out.old first figures.parts) (first + 1) figures.splits) (first + 2) figures.bits) (first + 3) figures.found }
{
    out[first] = figures.parts;
    out[first + 1] = figures.splits;
    out[first + 2] = figures.bits;
    out[first + 3] = figures.found;
}

// How many numbers have each length in binary: a count for each number of leading zeros, 0 to 32.
type Tally = [u32; 33];

// One number more in a tally.
fn tally_one(counts: &mut Tally, x: u32)
    requires { get_or counts.old (count_leading_zeros 32 x) 0 < all_of most_n }
    ensures { counts.new ≡ set counts.old (count_leading_zeros 32 x) (get_or counts.old (count_leading_zeros 32 x) 0 + 1) }
{
    let zeros = u32::leading_zeros(x) as usize;
    counts[zeros] += 1;
}

// The tally of the sizes of these entries.
// Kept: lent, as the four are too, since a tally handed back by value makes the library ask others for `memcpy`.
fn tally_by<T: Copy, F: Fn(T) -> u32>(entries: &[T], size: F, counts: &mut Tally)
    requires callable { F.IsAlwaysCallable size }
    requires few { length entries.now ≤ all_of most_n }
    ensures { (d : T) (x : ℕ → ℕ) → AllSized (F.post size) entries.now d x → counts.new ≡ tally_of (length entries.now) x }
{
    *counts = [0u32; 33];
    for x in entries {
        tally_one(counts, size(*x));
    }
}

// A tally for each count of `Reach`.
#[derive(Drop)]
struct FourTallies {
    descs: Tally,
    inner: Tally,
    grands: Tally,
    large: Tally,
}

fn tallies_of(values: &[i32], desc: &[u32], grand: &[u32], tallies: &mut FourTallies)
    requires { (length values.now ≤ all_of most_n) × (length desc.now ≤ all_of most_n) × (length grand.now ≤ length desc.now) }
    ensures { tallies.new ≡ tallies_of values.now desc.now grand.now }
{
    tally_by(desc, |x| x, &mut tallies.descs);
    tally_by(&desc[..grand.len()], |x| x, &mut tallies.inner);
    tally_by(grand, |x| x, &mut tallies.grands);
    tally_by(values, coef::magnitude, &mut tallies.large);
}

// Everything reaches 0.
fn reach_all(values: &[i32], desc: &[u32], grand: &[u32]) -> Reach
    requires { (length values.now ≤ all_of most_n) × (length desc.now ≤ all_of most_n) × (length grand.now ≤ length desc.now) }
    ensures { result ≡ reach_of 0 values.now desc.now grand.now }
{
    let descs = desc.len() as u32;
    let grands = grand.len() as u32;
    let large = values.len() as u32;
    Reach {
        descs,
        inner: grands,
        grands,
        large,
    }
}

// Four counts, less what their tallies have at one number of leading zeros.
fn reach_without(here: Reach, zeros: usize, tallies: &FourTallies) -> Reach
    requires { Within here zeros tallies.now.descs tallies.now.inner tallies.now.grands tallies.now.large }
    ensures { result ≡ reach_less here zeros tallies.now.descs tallies.now.inner tallies.now.grands tallies.now.large }
{
    Reach {
        descs: here.descs - tallies.descs[zeros],
        inner: here.inner - tallies.inner[zeros],
        grands: here.grands - tallies.grands[zeros],
        large: here.large - tallies.large[zeros],
    }
}

// The figures of all planes, from tables that are filled.
fn count_all(n: u32, l: u32, values: &[i32], desc: &[u32], grand: &[u32], out: &mut [u32])
    requires { Filled n l values.now desc.now grand.now × (4 * most_planes ≤ length out.old) }
    ensures { out.new ≡ lent_after (Ok tt) (all_figures n l values.now) out.old }
{
    let least = least_parts(n, l);
    let mut tallies = FourTallies {
        descs: [0u32; 33],
        inner: [0u32; 33],
        grands: [0u32; 33],
        large: [0u32; 33],
    };
    tallies_of(values, desc, grand, &mut tallies);
    let mut here = reach_without(reach_all(values, desc, grand), 32, &tallies);
    for plane in 0..MOST_PLANES {
        let above = reach_without(here, (31 - plane) as usize, &tallies);
        let figures = figures_between(least, here, above);
        put_numbers(out, (4 * plane) as usize, figures);
        here = above;
    }
}

// The figures of all planes. Fills DESC and GRAND once on the way, and the first 96 entries of the output: parts, splits, bits and found of plane 0, then those of plane 1, and so on.
pub fn figures_of_all(
    n: u32,
    l: u32,
    values: &[i32],
    desc: &mut [u32],
    grand: &mut [u32],
    out: &mut [u32],
) -> Result<(), Refusal>
    ensures answer { result ≡ first_failing (all_figures_checks n l values.now (length desc.old) (length grand.old) (length out.old)) }
    ensures descs { desc.new ≡ lent_after result (desc_table n l values.now) desc.old }
    ensures grands { grand.new ≡ lent_after result (grand_table n l values.now) grand.old }
    ensures outs { out.new ≡ lent_after result (all_figures n l values.now) out.old }
{
    check_more(
        n,
        l,
        values,
        desc.len(),
        grand.len(),
        ALL_FIGURES <= out.len(),
        Refusal::Lent,
    )?;
    let _ = tree::summaries(n, l, values, desc, grand);
    let descs = values.len() / 4;
    let grands = values.len() / 16;
    count_all(n, l, values, &desc[..descs], &grand[..grands], out);
    Ok(())
}
