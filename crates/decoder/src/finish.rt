// The final pass of the decoder: precisions and values from the codes that the scan left.
ghost use Rattle.std.specs.Prelude.{◌≡◌, cond, ℕ, ◌-◌, ◌/◌, ◌≤◌, ◌<◌, ltb, pos, length, get_or, replicate};
ghost use Rattle.sizes.specs.Sizes.{limit, most_planes};
ghost use Rattle.sizes.specs.Tables.{table};
ghost use Rattle.coef.specs.Coef.{at, magnitude};
ghost use Rattle.nls.specs.Marks.{MG};
ghost use Rattle.nls.specs.Reading.{value_by};
ghost use Rattle.nls.specs.Turns.{down_to, precision_by};
ghost use Rattle.decoder.specs.Finishing.{uncoded, plain_of, Uncodes, Stood, Codes};
ghost use Rattle.decoder.specs.Rules.{rule_of};

use crate::Rule;

// The value at precision k of known bits in a code.
fn value_at(rule: Rule, code: u32, k: u32) -> i32
    requires { (k ≤ most_planes) × (magnitude (value_by (rule_of rule) k (uncoded code)) ≤ limit) }
    ensures { result ≡ value_by (rule_of rule) k (uncoded code) }
{
    let size = crate::rule::size_by(rule, code / 2, k);
    let value = size as i32;
    if code % 2 == 1 {
        return -value;
    }
    value
}

// Each code becomes the value of its known bits, by a rule.
fn uncode(values: &mut [i32], precisions: &[u8], rule: Rule)
    requires { (length values.old ≡ length precisions.now) × ((i : ℕ) → i < length values.old → Uncodes (rule_of rule) (at values.old i) (get_or precisions.now i 0)) }
    ensures { values.new ≡ table (length values.old) (λ i. value_by (rule_of rule) (get_or precisions.now i 0) (plain_of (at values.old i))) }
{
    for (i, value) in values.iter_mut().enumerate() {
        *value = value_at(rule, *value as u32, precisions[i] as u32);
    }
}

// The precision of a place whose pass has come as far as `end`: the plane in progress, or the last finished one.
fn down_to(left: u32, end: usize, place: usize) -> u8
    requires { (1 ≤ left) × (left ≤ most_planes) }
    ensures { result ≡ down_to left end place }
{
    if place < end {
        return (left - 1) as u8;
    }
    left as u8
}

// The precision of a row of a set, by the mark at its first place: that of the parent for MNk, and else by how far the set pass has come.
fn row(precisions: &[u8], mark: u8, left: u32, sets: usize, place: usize) -> u8
    requires { (1 ≤ left) × (left ≤ most_planes) × (place < length precisions.now) }
    ensures { result ≡ cond (ltb MG mark) (get_or precisions.now (place / 4) 0) (down_to left sets place) }
{
    if marking::MG < mark {
        return precisions[place / 4];
    }
    down_to(left, sets, place)
}

// The precisions, by the marks: each coefficient by itself, and the places of sets a row at a time.
fn settle(precisions: &mut [u8], marks: &[u8], left: u32, stop: usize)
    requires { (length precisions.old ≡ length marks.now) × (1 ≤ left) × Stood marks.now left stop }
    ensures { precisions.new ≡ table (length marks.now) (λ i. precision_by (length marks.now) marks.now left stop i) }
{
    let all = marks.len();
    // How far the scan has come in the set pass and in the refinement pass.
    let sets = stop.saturating_sub(all);
    let refined = stop.saturating_sub(2 * all);
    let mut place = 0;
    while place < all {
        let mark = marks[place];
        if mark < marking::MSP {
            let k = down_to(left, stop, place);
            precisions[place] = k;
            place = place + 1;
        } else if mark < marking::MD {
            let k = down_to(left, refined, place);
            precisions[place] = k;
            place = place + 1;
        } else {
            let end = place + marking::skip(mark);
            let k = row(precisions, mark, left, sets, place);
            precisions[place..end].fill(k);
            place = end;
        }
    }
}

// The precisions where the scan stopped. After the last plane all are known to the last bit, and before a plane's first bit down to the last finished one.
fn precise(precisions: &mut [u8], marks: &[u8], left: u32, stop: usize)
    requires { (length precisions.old ≡ length marks.now) × Stood marks.now left stop }
    ensures { precisions.new ≡ table (length marks.now) (λ i. precision_by (length marks.now) marks.now left stop i) }
{
    if left == 0 {
        precisions.fill(0);
        return;
    }
    if stop == 0 {
        precisions.fill(left as u8);
        return;
    }
    settle(precisions, marks, left, stop);
}

// The final pass: the precisions, and from them and the codes the values by a rule.
pub(crate) fn finish(
    values: &mut [i32],
    precisions: &mut [u8],
    marks: &[u8],
    left: u32,
    stop: usize,
    rule: Rule,
)
    requires { (length values.old ≡ length marks.now) × (length precisions.old ≡ length marks.now) × ((s : Stood marks.now left stop) × Codes s values.old) }
    ensures values_after { values.new ≡ table (length marks.now) (λ i. value_by (rule_of rule) (precision_by (length marks.now) marks.now left stop i) (plain_of (at values.old i))) }
    ensures precisions_after { precisions.new ≡ table (length marks.now) (λ i. precision_by (length marks.now) marks.now left stop i) }
{
    precise(precisions, marks, left, stop);
    uncode(values, precisions, rule);
}
