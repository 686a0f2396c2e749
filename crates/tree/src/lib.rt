// The summaries: the bitwise OR of the magnitudes over DESC and GRAND of each place.
#![tactic(auto)]

ghost use Rattle.std.specs.Prelude.{◌+◌, ◌*◌, ◌/◌, ◌<◌, ◌≤◌, ◌≡◌, length};
ghost use Rattle.refusals.specs.Checks.{first_failing, lent_after};
ghost use Rattle.sizes.specs.Sizes.{all_of, coarsest_of};
ghost use Rattle.tree.specs.Summaries.{desc_table, grand_table, lent_checks, summary_checks, summary_checks_by, fill_checks};
ghost use Rattle.tree.specs.Filling.{children_or, children_table, entries_or, filled_from, Ready};

use refusals::Refusal;

// The OR of the magnitudes of the four children of place i.
fn children_or(coefs: &[i32], i: usize) -> u32
    requires { 4 * i + 3 < length coefs.now }
    ensures { result ≡ children_or coefs.now i }
{
    coefs[4 * i..4 * i + 4]
        .iter()
        .fold(0, |all, &x| all | coef::magnitude(x))
}

// The OR of the entries of the four children of place i.
fn entries_or(held: &[u32], i: usize) -> u32
    requires { 4 * i + 3 < length held.now }
    ensures { result ≡ entries_or held.now i }
{
    held[4 * i..4 * i + 4].iter().fold(0, |all, &x| all | x)
}

// Fills DESC of the places whose children have none, from the last.
fn fill_last(coefs: &[i32], desc: &mut [u32])
    requires { length coefs.now / 4 ≤ length desc.old }
    ensures { desc.new ≡ filled_from (length coefs.now / 16) (children_table coefs.now) desc.old }
{
    for i in (coefs.len() / 16..coefs.len() / 4).rev() {
        desc[i] = children_or(coefs, i);
    }
}

// Fills DESC and GRAND of the other places that have children, from the last.
fn fill_inner(n: u32, l: u32, coefs: &[i32], desc: &mut [u32], grand: &mut [u32])
    requires { Ready n l coefs.now (length desc.old) (length grand.old) × (desc.old ≡ filled_from (all_of n / 16) (desc_table n l coefs.now) desc.old) }
    ensures desc_after { desc.new ≡ filled_from (coarsest_of n l / 4) (desc_table n l coefs.now) desc.old }
    ensures grand_after { grand.new ≡ filled_from (coarsest_of n l / 4) (grand_table n l coefs.now) grand.old }
{
    let low = sizes::coarsest_of(n, l) / 4;
    for i in (low..coefs.len() / 16).rev() {
        let below = entries_or(&desc[..], i);
        let own = children_or(coefs, i);
        grand[i] = below;
        desc[i] = own | below;
    }
}

// Fills both tables, from whatever they held.
fn fill_both(n: u32, l: u32, coefs: &[i32], desc: &mut [u32], grand: &mut [u32])
    requires { Ready n l coefs.now (length desc.old) (length grand.old) }
    ensures desc_after { desc.new ≡ filled_from 0 (desc_table n l coefs.now) desc.old }
    ensures grand_after { grand.new ≡ filled_from 0 (grand_table n l coefs.now) grand.old }
{
    fill_last(coefs, desc);
    fill_inner(n, l, coefs, desc, grand);
    let low = sizes::coarsest_of(n, l) / 4;
    desc[..low].fill(0);
    grand[..low].fill(0);
}

// The refusal of tables that are too short for this many coefficients.
fn check_lent(all: usize, descs: usize, grands: usize) -> Result<(), Refusal>
    ensures { result ≡ first_failing (lent_checks all descs grands) }
{
    if descs < all / 4 {
        return Err(Refusal::Lent);
    }
    if grands < all / 16 {
        return Err(Refusal::Lent);
    }
    Ok(())
}

// The checks of `summaries`, 1 to 5 in order: the refusal of the first that fails, if any.
pub fn check(n: u32, l: u32, coefs: &[i32], descs: usize, grands: usize) -> Result<(), Refusal>
    ensures { result ≡ first_failing (summary_checks n l coefs.now descs grands) }
{
    sizes::check_sizes(n, l, coefs.len())?;
    let over = coef::first_over(coefs);
    if over < coefs.len() {
        return Err(Refusal::Coefficient(over as u32));
    }
    check_lent(coefs.len(), descs, grands)
}

// The same checks for an array whose planes are known.
pub fn check_by(
    n: u32,
    l: u32,
    coefs: &[i32],
    planes: u32,
    descs: usize,
    grands: usize,
) -> Result<(), Refusal>
    ensures { result ≡ first_failing (summary_checks_by planes n l coefs.now descs grands) }
{
    sizes::check_sizes(n, l, coefs.len())?;
    let over = coef::first_over_by(coefs, planes);
    if over < coefs.len() {
        return Err(Refusal::Coefficient(over as u32));
    }
    check_lent(coefs.len(), descs, grands)
}

// The checks of `fill`: those of `summaries` without number 4.
fn check_fill(n: u32, l: u32, count: usize, descs: usize, grands: usize) -> Result<(), Refusal>
    ensures { result ≡ first_failing (fill_checks n l count descs grands) }
{
    sizes::check_sizes(n, l, count)?;
    check_lent(count, descs, grands)
}

// Fills DESC and GRAND for a linear array of coefficients of any magnitude: I/4 and I/16 entries.
pub fn fill(
    n: u32,
    l: u32,
    coefs: &[i32],
    desc: &mut [u32],
    grand: &mut [u32],
) -> Result<(), Refusal>
    ensures answer { result ≡ first_failing (fill_checks n l (length coefs.now) (length desc.old) (length grand.old)) }
    ensures descs { desc.new ≡ lent_after result (desc_table n l coefs.now) desc.old }
    ensures grands { grand.new ≡ lent_after result (grand_table n l coefs.now) grand.old }
{
    check_fill(n, l, coefs.len(), desc.len(), grand.len())?;
    fill_both(n, l, coefs, desc, grand);
    Ok(())
}

// The same for coefficients that have to be within the limit.
pub fn summaries(
    n: u32,
    l: u32,
    coefs: &[i32],
    desc: &mut [u32],
    grand: &mut [u32],
) -> Result<(), Refusal>
    ensures answer { result ≡ first_failing (summary_checks n l coefs.now (length desc.old) (length grand.old)) }
    ensures descs { desc.new ≡ lent_after result (desc_table n l coefs.now) desc.old }
    ensures grands { grand.new ≡ lent_after result (grand_table n l coefs.now) grand.old }
{
    check(n, l, coefs, desc.len(), grand.len())?;
    fill(n, l, coefs, desc, grand)
}
