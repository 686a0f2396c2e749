// The rules of reconstruction.
ghost use Rattle.std.specs.Prelude.{◌≡◌, cond, ℕ, ◌+◌, ◌≤◌, eqb};
ghost use Rattle.sizes.specs.Sizes.{limit, most_planes};
ghost use Rattle.decoder.specs.Rules.{rule_of};

// Known bits stand for themselves, or for the middle of what they leave open.
#[derive(Clone, Copy)]
pub enum Rule {
    Lower,
    Midpoint,
}

// What a rule adds to known bits at precision k, whatever they are.
fn added(rule: Rule, k: u32) -> u32
    requires { k ≤ most_planes }
    ensures { (m : ℕ) → rule_of rule k m ≡ m + result }
{
    match rule {
        Rule::Lower => 0,
        Rule::Midpoint => (1u32 << k) / 2,
    }
}

// The magnitude of a value of known bits, and 0 for 0. What is added is found first, so that no branch is in the way where many are made.
pub(crate) fn size_by(rule: Rule, size: u32, k: u32) -> u32
    requires { (size ≤ limit) × (k ≤ most_planes) }
    ensures { result ≡ cond (eqb size 0) 0 (rule_of rule k size) }
{
    let more = added(rule, k);
    if size == 0 {
        return 0;
    }
    size + more
}
