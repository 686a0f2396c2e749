// A view of a body's bits. Each function over it is thin: the work is done on the slice and the numbers.
#![tactic(auto)]

ghost use Rattle.std.specs.Prelude.{◌≡◌};
ghost use Rattle.view.specs.View.{viewed, moved_to, view_of, past};

use bits::{Why, fetch};

// The lent body, the number of the next bit, and the declared count.
#[derive(Clone, Copy)]
pub struct BitView<'a> {
    pub body: &'a [u8],
    pub at: usize,
    pub declared: usize,
}

// A bit, or why there are no more, and the number of the next bit.
#[derive(Clone, Copy)]
struct Taken {
    next: Result<bool, Why>,
    at: usize,
}

// The bit with number `at` of a body of `declared` bits. Where these are reached, no more are asked of the body.
pub fn bit_at(body: &[u8], at: usize, declared: usize) -> Result<bool, Why>
    ensures { result ≡ viewed body.now at declared }
{
    if at < declared {
        return fetch(body, at);
    }
    Err(Why::Declared)
}

// The same bit, and the number of the next one: where there are no more, it stays.
fn take_at(body: &[u8], at: usize, declared: usize) -> Taken
    ensures { (result.next ≡ viewed body.now at declared) × (result.at ≡ moved_to body.now at declared) }
{
    match bit_at(body, at, declared) {
        Ok(x) => Taken {
            next: Ok(x),
            at: at + 1,
        },
        Err(why) => Taken { next: Err(why), at },
    }
}

// The view of a body of `declared` bits, at the first of them.
pub fn view<'a>(body: &'a [u8], declared: usize) -> BitView<'a>
    ensures { result ≡ view_of body.entry declared }
{
    BitView {
        body,
        at: 0,
        declared,
    }
}

// The bit that is next.
pub fn next_bit<'a>(v: BitView<'a>) -> Result<bool, Why>
    ensures { result ≡ viewed v.entry.body.now v.entry.at v.entry.declared }
{
    bit_at(v.body, v.at, v.declared)
}

// The view past the bit that is next. Where there are no more, it is the same view.
pub fn moved<'a>(v: BitView<'a>) -> BitView<'a>
    ensures { result ≡ past v.entry }
{
    let t = take_at(v.body, v.at, v.declared);
    BitView {
        body: v.body,
        at: t.at,
        declared: v.declared,
    }
}

// The bit with number `at` of a body of `declared` bits, read through a view that is made for it.
pub fn read(body: &[u8], at: usize, declared: usize) -> Result<bool, Why>
    ensures { result ≡ viewed body.now at declared }
{
    next_bit(BitView { body, at, declared })
}

// The bit that is next. The view is lent, and moved past it in place.
pub fn take<'s, 'a>(v: &'s mut BitView<'a>) -> Result<bool, Why>
    ensures { (result ≡ viewed v.old.body.now v.old.at v.old.declared) × (v.new ≡ past v.old) }
{
    let t = take_at(v.body, v.at, v.declared);
    v.at = t.at;
    t.next
}
