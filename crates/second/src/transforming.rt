// The calls of the transform.
use crate::FEW;
use crate::calls::Case;
use crate::tables::{self, Tables};

// A call by its letter: the transform, or its inverse. The work table has as many entries as are lent of DESC; it is taken from there, and put there again.
fn change(case: Case<'_>, lent: &mut Tables<'_>, room: &mut [i32], answer: &mut [u32; 16]) -> u32 {
    let [a, b, ..] = case.numbers;
    let ints = case.ints;
    let held = lent.desc.len().min(room.len());
    let work = &mut room[..held];
    tables::put(work, lent.desc);
    let result = match case.letter {
        b'x' => ctxp::txp_transform(a, b, ints, lent.values, work, answer),
        _ => ctxp::txp_restore(a, b, ints, lent.values, work, answer),
    };
    tables::put(lent.desc, work);
    result
}

// The call of a case. The work table has room for as many entries as the table of DESC.
pub fn call(case: Case<'_>, lent: &mut Tables<'_>, answer: &mut [u32; 16]) -> u32 {
    let mut room = [0i32; FEW];
    change(case, lent, &mut room, answer)
}
