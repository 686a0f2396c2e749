// Tables that are lent: what they hold before a call, and whether they hold afterwards what a list says.
use crate::calls::{self, Case};
use crate::text::Text;

// How many entries past the lent end are compared too.
const PAST: usize = 64;

// An entry of a table, of 32 bits or fewer.
pub trait Cell: Copy + PartialEq {
    // The entry with these bits, or with the lowest of them.
    fn of(bits: u32) -> Self;

    // The bits of an entry.
    fn bits(self) -> u32;
}

impl Cell for u8 {
    fn of(bits: u32) -> u8 {
        (bits & 0xff) as u8
    }

    fn bits(self) -> u32 {
        u32::from(self)
    }
}

impl Cell for u32 {
    fn of(bits: u32) -> u32 {
        bits
    }

    fn bits(self) -> u32 {
        self
    }
}

impl Cell for i32 {
    fn of(bits: u32) -> i32 {
        bits.cast_signed()
    }

    fn bits(self) -> u32 {
        self.cast_unsigned()
    }
}

// The entries of a table that are compared: those lent, and some past them.
fn past(lent: usize) -> usize {
    lent.saturating_add(PAST)
}

// What the entry at a place, which is below 2^32, holds before a call: no coefficient, summary, mark or precision, and not the same at each place.
fn before(i: usize) -> u32 {
    let i = (i & 0xffff_ffff) as u32;
    0xa000_00a0 + i % 65536 * 256 + i % 93
}

// A list's number at a place, or, past its end, what stands there before a call.
fn wanted(list: &[u32], i: usize) -> u32 {
    if i < list.len() { list[i] } else { before(i) }
}

// Gives the first n entries of a table what they hold before a call.
pub fn reset<C: Cell>(table: &mut [C], n: usize) {
    let n = n.min(table.len());
    for (i, x) in table[..n].iter_mut().enumerate() {
        *x = C::of(before(i));
    }
}

// Gives the first n entries of a table the numbers that stand at the same places.
pub fn put_first<A: Cell, B: Cell>(table: &mut [A], n: usize, numbers: &[B]) {
    for (to, x) in table.iter_mut().take(n).zip(numbers) {
        *to = A::of(x.bits());
    }
}

// Gives the entries of a table the numbers that stand at the same places.
pub fn put<A: Cell, B: Cell>(table: &mut [A], numbers: &[B]) {
    put_first(table, usize::MAX, numbers);
}

// Whether the first n entries of a table hold a list's numbers, and those past the list what stood there before the call. They are given that again.
fn holds<C: Cell>(table: &mut [C], n: usize, list: &[u32]) -> bool {
    let n = n.min(table.len());
    let mut held = true;
    for (i, x) in table[..n].iter_mut().enumerate() {
        held &= *x == C::of(wanted(list, i));
        *x = C::of(before(i));
    }
    held
}

// Whether a table holds what the next list says, in the entries that are lent and in some past them. They are given what they hold before a call, where the list is malformed too.
fn holds_next<C: Cell>(
    table: &mut [C],
    lent: usize,
    text: &mut Text<'_>,
    list: &mut [u32],
) -> Option<bool> {
    let count = text.list(list);
    let held = holds(table, past(lent), &list[..count.unwrap_or(0)]);
    count.map(|_| held)
}

// What stands behind the first n numbers.
pub fn behind(numbers: &[i32], n: usize) -> &[i32] {
    numbers.get(n..).unwrap_or(&[])
}

// The lengths lent of a case's tables.
#[derive(Clone, Copy)]
pub struct Lent {
    pub desc: usize,
    pub grand: usize,
    pub marks: usize,
    pub bytes: usize,
    pub values: usize,
}

// The tables, or as much of each as is lent.
#[derive(Drop)]
pub struct Tables<'a> {
    pub desc: &'a mut [u32],
    pub grand: &'a mut [u32],
    pub marks: &'a mut [u8],
    pub bytes: &'a mut [u8],
    pub values: &'a mut [i32],
}

impl<'a> Tables<'a> {
    // As much of each table as is lent. It takes the tables themselves, since no part of a slice can be handed on through a second reference.
    fn cut(self, lent: Lent) -> Tables<'a> {
        let Tables {
            desc,
            grand,
            marks,
            bytes,
            values,
        } = self;
        let a = lent.desc.min(desc.len());
        let b = lent.grand.min(grand.len());
        let c = lent.marks.min(marks.len());
        let d = lent.bytes.min(bytes.len());
        let e = lent.values.min(values.len());
        Tables {
            desc: &mut desc[..a],
            grand: &mut grand[..b],
            marks: &mut marks[..c],
            bytes: &mut bytes[..d],
            values: &mut values[..e],
        }
    }
}

impl Tables<'_> {
    // Makes the call of a case, with as much of each table as is lent.
    pub fn make(&mut self, case: Case<'_>, lent: Lent, answer: &mut [u32; 16]) -> Option<u32> {
        let tables = Tables {
            desc: &mut *self.desc,
            grand: &mut *self.grand,
            marks: &mut *self.marks,
            bytes: &mut *self.bytes,
            values: &mut *self.values,
        };
        calls::call(case, &mut tables.cut(lent), answer)
    }

    // Gives the entries that are compared what they hold before a call.
    pub fn reset(&mut self, lent: Lent) {
        reset(self.desc, past(lent.desc));
        reset(self.grand, past(lent.grand));
        reset(self.marks, past(lent.marks));
        reset(self.bytes, past(lent.bytes));
        reset(self.values, past(lent.values));
    }

    // Whether each table holds what the list for it says; there is no answer if a list is malformed or more of the line is left. The entries that are compared are given what they hold before a call.
    pub fn hold(&mut self, lent: Lent, text: &mut Text<'_>, list: &mut [u32]) -> Option<bool> {
        let desc = holds_next(self.desc, lent.desc, text, list);
        let grand = holds_next(self.grand, lent.grand, text, list);
        let marks = holds_next(self.marks, lent.marks, text, list);
        let bytes = holds_next(self.bytes, lent.bytes, text, list);
        let values = holds_next(self.values, lent.values, text, list);
        let held = [desc?, grand?, marks?, bytes?, values?];
        if !text.rest.is_empty() {
            return None;
        }
        Some(held == [true; 5])
    }
}
