// The calls of the stepped decoder.
use crate::calls::Case;
use crate::tables::{self, Tables};

// The commands of a dial that are no turn.
const FORWARD: i32 = -1;

const BACK: i32 = -2;

// Kept: the result where a step has an answer that it may not have stays a number, no refusal's, since a line that expects this number is compared with it.
const BROKEN: u32 = 98;

// A call by its letter: a step forward, a step back, or a turn.
fn step(
    letter: u8,
    to: u32,
    record: &mut [u32; 8],
    body: &[u8],
    declared: u32,
    lent: &mut Tables<'_>,
    answer: &mut [u32; 16],
) -> u32 {
    match letter {
        b'f' => ctxp::txp_forward(
            record,
            body,
            declared,
            lent.values,
            lent.bytes,
            lent.marks,
            answer,
        ),
        b'b' => ctxp::txp_back(
            record,
            body,
            declared,
            lent.values,
            lent.bytes,
            lent.marks,
            answer,
        ),
        _ => ctxp::txp_turn(
            record,
            body,
            declared,
            to,
            lent.values,
            lent.bytes,
            lent.marks,
            answer,
        ),
    }
}

// The letter of a dial's command.
fn letter_of(command: i32) -> u8 {
    match command {
        FORWARD => b'f',
        BACK => b'b',
        _ => b't',
    }
}

// A dial: a start, and then each command. The answer is that of the last call.
fn dial(
    case: Case<'_>,
    record: &mut [u32; 8],
    lent: &mut Tables<'_>,
    answer: &mut [u32; 16],
) -> u32 {
    let Case {
        numbers: [a, b, c, d],
        ints,
        file,
        ..
    } = case;
    let mut result = ctxp::txp_start(record, a, b, c, lent.values, lent.bytes, lent.marks, answer);
    for command in ints {
        let to = command.cast_unsigned();
        result = step(letter_of(*command), to, record, file, d, lent, answer);
    }
    result
}

// Gives the first n entries of each table what stands for them behind the record: all that is lent of values, precisions and marks.
fn give(n: usize, ints: &[i32], lent: &mut Tables<'_>) {
    let second = tables::behind(ints, 8);
    let third = tables::behind(second, lent.values.len());
    let fourth = tables::behind(third, lent.bytes.len());
    tables::put_first(lent.values, n, second);
    tables::put_first(lent.bytes, n, third);
    tables::put_first(lent.marks, n, fourth);
}

// Whether a call may have changed its tables: a step that is done, and any turn.
fn moved(letter: u8, res: u32) -> bool {
    res == 0 || letter == b't'
}

// Whether a step on a record in range, and on tables that are long enough, may have this result.
fn may_be(res: u32) -> bool {
    matches!(res, 0 | 12..=15)
}

// The result that is compared where no prefix leaves the tables: 0 for all that a step may have, and the answer is then blank.
fn compared(res: u32, answer: &mut [u32; 16]) -> u32 {
    if answer[0] != res || !may_be(res) {
        return BROKEN;
    }
    *answer = [0; 16];
    0
}

// A step or a turn on a record and tables that are given. Where no prefix leaves the tables, those entries that it may have changed are given again, and of the record all but its sizes.
fn given(
    case: Case<'_>,
    record: &mut [u32; 8],
    lent: &mut Tables<'_>,
    answer: &mut [u32; 16],
) -> u32 {
    let Case {
        letter,
        numbers: [declared, to, own, _],
        ints,
        file,
    } = case;
    tables::put(record, ints);
    give(usize::MAX, ints, lent);
    let result = step(letter, to, record, file, declared, lent, answer);
    if own == 0 {
        return result;
    }
    if moved(letter, result) {
        tables::put(&mut record[3..], tables::behind(ints, 3));
        give(own as usize, ints, lent);
    }
    compared(result, answer)
}

// The calls of a case. The record is taken from the table of DESC, and put there again.
pub fn call(case: Case<'_>, lent: &mut Tables<'_>, answer: &mut [u32; 16]) -> u32 {
    let mut record = [0u32; 8];
    tables::reset(&mut record, 8);
    tables::put(&mut record, lent.desc);
    let result = match case.letter {
        b'Y' => dial(case, &mut record, lent, answer),
        _ => given(case, &mut record, lent, answer),
    };
    tables::put(lent.desc, &record);
    result
}
