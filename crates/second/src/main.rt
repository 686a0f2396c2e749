// Holds the calls for C to the cases of an independent second coder, which are read on standard input. tests/VECTORS.md has their format.
#![tactic(auto)]

mod calls;
mod lines;
mod stepping;
mod tables;
mod text;
mod transforming;

use calls::Case;
use lines::Lines;
use std::io::Read;
use tables::{Cell, Lent, Tables};
use text::Text;

// More lines than are read.
const MANY: usize = 1000000;

// How many entries can be lent: those of N = 9.
const MOST: usize = 262144;

// The entries of a table, some past those among them.
const ALL: usize = 262208;

// The entries of the tables of DESC and GRAND, which have no more than a fourth as many.
const FEW: usize = 65600;

// What became of a line, and the letter of its case.
#[derive(Clone, Copy)]
enum Verdict {
    Remark,
    Malformed,
    Differs(u8),
    Agrees(u8),
}

// Room for a list, and for the arrays that go in.
#[derive(Drop)]
struct Room<'a> {
    list: &'a mut [u32],
    ints: &'a mut [i32],
    file: &'a mut [u8],
}

// The cases of each letter, those that agree, and the malformed lines.
#[derive(Drop)]
struct Counts {
    cases: [usize; 256],
    agree: [usize; 256],
    malformed: usize,
}

// Reads the lengths that are lent.
fn lengths(text: &mut Text<'_>) -> Option<Lent> {
    let mut lengths = [0u32; 5];
    text.list(&mut lengths)?;
    let [desc, grand, marks, bytes, values] = lengths.map(|x| MOST.min(x as usize));
    Some(Lent {
        desc,
        grand,
        marks,
        bytes,
        values,
    })
}

// The array that comes next, put into the first entries of a table.
fn array<'a, C: Cell>(
    text: &mut Text<'_>,
    list: &mut [u32],
    table: &'a mut [C],
) -> Option<&'a [C]> {
    let count = text.list(list)?;
    tables::put(table, &list[..count]);
    table.get(..count)
}

// Whether a call does what the line of its case says, of which this is the rest. There is no answer if the line is malformed or no call has its letter. Before the line and after it the tables hold what they hold before a call; where an answer is missing before they are compared, no call was made.
fn judge(letter: u8, rest: &[u8], room: &mut Room<'_>, tables: &mut Tables<'_>) -> Option<bool> {
    let mut text = Text { rest };
    let mut numbers = [0u32; 4];
    let mut expected = [0u32; 17];
    text.list(&mut numbers)?;
    text.list(&mut expected)?;
    let lent = lengths(&mut text)?;
    let list = &mut *room.list;
    let ints = &mut *room.ints;
    let file = &mut *room.file;
    let ints = array(&mut text, list, ints)?;
    let file = array(&mut text, list, file)?;
    let case = Case {
        letter,
        numbers,
        ints,
        file,
    };
    let mut answer = [0u32; 16];
    tables::reset(&mut answer, 16);
    let result = tables.make(case, lent, &mut answer)?;
    let held = tables.hold(lent, &mut text, list)?;
    Some(held && result == expected[0] && answer[..] == expected[1..])
}

// What became of a line.
fn one(line: &[u8], room: &mut Room<'_>, tables: &mut Tables<'_>) -> Verdict {
    let Some((letter, rest)) = line.split_first() else {
        return Verdict::Malformed;
    };
    let letter = *letter;
    if letter == b'#' {
        return Verdict::Remark;
    }
    match judge(letter, rest, room, tables) {
        None => Verdict::Malformed,
        Some(false) => Verdict::Differs(letter),
        Some(true) => Verdict::Agrees(letter),
    }
}

// Counts one more of a letter.
fn count(counts: &mut [usize; 256], letter: u8) {
    let k = letter as usize;
    counts[k] = counts[k].saturating_add(1);
}

impl Counts {
    // Counts a line, and tells of one that is malformed or differs. A write that fails says nothing.
    fn tally(&mut self, to: &impl Print, became: Verdict, number: usize) {
        match became {
            Verdict::Remark => {}
            Verdict::Malformed => {
                self.malformed = self.malformed.saturating_add(1);
                let _ = println!(to; "malformed line {number}");
            }
            Verdict::Differs(letter) => {
                count(&mut self.cases, letter);
                let _ = println!(to; "differs line {number}");
            }
            Verdict::Agrees(letter) => {
                count(&mut self.cases, letter);
                count(&mut self.agree, letter);
            }
        }
    }

    // Tells of each letter that has cases. A write that fails says nothing.
    fn say(&self, to: &impl Print) {
        for letter in b'A'..=b'z' {
            let cases = self.cases[letter as usize];
            let agree = self.agree[letter as usize];
            if cases != 0 {
                let letter = char::from(letter);
                let _ = println!(to; "{letter} {cases} agree {agree}");
            }
        }
        let malformed = self.malformed;
        let _ = println!(to; "malformed {malformed}");
    }
}

// Every line that is read. Lines are numbered from 1.
fn run(
    input: &mut impl Read,
    to: &impl Print,
    counts: &mut Counts,
    room: &mut Room<'_>,
    tables: &mut Tables<'_>,
) {
    let mut lines = Lines::new();
    for number in 1..=MANY {
        let Some(line) = lines.next(input) else {
            return;
        };
        counts.tally(to, one(line, room, tables), number);
    }
}

fn main(rt: HostRuntime) {
    let mut counts = Counts {
        cases: [0; 256],
        agree: [0; 256],
        malformed: 0,
    };
    let mut room = Room {
        list: &mut [0; ALL],
        ints: &mut [0; ALL],
        file: &mut [0; ALL],
    };
    let mut tables = Tables {
        desc: &mut [0; FEW],
        grand: &mut [0; FEW],
        marks: &mut [0; ALL],
        bytes: &mut [0; ALL],
        values: &mut [0; ALL],
    };
    // As after a case that was lent all.
    tables.reset(Lent {
        desc: MOST,
        grand: MOST,
        marks: MOST,
        bytes: MOST,
        values: MOST,
    });
    run(&mut rt.stdin(), &rt, &mut counts, &mut room, &mut tables);
    counts.say(&rt);
}
