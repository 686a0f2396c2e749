// Four marks as one number, and the tables for four coefficients by themselves.
#![tactic(auto)]

mod tables;

ghost use Rattle.std.specs.Prelude.{◌≡◌, Bool, ◌+◌, ◌≤◌, length};
ghost use Rattle.bits.specs.Bits.{digit};
ghost use Rattle.fours.specs.Words.{word_of, nibble_of, word_at, with_word, low_word, FourBytes, which_are, refined_word, spread_of, count_of};

pub use tables::{parsed_table, picked_table, placed_table, row_table, sent_table};

// The four marks from a place on as one number; 0 where the table has no four.
pub fn word_at(marks: &[u8], place: usize) -> u32
    ensures value { result ≡ word_at marks.now place }
    ensures four_bytes { (place + 4 ≤ length marks.now) → FourBytes marks.now place }
{
    let all = marks.len();
    if all < 4 {
        return 0;
    }
    if all - 4 < place {
        return 0;
    }
    let a = marks[place] as u32;
    let b = marks[place + 1] as u32;
    let c = marks[place + 2] as u32;
    let d = marks[place + 3] as u32;
    a + 256 * b + 65536 * c + 16777216 * d
}

// The four marks from a place on become those of a number; a table that has no four stays as it is.
pub fn set_word(marks: &mut [u8], place: usize, w: u32)
    ensures { marks.new ≡ with_word marks.old place w }
{
    let all = marks.len();
    if all < 4 {
        return;
    }
    if all - 4 < place {
        return;
    }
    marks[place] = (w % 256) as u8;
    marks[place + 1] = (w / 256 % 256) as u8;
    marks[place + 2] = (w / 65536 % 256) as u8;
    marks[place + 3] = (w / 16777216) as u8;
}

// Whether every mark is below MCP.
pub fn low(w: u32) -> bool
    ensures { result ≡ low_word w }
{
    w & 0xfcfcfcfc == 0
}

// Four bytes of 0 or 1 as four bits.
fn gather(x: u32) -> u32
    ensures { (p q s t : Bool) → x ≡ word_of (digit p) (digit q) (digit s) (digit t) → result ≡ nibble_of p q s t }
{
    (((x as u64) * 0x01020408 >> 24) % 16) as u32
}

// Four bits as four bytes of 0 or 1.
pub fn spread(a: u32) -> u32
    ensures { result ≡ spread_of a }
{
    ((a % 16) * 0x00204081) & 0x01010101
}

// Which of the marks are MIP, by their two low bits.
pub fn ones(w: u32) -> u32
    ensures { result ≡ which_are 1 w }
{
    let v = w & 0x03030303;
    gather(v & !(v >> 1) & 0x01010101)
}

// Which of them are MSP.
pub fn threes(w: u32) -> u32
    ensures { result ≡ which_are 3 w }
{
    let v = w & 0x03030303;
    gather(v & (v >> 1) & 0x01010101)
}

// Each MNP becomes MSP.
pub fn refined(w: u32) -> u32
    ensures { result ≡ refined_word w }
{
    let v = w & 0x03030303;
    w + ((v >> 1) & !v & 0x01010101)
}

// How many of four bits are 1.
pub fn count(k: u32) -> u32
    ensures { result ≡ count_of k }
{
    ((0x4332322132212110u64 >> (4 * (k % 16))) % 16) as u32
}
