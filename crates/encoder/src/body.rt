// The call that writes a body.
ghost use Rattle.std.specs.Prelude.{◌≡◌, ◌++◌, length, drop};
ghost use Rattle.sizes.specs.Sizes.{all_of};
ghost use Rattle.bits.specs.Bits.{bytes_for, packed};
ghost use Rattle.coef.specs.Coef.{planes_of};
ghost use Rattle.tree.specs.Summaries.{desc_table, grand_table};
ghost use Rattle.room.specs.Ready.{EncodeReady};
ghost use Rattle.encoder.specs.Body.{sent_bits, sent_marks, loan, Writes};

use crate::Source;
use refusals::Refusal;

// The planes of the array, and the bits written.
#[derive(Clone, Copy)]
pub struct Written {
    pub planes: u32,
    pub bits: u32,
}

// Writes the body of an array of so many planes, whose checks hold: fills the summaries and the I marks, and puts the bits from the first byte on.
fn write(
    n: u32,
    l: u32,
    coefs: &[i32],
    desc: &mut [u32],
    grand: &mut [u32],
    marks: &mut [u8],
    out: &mut [u8],
    budget: u32,
    planes: u32,
) -> Written
    requires { EncodeReady n l coefs.now (length desc.old) (length grand.old) (length out.old) budget × (length marks.old ≡ all_of n) × (planes ≡ planes_of coefs.now) }
    ensures value { result ≡ record { planes = planes_of coefs.now; bits = length (sent_bits n l coefs.now budget) } }
    ensures desc_after { desc.new ≡ desc_table n l coefs.now ++ drop (length (desc_table n l coefs.now)) desc.old }
    ensures grand_after { grand.new ≡ grand_table n l coefs.now ++ drop (length (grand_table n l coefs.now)) grand.old }
    ensures marks_after { marks.new ≡ sent_marks n l coefs.now budget }
    ensures out_after { out.new ≡ packed (sent_bits n l coefs.now budget) ++ drop (bytes_for (length (sent_bits n l coefs.now budget))) out.old }
{
    let most = room::most_bits(n, l, planes, budget);
    let _ = tree::fill(n, l, coefs, desc, grand);
    marking::start(marks, sizes::coarsest_of(n, l));
    let src = Source {
        coefs,
        desc: &desc[..],
        grand: &grand[..],
    };
    let bits = crate::writing::scan(src, marks, out, most as usize, planes);
    let count = bits as u32;
    Written {
        planes,
        bits: count,
    }
}

// Writes the body of a linear array of coefficients from `offset` on, at most `budget` bits of it.
// The tables are filled from whatever they held: I/4, I/16 and I entries.
// P is found first, once, and enters the checks: those of the summaries, then those of the marks and the output.
pub fn encode(
    n: u32,
    l: u32,
    coefs: &[i32],
    desc: &mut [u32],
    grand: &mut [u32],
    marks: &mut [u8],
    out: &mut [u8],
    offset: usize,
    budget: u32,
) -> Result<Written, Refusal>
    ensures { Writes n l coefs.now offset budget (loan desc.old grand.old marks.old out.old) result (loan desc.new grand.new marks.new out.new) }
{
    let planes = coef::planes(coefs);
    tree::check_by(n, l, coefs, planes, desc.len(), grand.len())?;
    room::check_encode(n, l, planes, marks.len(), out.len(), offset, budget)?;
    let all = sizes::all_of(n);
    let written = write(
        n,
        l,
        coefs,
        desc,
        grand,
        &mut marks[..all],
        &mut out[offset..],
        budget,
        planes,
    );
    Ok(written)
}
