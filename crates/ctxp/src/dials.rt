// The scan record of the stepped decoder as numbers: what a call from C can be lent.
ghost use Rattle.std.specs.Prelude.{◌≡◌};
ghost use Rattle.ctxp.specs.Lent.{dial_of, numbers_of};

use steps::Record;

// The record that the lent numbers are.
pub(crate) fn dial_of(dial: &[u32; 8]) -> Record
    ensures { result ≡ dial_of dial.now }
{
    Record {
        n: dial[0],
        l: dial[1],
        p: dial[2],
        plane: dial[3],
        pass: dial[4],
        place: dial[5],
        used: dial[6],
        pending: dial[7],
    }
}

// Puts the numbers of a record into the lent ones.
pub(crate) fn put_dial(dial: &mut [u32; 8], to: Record)
    ensures { dial.new ≡ numbers_of to }
{
    *dial = [
        to.n, to.l, to.p, to.plane, to.pass, to.place, to.used, to.pending,
    ];
}
