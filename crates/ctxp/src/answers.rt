// The answers of the base as numbers: what a call from C can be answered.
ghost use Rattle.std.specs.Prelude.{◌≡◌};
ghost use Rattle.refusals.specs.declared.Refusal.TheVariants.{Coefficient};
ghost use Rattle.bits.specs.Bits.{digit};
ghost use Rattle.ctxp.specs.Answers.{ending_number, of_refusal, of_value, of_planes, of_outcome, of_encoded, of_decoded, of_header, of_worst, of_written, of_read, of_figures, of_linear, of_raster, of_parted, of_next, Answers};
ghost use Rattle.ctxp.specs.Inner.{blank_answer, entries, Short};

use decoder::Ending;
use refusals::Refusal;

// The numbers that a call answers, in the order of the header's `txp_answer`. Those that it does not speak of are 0.
// Kept: numbers for kinds, since the C interface lends them.
#[derive(Clone, Copy)]
pub struct Answer {
    pub refusal: u32,
    pub place: u32,
    pub n: u32,
    pub l: u32,
    pub planes: u32,
    pub declared: u32,
    pub bits: u32,
    pub bytes: u32,
    pub finished: u32,
    pub error: u32,
    pub parts: u32,
    pub splits: u32,
    pub found: u32,
    pub negative: u32,
    pub value: u32,
    pub ending: u32,
}

// Done, with nothing to say.
const NOTHING: Answer = Answer {
    refusal: 0,
    place: 0,
    n: 0,
    l: 0,
    planes: 0,
    declared: 0,
    bits: 0,
    bytes: 0,
    finished: 0,
    error: 0,
    parts: 0,
    splits: 0,
    found: 0,
    negative: 0,
    value: 0,
    ending: 0,
};

pub(crate) fn nothing() -> Answer
    ensures { result ≡ blank_answer }
{
    NOTHING
}

// A refusal: its number and its place.
pub(crate) fn refused(why: Refusal) -> Answer
    ensures { entries result ≡ of_refusal why }
{
    Answer {
        refusal: refusals::number(why),
        place: refusals::place(why),
        ..NOTHING
    }
}

// One number.
pub(crate) fn value(x: u32) -> Answer
    ensures { entries result ≡ of_value x }
{
    Answer {
        value: x,
        ..NOTHING
    }
}

// A truth: 1 or 0.
pub(crate) fn of_bool(t: bool) -> Answer
    ensures { entries result ≡ of_value (digit t) }
{
    value(t as u32)
}

pub(crate) fn of_planes(p: u32) -> Answer
    ensures { entries result ≡ of_planes p }
{
    Answer {
        planes: p,
        ..NOTHING
    }
}

// A coefficient that is over the limit, where there is only one: refusal 4 at place 0.
pub(crate) fn too_large() -> Answer
    ensures { entries result ≡ of_refusal (Coefficient 0) }
{
    refused(Refusal::Coefficient(0))
}

// Why the bits ended, by its number in the header's `txp_ending`.
pub(crate) fn ending_number(e: Ending) -> u32
    ensures { result ≡ ending_number e }
{
    match e {
        Ending::GoesOn => 0,
        Ending::Whole => 1,
        Ending::Budget => 2,
        Ending::Cut => 3,
    }
}

pub(crate) fn of_outcome(o: Result<(), Refusal>) -> Answer
    ensures { entries result ≡ of_outcome o }
{
    match o {
        Ok(()) => NOTHING,
        Err(why) => refused(why),
    }
}

pub(crate) fn of_encoded(e: Result<txp::Encoded, Refusal>) -> Answer
    requires { Short e }
    ensures { entries result ≡ of_encoded e }
{
    match e {
        Ok(w) => Answer {
            planes: w.planes,
            bits: w.bits,
            bytes: w.bytes as u32,
            ..NOTHING
        },
        Err(why) => refused(why),
    }
}

pub(crate) fn of_decoded(d: Result<txp::Decoded, Refusal>) -> Answer
    ensures { entries result ≡ of_decoded d }
{
    match d {
        Ok(to) => Answer {
            n: to.n,
            l: to.l,
            planes: to.p,
            declared: to.declared,
            bits: to.used,
            finished: to.finished,
            error: to.error,
            ending: ending_number(to.ending),
            ..NOTHING
        },
        Err(why) => refused(why),
    }
}

// The header of a file by itself.
pub(crate) fn of_header(h: Result<txp::Header, Refusal>) -> Answer
    ensures { entries result ≡ of_header h }
{
    match h {
        Ok(said) => Answer {
            n: said.n,
            l: said.l,
            planes: said.p,
            declared: said.declared,
            ..NOTHING
        },
        Err(why) => refused(why),
    }
}

pub(crate) fn of_worst(w: Result<u32, Refusal>) -> Answer
    ensures { entries result ≡ of_worst w }
{
    match w {
        Ok(bits) => Answer { bits, ..NOTHING },
        Err(why) => refused(why),
    }
}

pub(crate) fn of_written(e: Result<encoder::Written, Refusal>) -> Answer
    ensures { entries result ≡ of_written e }
{
    match e {
        Ok(w) => Answer {
            planes: w.planes,
            bits: w.bits,
            ..NOTHING
        },
        Err(why) => refused(why),
    }
}

pub(crate) fn of_read(d: Result<decoder::ReadTo, Refusal>) -> Answer
    ensures { entries result ≡ of_read d }
{
    match d {
        Ok(to) => Answer {
            bits: to.used,
            finished: to.finished,
            error: to.error,
            ending: ending_number(to.ending),
            ..NOTHING
        },
        Err(why) => refused(why),
    }
}

pub(crate) fn of_figures(f: Result<figures::Figures, Refusal>) -> Answer
    ensures { entries result ≡ of_figures f }
{
    match f {
        Ok(of) => Answer {
            parts: of.parts,
            splits: of.splits,
            bits: of.bits,
            found: of.found,
            ..NOTHING
        },
        Err(why) => refused(why),
    }
}

pub(crate) fn of_linear(q: Result<places::Linear, Refusal>) -> Answer
    ensures { entries result ≡ of_linear q }
{
    match q {
        Ok(at) => value(places::linear_number(at)),
        Err(why) => refused(why),
    }
}

pub(crate) fn of_raster(p: Result<places::Raster, Refusal>) -> Answer
    ensures { entries result ≡ of_raster p }
{
    match p {
        Ok(at) => value(places::raster_number(at)),
        Err(why) => refused(why),
    }
}

pub(crate) fn of_parted(p: Option<coef::Signed>) -> Answer
    ensures { entries result ≡ of_parted p }
{
    match p {
        Some(s) => Answer {
            negative: s.negative as u32,
            value: s.magnitude,
            ..NOTHING
        },
        None => too_large(),
    }
}

pub(crate) fn of_next(x: Result<bool, bits::Why>) -> Answer
    ensures { entries result ≡ of_next x }
{
    match x {
        Ok(b) => Answer {
            bits: 1,
            value: b as u32,
            ..NOTHING
        },
        Err(why) => Answer {
            ending: ending_number(decoder::word_of(Err(why))),
            ..NOTHING
        },
    }
}

// Puts the numbers into the lent answer, and gives back the first of them, the refusal's.
pub(crate) fn put(to: &mut [u32; 16], a: Answer) -> u32
    ensures { Answers result to.new (entries a) }
{
    *to = [
        a.refusal, a.place, a.n, a.l, a.planes, a.declared, a.bits, a.bytes, a.finished, a.error,
        a.parts, a.splits, a.found, a.negative, a.value, a.ending,
    ];
    a.refusal
}
