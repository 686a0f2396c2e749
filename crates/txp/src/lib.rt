// The TXP file: its header, and the public calls.
#![tactic(auto)]

ghost use Rattle.std.specs.Prelude.{◌≡◌, true, ◌++◌, ◌<◌, ◌≤◌, length, get_or, set, drop};
ghost use Rattle.std.proofs.lemmas.List.Edits.{sets};
ghost use Rattle.refusals.specs.Checks.{first_failing};
ghost use Rattle.sizes.specs.Sizes.{side_fits};
ghost use Rattle.bits.specs.Bits.{bytes_for};
ghost use Rattle.nls.specs.Reading.{lower, midpoint};
ghost use Rattle.encoder.specs.Body.{loan};
ghost use Rattle.decoder.specs.Body.{tables};
ghost use Rattle.decoder.specs.Rules.{rule_of};
ghost use Rattle.txp.specs.Calls.{Encodes, padding_fits, header_checks, body_checks, header_answer, decode_checks, Decodes};
ghost use Rattle.txp.specs.Under.{with_header};
ghost use Rattle.txp.specs.Header.{body_of, header_size, header_bytes, two_at, two_bytes, letters_fit, version_fits, header_of};

use decoder::{Ending, ReadTo, Rule};
use refusals::Refusal;

// The bytes before the body.
pub const HEADER_SIZE: usize = 12;

// What a header says, but for letters and version.
#[derive(Clone, Copy)]
pub struct Header {
    pub n: u32,
    pub l: u32,
    pub p: u32,
    pub declared: u32,
}

// The planes of the array, the bits written, and the bytes of the file.
#[derive(Clone, Copy)]
pub struct Encoded {
    pub planes: u32,
    pub bits: u32,
    pub bytes: usize,
}

// What the header says, the bits used, the planes finished, the worst error, and why the bits ended.
#[derive(Clone, Copy)]
pub struct Decoded {
    pub n: u32,
    pub l: u32,
    pub p: u32,
    pub declared: u32,
    pub used: u32,
    pub finished: u32,
    pub error: u32,
    pub ending: Ending,
}

// The byte at a place, 0 past the end.
fn byte_at(file: &[u8], i: usize) -> u32
    ensures { (result ≡ get_or file.now i 0) × (result < 256) }
{
    file.get(i).copied().map_or(0, u32::from)
}

// The 16 bits at a place, the high byte first.
fn two_at(file: &[u8], i: usize) -> u32
    requires { i < 4096 }
    ensures { (result ≡ two_at file.now i) × (result < 65536) }
{
    let high = byte_at(file, i);
    let low = byte_at(file, i + 1);
    high * 256 + low
}

// The condition of refusal 7.
#[tactic(auto, unfolding(crate::specs::Header::letters_fit))]
pub fn letters_fit(file: &[u8]) -> bool
    ensures { result ≡ letters_fit file.now }
{
    HEADER_SIZE <= file.len()
        && byte_at(file, 0) == 0x54
        && byte_at(file, 1) == 0x58
        && byte_at(file, 2) == 0x50
}

// The condition of refusal 8.
pub fn version_fits(file: &[u8]) -> bool
    ensures { result ≡ version_fits file.now }
{
    two_at(file, 3) == 1
}

// What the header says.
pub fn header_of(file: &[u8]) -> Header
    ensures { result ≡ header_of file.now }
{
    let n = byte_at(file, 5);
    let l = byte_at(file, 6);
    let p = byte_at(file, 7);
    let high = two_at(file, 8);
    let low = two_at(file, 10);
    Header {
        n,
        l,
        p,
        declared: high * 65536 + low,
    }
}

// Puts a byte at a place; past the end it does nothing.
fn put_byte(out: &mut [u8], i: usize, x: u32)
    requires { x < 256 }
    ensures { out.new ≡ set out.old i x }
{
    if i < out.len() {
        out[i] = x as u8;
    }
}

// Puts 16 bits at a place, the high byte first.
fn put_two(out: &mut [u8], i: usize, x: u32)
    requires { i < 4096 }
    ensures { out.new ≡ sets out.old i (two_bytes x) }
{
    put_byte(out, i, x / 256 % 256);
    put_byte(out, i + 1, x % 256);
}

// Writes the header into the first 12 bytes.
fn put_header(out: &mut [u8], h: Header)
    requires { (header_size ≤ length out.old) × (h.n < 256) × (h.l < 256) × (h.p < 256) }
    ensures { out.new ≡ header_bytes h ++ drop header_size out.old }
{
    put_byte(out, 0, 0x54);
    put_byte(out, 1, 0x58);
    put_byte(out, 2, 0x50);
    put_two(out, 3, 1);
    put_byte(out, 5, h.n);
    put_byte(out, 6, h.l);
    put_byte(out, 7, h.p);
    let declared = h.declared;
    put_two(out, 8, declared / 65536);
    put_two(out, 10, declared % 65536);
}

// The bytes that some bits fill, in 64 bits: the sum with 7 does not wrap.
fn bytes_for(bits: u32) -> usize
    ensures { result ≡ bytes_for bits }
{
    (bits as usize + 7) / 8
}

// The condition of refusal 11.
fn padding_fits(file: &[u8], declared: u32) -> bool
    requires { header_size ≤ length file.now }
    ensures { result ≡ padding_fits declared (body_of file.now) }
{
    if file.len() - HEADER_SIZE == bytes_for(declared) {
        let last = byte_at(file, HEADER_SIZE + declared as usize / 8);
        return last % (1u32 << (8 - declared % 8)) == 0;
    }
    true
}

// The checks that the header decides, in their order: 7, 8, 1, 2, 9.
fn check_header(file: &[u8]) -> Result<(), Refusal>
    ensures { result ≡ first_failing (header_checks file.now) }
{
    if !letters_fit(file) {
        return Err(Refusal::Letters);
    }
    if !version_fits(file) {
        return Err(Refusal::Version);
    }
    let h = header_of(file);
    room::check_worst(h.n, h.l, h.p)
}

// What the header says. It reads the first 12 bytes alone, so that a caller can learn N before it lends any table.
pub fn read_header(file: &[u8]) -> Result<Header, Refusal>
    ensures { result ≡ header_answer (first_failing (header_checks file.now)) (header_of file.now) }
{
    check_header(file)?;
    Ok(header_of(file))
}

// The checks behind those of the header, in their order: 10, 11, 5.
fn check_body(
    h: Header,
    file: &[u8],
    values: usize,
    precisions: usize,
    marks: usize,
) -> Result<(), Refusal>
    requires { (header_size ≤ length file.now) × (side_fits h.n ≡ true) }
    ensures { result ≡ first_failing (body_checks h (body_of file.now) values precisions marks) }
{
    if bytes_for(h.declared) < file.len() - HEADER_SIZE {
        return Err(Refusal::Surplus);
    }
    if !padding_fits(file, h.declared) {
        return Err(Refusal::Padding);
    }
    room::check_tables(sizes::all_of(h.n), values, precisions, marks)
}

// The checks of decoding but for 12 and 13, in their order.
fn check_decode(file: &[u8], values: usize, precisions: usize, marks: usize) -> Result<(), Refusal>
    ensures { result ≡ first_failing (decode_checks file.now values precisions marks) }
{
    check_header(file)?;
    check_body(header_of(file), file, values, precisions, marks)
}

// Writes the file of a linear array of coefficients, with at most `budget` bits in its body.
// The tables are filled from whatever they held: I/4, I/16 and I entries.
pub fn encode(
    n: u32,
    l: u32,
    coefs: &[i32],
    desc: &mut [u32],
    grand: &mut [u32],
    marks: &mut [u8],
    out: &mut [u8],
    budget: u32,
) -> Result<Encoded, Refusal>
    ensures { Encodes n l coefs.now budget (loan desc.old grand.old marks.old out.old) result (loan desc.new grand.new marks.new out.new) }
{
    let written = encoder::encode(n, l, coefs, desc, grand, marks, out, HEADER_SIZE, budget)?;
    let h = Header {
        n,
        l,
        p: written.planes,
        declared: written.bits,
    };
    put_header(out, h);
    Ok(Encoded {
        planes: written.planes,
        bits: written.bits,
        bytes: HEADER_SIZE + bytes_for(written.bits),
    })
}

// The answer on a body under its header.
fn with_header(h: Header, body: Result<ReadTo, Refusal>) -> Result<Decoded, Refusal>
    ensures { result ≡ with_header h body }
{
    let read = body?;
    Ok(Decoded {
        n: h.n,
        l: h.l,
        p: h.p,
        declared: h.declared,
        used: read.used,
        finished: read.finished,
        error: read.error,
        ending: read.ending,
    })
}

// Reads a file, whole or cut, into the three tables, I entries each: values by the rule named.
fn decode_by(
    file: &[u8],
    values: &mut [i32],
    precisions: &mut [u8],
    marks: &mut [u8],
    rule: Rule,
) -> Result<Decoded, Refusal>
    ensures { Decodes (rule_of rule) file.now (tables values.old precisions.old marks.old) result (tables values.new precisions.new marks.new) }
{
    check_decode(file, values.len(), precisions.len(), marks.len())?;
    let h = header_of(file);
    let body = decoder::decode_by(
        h.n,
        h.l,
        h.p,
        &file[HEADER_SIZE..],
        h.declared,
        values,
        precisions,
        marks,
        rule,
    );
    with_header(h, body)
}

// Reads a file, whole or cut, by the default rule: known bits stand for themselves.
pub fn decode(
    file: &[u8],
    values: &mut [i32],
    precisions: &mut [u8],
    marks: &mut [u8],
) -> Result<Decoded, Refusal>
    ensures { Decodes lower file.now (tables values.old precisions.old marks.old) result (tables values.new precisions.new marks.new) }
{
    decode_by(file, values, precisions, marks, Rule::Lower)
}

// Reads a file, whole or cut, by the midpoint.
// Kept: beside `decode`, since both names are those of the C interface, and README has them.
pub fn decode_midpoint(
    file: &[u8],
    values: &mut [i32],
    precisions: &mut [u8],
    marks: &mut [u8],
) -> Result<Decoded, Refusal>
    ensures { Decodes midpoint file.now (tables values.old precisions.old marks.old) result (tables values.new precisions.new marks.new) }
{
    decode_by(file, values, precisions, marks, Rule::Midpoint)
}
