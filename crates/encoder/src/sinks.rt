// Bits on their way out, held in a number of 64 bits.
ghost use Rattle.std.specs.Prelude.{◌≡◌, ◌+◌, ◌*◌, ◌^◌, ◌<◌, ◌≤◌, length};
ghost use Rattle.encoder.specs.Sinks.{Holding, with_held, SameHeld};

use crate::Sink;

// k bits more, whose number is v.
pub(crate) fn put(s: Sink, k: usize, v: u64) -> Sink
    requires { Holding s k × (v < 2 ^ k) }
    ensures { result ≡ record { acc = s.acc * 2 ^ k + v; n = s.n + k; at = s.at } }
{
    Sink {
        acc: (s.acc << (k as u32)) + v,
        n: s.n + k,
        at: s.at,
    }
}

// The highest byte of what is held is written.
fn byte_out(s: Sink, out: &mut [u8]) -> Sink
    requires { (8 ≤ s.n) × Holding s 0 × (s.at < length out.old) }
    ensures { SameHeld out.old s out.new result × (result.n + 8 ≡ s.n) × (result.at ≡ s.at + 1) }
{
    let k = s.n - 8;
    let at = s.at;
    let acc = s.acc;
    let w = acc >> (k as u32);
    out[at] = w as u8;
    Sink {
        acc: acc - (w << (k as u32)),
        n: k,
        at: at + 1,
    }
}

// Four bytes are written where 32 bits are held.
pub(crate) fn flushed(s: Sink, out: &mut [u8]) -> Sink
    requires { Holding s 0 × (s.at + 4 ≤ length out.old) }
    ensures { SameHeld out.old s out.new result × (result.n ≤ 31) }
{
    if s.n < 32 {
        return s;
    }
    let s1 = byte_out(s, out);
    let s2 = byte_out(s1, out);
    let s3 = byte_out(s2, out);
    byte_out(s3, out)
}

// All that is held is written, and 0 fills the last byte. It answers the number of bits.
pub(crate) fn ended(s: Sink, out: &mut [u8]) -> usize
    requires { Holding s 0 × (8 * s.at + s.n ≤ 8 * length out.old) × (8 * s.at + s.n < 2 ^ 64) }
    ensures { (result ≡ 8 * s.at + s.n) × (out.new ≡ with_held out.old s) }
{
    let mut t = s;
    while 8 <= t.n {
        t = byte_out(t, out);
    }
    let at = t.at;
    let n = t.n;
    if n == 0 {
        return 8 * at;
    }
    let last = t.acc << ((8 - n) as u32);
    out[at] = last as u8;
    8 * at + n
}
