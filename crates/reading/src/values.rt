// Four bits of a body at a time, and what four codes become by them.
ghost use Rattle.std.specs.Prelude.{◌≡◌, cond, ◌⊎◌, ◌+◌, ◌*◌, ◌^◌, ◌<◌, ◌≤◌, eqb, length};
ghost use Rattle.std.specs.Int.Bits.{bit_or};
ghost use Rattle.std.specs.Int.{w32};
ghost use Rattle.std.proofs.Common.{of_z, to_z};
ghost use Rattle.sizes.specs.Sizes.{most_planes};
ghost use Rattle.fours.specs.Tables.{row_table};
ghost use Rattle.reading.specs.Siblings.{found_four, refined_four, Fixed, Shows};

// The bits of a body from bit n on, nine of them and more, the first at bit 15.
pub(crate) fn window(body: &[u8], n: usize) -> u32
    requires { n + 16 ≤ 8 * length body.now }
    ensures { Shows body.now n result }
{
    let at = n / 8;
    let high = body[at] as u32;
    let low = body[at + 1] as u32;
    ((high * 256 + low) << ((n % 8) as u32)) % 65536
}

// A code where the mask has all bits, the old one where it has none, without a branch.
fn chosen(mask: u32, code: u32, old: i32) -> i32
    requires { ((mask ≡ 0) ⊎ (mask ≡ 4294967295)) × (code < 2 ^ 31) }
    ensures { result ≡ cond (eqb mask 0) old (to_z w32 code) }
{
    let keep = (mask % 2) as i32 - 1;
    ((code & mask) as i32) | (old & keep)
}

// A code with one bit more where the mask has all bits.
fn grown(mask: u32, level: u32, old: i32) -> i32
    requires { ((mask ≡ 0) ⊎ (mask ≡ 4294967295)) × (level < 2 ^ 31) }
    ensures { result ≡ to_z w32 (bit_or (of_z w32 old) (cond (eqb mask 0) 0 level)) }
{
    old | ((mask & level) as i32)
}

// Those of a are found in plane b, with the signs of s. All old codes are read before the first is stored.
pub(crate) fn found_four(
    values: &mut [i32],
    rows: &[u32; 64],
    b: u32,
    place: usize,
    a: usize,
    s: usize,
)
    requires { (place + 3 < length values.old) × (rows.now ≡ row_table) × (b < most_planes) × (a < 16) × (s < 16) }
    ensures { values.new ≡ found_four values.old place b a s }
{
    let level = 2u32 << b;
    let v0 = values[place];
    let v1 = values[place + 1];
    let v2 = values[place + 2];
    let v3 = values[place + 3];
    let c0 = level + rows[4 * s] % 2;
    let c1 = level + rows[4 * s + 1] % 2;
    let c2 = level + rows[4 * s + 2] % 2;
    let c3 = level + rows[4 * s + 3] % 2;
    values[place] = chosen(rows[4 * a], c0, v0);
    values[place + 1] = chosen(rows[4 * a + 1], c1, v1);
    values[place + 2] = chosen(rows[4 * a + 2], c2, v2);
    values[place + 3] = chosen(rows[4 * a + 3], c3, v3);
}

// Bit b of those that are refined is put into their codes; a has a 1 where it is 1.
pub(crate) fn refined_four(values: &mut [i32], rows: &[u32; 64], b: u32, place: usize, a: usize)
    requires { (place + 3 < length values.old) × (rows.now ≡ row_table) × (b < most_planes) × (a < 16) }
    ensures values_after { values.new ≡ refined_four values.old place b a }
    ensures fixed { Fixed values.old place b }
{
    let level = 2u32 << b;
    let v0 = values[place];
    let v1 = values[place + 1];
    let v2 = values[place + 2];
    let v3 = values[place + 3];
    values[place] = grown(rows[4 * a], level, v0);
    values[place + 1] = grown(rows[4 * a + 1], level, v1);
    values[place + 2] = grown(rows[4 * a + 2], level, v2);
    values[place + 3] = grown(rows[4 * a + 3], level, v3);
}
