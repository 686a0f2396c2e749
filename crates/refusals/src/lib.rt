// The numbers for no: one case for each line of document 01's table, and for each that document 02 adds. A case holds the place that it reports, where that is not always 0.
#![tactic(auto)]

ghost use Rattle.std.specs.Prelude.{◌≡◌};
ghost use Rattle.refusals.specs.Refusals.{number_of, place_of};

#[derive(Clone, Copy)]
pub enum Refusal {
    // 1: N out of range
    Side,
    // 2: L out of range
    Levels,
    // 3: the input's length is not I, or a single place is not below I
    Length,
    // 4: a coefficient over the limit; the first such place
    Coefficient(u32),
    // 5: a lent table or array is too short
    Lent,
    // 6: the output is below 12 + the bytes for min(budget, worst body)
    Output,
    // 7: under 12 bytes, or wrong letters
    Letters,
    // 8: version not 1
    Version,
    // 9: P over 24
    Planes,
    // 10: more body bytes than the declared bits need
    Surplus,
    // 11: all body bytes present, padding not 0
    Padding,
    // 12: a contradiction while a plane is in progress; the first bit at which no array fits
    Contradiction(u32),
    // 13: usable bits left where plane 0 has ended or P is 0; the first of them
    Beyond(u32),
    // 14: a step back at bit 0
    First,
    // 15: a step forward with no usable bit left
    Spent,
    // 16: a scan record out of range, or whose bits used pass the usable ones
    Record,
    // 17: a sample out of range; the first such raster place
    Sample(u32),
    // 18: a restored sample out of range
    Restored,
}

// The number for no.
pub fn number(why: Refusal) -> u32
    ensures { result ≡ number_of why }
{
    match why {
        Refusal::Side => 1,
        Refusal::Levels => 2,
        Refusal::Length => 3,
        Refusal::Coefficient(_) => 4,
        Refusal::Lent => 5,
        Refusal::Output => 6,
        Refusal::Letters => 7,
        Refusal::Version => 8,
        Refusal::Planes => 9,
        Refusal::Surplus => 10,
        Refusal::Padding => 11,
        Refusal::Contradiction(_) => 12,
        Refusal::Beyond(_) => 13,
        Refusal::First => 14,
        Refusal::Spent => 15,
        Refusal::Record => 16,
        Refusal::Sample(_) => 17,
        Refusal::Restored => 18,
    }
}

// The place reported with it.
pub fn place(why: Refusal) -> u32
    ensures { result ≡ place_of why }
{
    match why {
        Refusal::Coefficient(place)
        | Refusal::Contradiction(place)
        | Refusal::Beyond(place)
        | Refusal::Sample(place) => place,
        _ => 0,
    }
}
