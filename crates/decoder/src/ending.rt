// Why the bits ended.
ghost use Rattle.std.specs.Prelude.{◌≡◌};
ghost use Rattle.decoder.specs.Ending.{word_of, whole_or};

use bits::Why;

// The last plane ended, or there is none; else the declared count was reached, or the file is short of it; else bits go on.
#[derive(Clone, Copy)]
pub enum Ending {
    Whole,
    Budget,
    Cut,
    GoesOn,
}

// The word of what the view says of the next bit.
pub fn word_of(next: Result<bool, Why>) -> Ending
    ensures { result ≡ word_of next }
{
    match next {
        Ok(_) => Ending::GoesOn,
        Err(Why::Declared) => Ending::Budget,
        Err(Why::Short) => Ending::Cut,
    }
}

// The word for where `left` planes are not finished, by what the view says of the next bit.
pub fn ending_of(left: u32, next: Result<bool, Why>) -> Ending
    ensures { result ≡ whole_or left (word_of next) }
{
    if left == 0 {
        return Ending::Whole;
    }
    word_of(next)
}
