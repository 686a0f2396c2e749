// The decoder of a body.
#![tactic(auto)]

mod body;
mod ending;
mod finish;
mod rule;

pub use body::{ReadTo, decode, decode_by, decode_midpoint};
pub use ending::{Ending, ending_of, word_of};
pub use rule::Rule;
