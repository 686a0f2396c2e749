// The scan of document 01: definitions and theorems. The code that does what they say is in the crate above.
#![tactic(auto)]
