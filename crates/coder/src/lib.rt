// The encoder and the decoder of a body together: theorems, no code.
#![tactic(auto)]
