// The transform and the file together: theorems, no code.
#![tactic(auto)]
