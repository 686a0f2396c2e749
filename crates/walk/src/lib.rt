// How code walks the scan: visits of places, passes and planes over any source of answers, and laws of their loops. Definitions and theorems, no code.
#![tactic(auto)]
