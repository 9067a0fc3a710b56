// Theorems alone, in proofs/: what the scope demands of the calls, each demand in one file, and wrong versions that break it.
#![tactic(auto)]
