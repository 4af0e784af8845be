// Steps 1 to 7 as definitions (specs/) and what is proved of them (proofs/). The code stands in the
// crates that cite them.
#![tactic(auto)]
