// What holds after whole lists of calls, as definitions (specs/) and what is proved of them (proofs/). `lists` runs a list.
#![tactic(auto)]
