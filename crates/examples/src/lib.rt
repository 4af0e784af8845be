// The table of examples (docs/RULES.md, "Examples"), cases a to i and a table of the operator's filing, as one theorem
// (proofs/Table), and a year of calls (proofs/YearOfCalls). No code stands here.
#![tactic(auto)]
