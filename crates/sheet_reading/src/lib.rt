// One reading of a sheet: refusals 1 to 4, and the tables of its records. Apart from sheet_records for the prover's time.
#![tactic(auto)]

pub mod refusal;
mod rules;
pub mod tables;
