// The keys of a sheet's records: their fields, taken out and put together.
#![tactic(auto)]

pub mod key;
