// Plans: their definitions stand in specs/, the laws about them in proofs/. The code here is the kinds with their tables, the words,
// the value record, and where a plan has its fields and its inputs.
#![tactic(auto)]

pub mod field_sources;
pub mod inputs;
pub mod kinds;
pub mod values;
pub mod word_ranges;
pub mod words;
