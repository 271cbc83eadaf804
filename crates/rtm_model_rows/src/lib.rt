//! Worked rows: decks with the histories that the machine makes of them, and histories that it may not make.
#![tactic(auto)]

pub mod broken_chains;
pub mod broken_holdings;
pub mod broken_landings;
pub mod chain_law;
pub mod chains;
pub mod handed_records;
pub mod holdings;
pub mod landings;
pub mod moments;
pub mod refusals;
pub mod rows;
pub mod wrong_machines;
