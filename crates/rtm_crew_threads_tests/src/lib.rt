//! Tests of the run on threads: that workers run side by side, that each makes its own unit's entries, and that the
//! caller makes those of the units whose workers weren't started. The program doesn't stand on it.
#![tactic(auto)]

#[cfg(test)]
mod calls;
#[cfg(test)]
mod decks;
#[cfg(test)]
mod end_tests;
#[cfg(test)]
mod gate_tests;
#[cfg(test)]
mod record;
#[cfg(test)]
mod start_tests;
