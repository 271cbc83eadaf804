//! Tests of the program's words, over sources and sinks in memory. The program doesn't stand on it.
#![tactic(auto)]

#[cfg(test)]
mod manager_tests;
#[cfg(test)]
mod program_tests;
#[cfg(test)]
mod run_tests;
#[cfg(test)]
mod scan_tests;
#[cfg(test)]
mod still_held_tests;
#[cfg(test)]
mod verify_tests;
