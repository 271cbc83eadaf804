//! Tests of the system over decks that were read: single steps beside turns. Nothing stands on it.
#![tactic(auto)]

#[cfg(test)]
mod step_tests;
