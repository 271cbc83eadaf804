//! Tests of traces and of limits: the layers of control blocks and the text of a trace over a deck that was read, and
//! decks that go to the limits of the machine. The program doesn't stand on it.
#![tactic(auto)]

#[cfg(test)]
mod layer_tests;
#[cfg(test)]
mod limit_tests;
#[cfg(test)]
mod misspelling_tests;
#[cfg(test)]
mod trace_tests;
