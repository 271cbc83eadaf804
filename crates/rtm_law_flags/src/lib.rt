//! What entries alone say of what a unit and the machine are: begun, doomed, born, ended, attached by whom, posted. The
//! same is what lives, at every moment.
#![tactic(auto)]

pub mod laws;
