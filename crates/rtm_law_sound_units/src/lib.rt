//! What a unit makes next can be applied, and keeps its own control blocks sound. The laws that say so of histories
//! stand above, in rtm_law_sound: here are their proofs alone.
#![tactic(auto)]
