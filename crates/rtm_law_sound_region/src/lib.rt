//! What an entry that can be applied keeps of what units share: who lives, pending aborts, holdings and resource
//! managers. The laws that say so of histories stand above, in rtm_law_sound: here are their proofs alone.
#![tactic(auto)]
