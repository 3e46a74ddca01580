//! What a run still gives, in every state.
#![tactic(auto)]

pub mod law;
