//! The record of an error, the SDWA: what SETRP, RET15, a routine's end and an inner failure make of it, and its 48
//! bytes.
#![tactic(auto)]

mod bytes;
mod flags;
mod label;
mod sdwa;
mod send;
#[cfg(test)]
mod tests;

pub use bytes::{sdwa_bytes, sdwa_read};
pub use flags::SdwaFlags;
pub use sdwa::Sdwa;
pub use send::types_are_send;
