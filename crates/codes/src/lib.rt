// Codes: the binary form of readings, its laws and its refusals.
#![tactic(auto)]

mod error;
mod opcode;
mod theorems;

pub use error::{CodeError, EncodeError};
pub use opcode::{NoOpcode, Opcode};
pub use theorems::{accepted_codes, prefix_free, runs_forward, written_back};
