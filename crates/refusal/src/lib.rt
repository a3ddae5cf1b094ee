//! Why a call was refused: sixteen causes, each with its number and its name.
//!
//! Keeps: no two causes have one number or one name.
//! Never: says what a call left behind it. Each call says that itself.
//! Callers rely on: a line of output names its cause by the number and the name, as `13 Down`.
//!
//! Start at `Refusal`, where each cause stands.
#![tactic(auto)]

mod laws;
mod refusal;

pub use laws::{a_name_is_of_one_refusal, a_number_is_of_one_refusal};
pub use refusal::Refusal;
