// The key sector: its checks in order, and what an accepted key asks for.
#![tactic(auto)]

mod key;
mod refusal;

pub use key::{Action, Verdict, read_key, refusal_of};
pub use refusal::Refusal;
