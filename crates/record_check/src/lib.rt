// Whether a record is sound: the clauses of document 01 on numbers and structs (clauses.rt), the tests on bytes in place (places.rt), those on a
// temperature table, which an entry of the saved image has too (table.rt), and all of them on a whole record (whole.rt).
#![tactic(auto)]

mod clauses;
mod places;
mod table;
mod whole;

pub use clauses::{states_named, timer_named};
pub use table::table_fixed;
pub use whole::sound;
