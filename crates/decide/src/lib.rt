// What an operation does, decided by value: nothing here writes. The key sector (key_sector.rt), the data transfer and the access to one
// sector (access.rt), and any operation (choice.rt).
#![tactic(auto)]

mod access;
mod choice;
mod key_sector;

pub use choice::decide;
