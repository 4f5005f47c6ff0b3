// How a held request is carried out on record, private area and visible disk, and its reply left in the slot: performing a decision
// (performing.rt), and serving the slot (serving.rt).
#![tactic(auto)]

mod performing;
mod serving;

pub use serving::serve;
