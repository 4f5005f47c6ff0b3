// The byte form of the machine: record, private area and disk, what each entry does to them (specs/), and condition 3
// as a theorem over every list of steps (proofs/). It has no code.
#![tactic(auto)]
