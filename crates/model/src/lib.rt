// The model machine of document 01, as definitions (specs/) and laws about them (proofs/). It has no code.
#![tactic(auto)]
