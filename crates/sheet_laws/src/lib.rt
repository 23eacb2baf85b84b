// What holds of every sheet and its listing: that the cut of its stops into cells changes no refusal, and that its routes' distances are
// whole numbers. This crate has no code: its theorems are in proofs/.
#![tactic(auto)]
