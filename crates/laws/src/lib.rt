// Laws on lists, loops, searches, integers and matrix indexes that every other crate's proofs cite.
// This crate has no code: its definitions and laws are in specs/.
#![tactic(auto)]
