// What a text prints: it is read, minimised, eliminated and listed, or refused; and that each text is refused or listed, in at most 6,000 bytes.
// This crate has no code: its definitions are in specs/, its theorems in proofs/.
#![tactic(auto)]
