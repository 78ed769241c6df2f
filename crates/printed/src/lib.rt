// What the batch printer prints, as a definition: this crate has no code. The definition stands in specs/, its laws in proofs/.
#![tactic(auto)]
