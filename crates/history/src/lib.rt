// Demands 2 and 3 over any history of calls: this crate has no code. Its definitions stand in specs/, the theorems in proofs/.
#![tactic(auto)]
