// What the documents say, as definitions: this crate has no code. Its definitions stand in specs/, their laws in proofs/.
#![tactic(auto)]
