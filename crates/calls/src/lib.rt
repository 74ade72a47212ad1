// Lists of calls: what is claimed of them stands in specs/, the proofs in proofs/. No code.
#![tactic(auto)]
