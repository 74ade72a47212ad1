// The logic alone: its definitions stand in specs/, its theorems in proofs/. No code.
#![tactic(auto)]
