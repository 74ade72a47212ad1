// Could an open position have been told sooner? Definitions and a theorem over the logic, no code.
#![tactic(auto)]
