// What a rule means: its formulas' verdict at a position of a log, and how many positions have one. Definitions and their laws, no code.
#![tactic(auto)]
