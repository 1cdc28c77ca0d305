// Demand 3, stated and proved in specs/. There is no code here.
#![tactic(auto)]
