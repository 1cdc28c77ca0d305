// The definitions that contracts and theorems cite are in specs/. There is no code here.
#![tactic(auto)]
