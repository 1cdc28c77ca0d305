// The starred rows of the scope document, proved in specs/. There is no code here.
#![tactic(auto)]
