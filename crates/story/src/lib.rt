// Demand 3 and "once only" are theorems over the session's definitions: there is no code here.

#![tactic(auto)]
