// What a host's arrays hold after a run is the session of that run: theorems over the definitions, with no code.

#![tactic(auto)]
