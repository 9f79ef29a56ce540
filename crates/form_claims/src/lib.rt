// What is claimed of a session and its other form, with proofs. There is no code here.
#![tactic(auto)]
