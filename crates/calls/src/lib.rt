// What the calls on a caller's words reply, leave and list, as definitions in specs/, and laws that their proofs share. No code.
#![tactic(auto)]
