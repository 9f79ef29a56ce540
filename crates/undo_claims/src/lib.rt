// What lists of commands can and can't do to record and list: claims about the definition `obey`, their proofs, and examples.
// There is no code here.
#![tactic(auto)]
