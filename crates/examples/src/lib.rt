// Examples of the rules (MODEL P12), as data in specs/, and that they hold in proofs/. There is no code here: the worked examples
// P1 to P11, and those that wrong definitions are told by, stand in `rules` itself.
#![tactic(auto)]
