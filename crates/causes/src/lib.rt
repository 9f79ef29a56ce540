// The control behind a trap is responsible for it (MODEL D): definitions in specs/, and the theorem in proofs/. There is no code
// here: the rules that name a cause stand in `rules`, and the code that runs by them in `order_counters` and `order_icntr`.
#![tactic(auto)]
