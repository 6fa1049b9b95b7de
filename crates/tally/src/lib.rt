// The tally of document 01, and demand 3: what holds of the meter after any list of calls; and that calls on other streams show in nothing
// that a stream answers or holds. specs/ states it and proofs/ proves it.
// There is no code here.
#![tactic(auto)]
