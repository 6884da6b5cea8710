// Tick settings and region records of a junction plan: definitions in specs/, and what is proved of them in proofs/.
#![tactic(auto)]
