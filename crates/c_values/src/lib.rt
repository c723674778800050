// Answers as C sees them: the definitions are in specs/, what follows from them in proofs/; there are no calls.
#![tactic(auto)]
