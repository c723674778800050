// The demands as propositions: specs/ states them over the calls' own definitions, proofs/ proves them. There are no calls here.
#![tactic(auto)]
