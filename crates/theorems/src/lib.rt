// No code: what is true of the rules whatever the code, in specs/ and proofs/.
#![tactic(auto)]
