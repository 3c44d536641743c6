// Definitions and laws only: the store as lists, the words it stands in, and the demands. See specs/ and proofs/.

#![tactic(auto)]
