// The theory of terms: specs/ and proofs/ alone, no code.
#![tactic(auto)]
