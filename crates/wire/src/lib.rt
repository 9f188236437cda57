// How vocabularies and terms are written and read: specs/ and proofs/ alone, no code.
#![tactic(auto)]
