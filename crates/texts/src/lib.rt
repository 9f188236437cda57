// Vocabularies, patterns and leftovers in the engineers' own words: specs/ and proofs/ alone, no code.
#![tactic(auto)]
