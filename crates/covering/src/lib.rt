// The theory of 02's "Is this call in the family?": definitions and theorems, and no code.
#![tactic(auto)]
