// The grammars of the two packed files, and the trees that they spell: definitions and theorems, and no code.
#![tactic(auto)]
