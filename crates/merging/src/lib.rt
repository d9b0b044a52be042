// One log made of two (document 02, A.5), as mathematics: the code that writes it is in the crate `merge`.

#![tactic(auto)]
