// No code: the closing log (document 02, A.3), turn by turn, and the proofs about it. The crate `close` writes it.

#![tactic(auto)]
