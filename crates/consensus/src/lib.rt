// No code: the play of document 01's rules on lists of events, the paper's two figures, and the proofs about them.

#![tactic(auto)]
