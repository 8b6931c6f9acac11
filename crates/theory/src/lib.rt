// What is true of the rules. The completeness theorem, the bound on telling words and what rests on them stand in proofs/, all else in specs/.
#![tactic(auto)]
