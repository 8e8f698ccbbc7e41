// No code: which ends a roll leads to, the order of their list, and the theorems that tie the two (specs/, proofs/).
#![tactic(auto)]
