// No code: what document 01 tells of its starred boards, as one list, and the one theorem that proves it (specs/, proofs/).
#![tactic(auto)]
