// Theorems over lists of calls: stated in specs/, proved in proofs/. No code.
#![tactic(auto)]
