// Theorems over scripts: stated in specs/, proved in proofs/. No code.
#![tactic(auto)]
