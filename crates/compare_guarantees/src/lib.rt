// Theorems over any two logs that are compared: stated in specs/, proved in proofs/. No code.
#![tactic(auto)]
