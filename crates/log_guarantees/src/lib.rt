// Theorems over runs of the log's writer and reader: stated in specs/, proved in proofs/. No code.
#![tactic(auto)]
