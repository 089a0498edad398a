// What holds of deficit round robin over 64 flows: stated in specs/, proved in proofs/. No code.
#![tactic(auto)]
