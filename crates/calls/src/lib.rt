// Lists of calls on any kind of state: stated in specs/, proved in proofs/. No code.
#![tactic(auto)]
