// What holds of every kind of queue that sheds load by PIE: stated in specs/, proved in proofs/. No code.
#![tactic(auto)]
