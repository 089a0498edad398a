// The theorems over lists of calls, for C calls over words: stated in specs/, proved in proofs/. No code.
#![tactic(auto)]
