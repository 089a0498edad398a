// What holds of two queues over one pair of tables, over lists of calls: stated in specs/, proved in proofs/. No code.
#![tactic(auto)]
