// What holds of a store and any number of chains over one pair of tables: stated in specs/, proved in proofs/. No code.
#![tactic(auto)]
