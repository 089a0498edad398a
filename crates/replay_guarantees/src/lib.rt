// No code: what is proved of a replay (specs/), over the rules, the log and the replay.
#![tactic(auto)]
