// The theorem of delivery applied to a run in which everything happens, and the log of that run, computed. There is no code here.
#![tactic(auto)]
