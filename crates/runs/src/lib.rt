// A whole hire: what any run of calls leaves on the sheet. There is no code here.
#![tactic(auto)]
