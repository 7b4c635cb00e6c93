// What the call for the C host answers and writes: definitions and laws. There is no code here.
#![tactic(auto)]
