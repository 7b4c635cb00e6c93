// SCOPE 11: the worked outlines as one proved table of the definitions. There is no code here.
#![tactic(auto)]
