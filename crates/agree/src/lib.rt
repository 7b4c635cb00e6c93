// The two ways to the matrix agree: for two accepted regions the cells that are drawn from the edges are those that tiles and relations give. There is no code here.
#![tactic(auto)]
