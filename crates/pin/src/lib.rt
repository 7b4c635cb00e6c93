// Every enclosed point is accounted for: pins, their rays and their tiles; and a region that lies round a box reaches beyond it. There is no code here.
#![tactic(auto)]
