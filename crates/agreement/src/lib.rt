// The drawing stands for the ship.
#![tactic(auto)]
