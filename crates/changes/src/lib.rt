// What one change of a sound volume does to its files, as theorems: there is no code here.
#![tactic(auto)]
