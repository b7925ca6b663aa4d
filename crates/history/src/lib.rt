// What runs of calls do to a sound volume, as theorems: there is no code here.
#![tactic(auto)]
