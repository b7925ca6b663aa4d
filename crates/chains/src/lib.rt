// Chains of clusters, as pure mathematics: there is no code here. The definitions stand in specs/, their laws in proofs/Laws/.
#![tactic(auto)]
