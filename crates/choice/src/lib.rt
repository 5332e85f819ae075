// The one way in which a definition chooses, by a test. There is no code here: specs/ has the choice, proofs/ what holds of it.
#![tactic(auto)]
