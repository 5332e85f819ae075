// Why an item was committed: definitions and laws alone.
#![tactic(auto)]
