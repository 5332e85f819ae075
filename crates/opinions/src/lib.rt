// A plain second opinion on accepted events: definitions and laws alone. The code is in `second_opinion`.
#![tactic(auto)]
