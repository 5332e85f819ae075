// The second opinion on a log: definitions and laws alone. The code is in `second_opinion`.
#![tactic(auto)]
