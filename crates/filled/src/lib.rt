// A lent run of words or bytes that is filled from its front. There is no code here: specs/ says what such a run holds, and
// proofs/ has the laws by which the functions that fill one are proved.
#![tactic(auto)]
