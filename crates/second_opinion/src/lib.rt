// The second opinion on a log (11/12), in code. It keeps no waiting letter: a place in the list of accepted events is a number, and each
// question is answered by looking back or forward from there. So it is slow, and it goes over the events twice: it counts the words, and
// writes them if they all fit.
#![tactic(auto)]

mod decisions;
mod due_stamps;
mod found;
mod looking;
mod places;
mod refusals;
mod telling;
mod whole;
mod words;

pub use whole::opine;
