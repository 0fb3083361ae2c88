// The grader: making, its eight calls and two questions, and what it promises of every list of calls. Nothing is offered
// to other crates until the command plays whole days through it.
#![tactic(auto)]

mod grader;
mod running;
