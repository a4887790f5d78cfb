// The machine: runs of any rules under any kind of control. The rules say what actions do to the data of
// a run, and a control says what is still to be done in a frame; neither knows the other. Each function
// says in its contract what holds of all of them, and its body is empty.
#![tactic(auto)]

pub mod laws;
