// What flat statements and declarations are: all of their expressions are flat. The trees of the program keep all that the
// limit of nesting doesn't count in lists already, so no more has to be said.
#![tactic(auto)]
