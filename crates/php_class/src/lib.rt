// Classes: the table of all classes, interfaces and traits of a flat script with what they have, and what may be wrong with it.
#![tactic(auto)]
