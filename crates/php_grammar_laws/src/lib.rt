// Laws of the grammar of statements and declarations that parsers are proved by.
#![tactic(auto)]

pub mod laws;
