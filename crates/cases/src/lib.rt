// The cases on both sides of each edge: a table over the definitions that the contracts cite. It has no code of its own.
#![tactic(auto)]
