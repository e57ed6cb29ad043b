// Internal: the worked disc of document 01 as a proved table, in specs/; there is no code. It is a crate of its own, as computing it takes
// longer than all else that is proved of the definitions.

#![tactic(auto)]
