// What stands at a place, in the words of the grammar: laws that tie the bytes of a record to what its fields say. They stand in
// specs/; there is nothing to run.
#![tactic(auto)]
