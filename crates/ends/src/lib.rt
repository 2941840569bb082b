// Where the fields of a record end, whatever its kind: laws alone. They stand in specs/; there is nothing to run.
#![tactic(auto)]
