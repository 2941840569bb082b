// The readings that the grammar allows against what the machine accepts: laws, both ways. They stand in specs/; there is nothing to run.
#![tactic(auto)]
