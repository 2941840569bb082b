// What the stream of a list says, by its rows, is what its records mean. The theorem stands in specs/; there is nothing to run.
#![tactic(auto)]
