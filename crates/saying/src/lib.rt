// What is said and what is written, each from the other. The laws stand in specs/; there is nothing to run.
#![tactic(auto)]
