// What the rows of an accepted stream say, and that the copy written from them is the tidy copy of it. The laws stand in specs/; there is nothing to run.
#![tactic(auto)]
