// Laws that tie what programs for people find at a place, and how many slots they say a row fills, to the format's own definitions. They stand in
// specs/; there is nothing to run.
#![tactic(auto)]
