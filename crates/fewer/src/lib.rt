// The tidy copy has no more records than the list has rows. The laws stand in specs/; there is nothing to run.
#![tactic(auto)]
