// A good model, written, is read and says the same. The laws stand in specs/; there is nothing to run.
#![tactic(auto)]
