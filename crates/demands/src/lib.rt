// The demands as theorems about the definitions that the promises cite. They stand in specs/; there is nothing to run.
#![tactic(auto)]
