// Laws alone: the texts that the format's definition takes for a Decimal are those of which the rules say so. They stand in specs/; there is nothing to run.
#![tactic(auto)]
