// What format calls well-formed text, and a Char, is UTF-8, proved against Unicode's own words. It stands in specs/; there is nothing to run.
#![tactic(auto)]
