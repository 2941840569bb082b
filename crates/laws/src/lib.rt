// Laws of the definitions that more than one crate cites: tests for equality, kinds, fields by themselves, first rows, orders of objects, numbers by
// first need, runs of nulls, ids of records and rows, answers, classes of rows. They stand in specs/; there is nothing to run.
#![tactic(auto)]
