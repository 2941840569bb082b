// Laws alone: the bytes that are judged to be a class book are those of some list of good entries, and of one list only. They stand in specs/; there is
// nothing to run.
#![tactic(auto)]
