// What the rows of a stream that is taken say about the stream. The laws stand in specs/; there is nothing to run.
#![tactic(auto)]
