// The reader of patterns is exactly the grammar: what `parse` takes, what it refuses and where. It has no code.
// It stands on the crate document; the theorems stand in specs/Parsing.antt, and specs/Lib.antt lists the files below them.

#![tactic(auto)]
