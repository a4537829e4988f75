// Document 01, "The pattern text" (meaning) and "The table": that the position sets, the states and the property table of
// crate document say what words mean. It has no code.
// The laws stand in specs/, each file one notion, in the order in which they lean on each other; specs/Lib.antt lists them.

#![tactic(auto)]
