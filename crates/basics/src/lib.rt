// The laws of document 01's small common definitions that more than one crate leans on: tests, lists, sets of numbers, answers.
// It has no code. The laws stand in specs/, each file one idea; specs/Lib.antt lists them.

#![tactic(auto)]
