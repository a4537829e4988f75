// What the rows of a log come to in a run and in the program: laws of runs that follow one another, of the history that a
// run's rows bring, and of printing a log part by part. It has no code; specs/Lib.antt lists the laws.

#![tactic(auto)]
