// That the promise of each call of the face leaves a single answer, and a single content of every lent number and byte, for
// every input (document 01, "What the promises say"). It has no code: its statements speak of the calls' own contracts.

#![tactic(auto)]
