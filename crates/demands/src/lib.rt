// The customer's demands 2 and 3, proved of the definitions of document 01. It has no code: what the calls promise, in the
// words of the definitions, is thereby what the customer means.

#![tactic(auto)]
