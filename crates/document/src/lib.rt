// Document 01 as definitions: what a reader of the promises must believe. It has no code.
// The definitions stand in specs/, a file for each section of the document; specs/Lib.antt lists them.

#![tactic(auto)]
