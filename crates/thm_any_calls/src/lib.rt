#![tactic(auto)]
// Definitions and theorems alone: what a list of calls hands on, and the plain reading of the server's bytes.
