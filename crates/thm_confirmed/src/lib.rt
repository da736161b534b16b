#![tactic(auto)]
// Definitions and theorems alone: what a status confirms is done.
