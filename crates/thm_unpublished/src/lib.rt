#![tactic(auto)]
// Definitions and theorems alone: what two streams that differ in unpublished texts leave equal.
