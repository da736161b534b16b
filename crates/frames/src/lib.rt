#![tactic(auto)]
// Definitions and theorems alone: a stream of bytes cut into messages.
