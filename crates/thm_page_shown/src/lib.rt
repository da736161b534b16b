#![tactic(auto)]
// Definitions and theorems alone: what the service page shows after any list of calls.
