#![tactic(auto)]
// Definitions and a theorem alone: a run to which nothing new comes is at rest after a few steps.
