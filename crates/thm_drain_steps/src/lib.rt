#![tactic(auto)]
// Definitions and a theorem alone: handing on all messages at hand in one call is a list of steps.
