#![tactic(auto)]
// Definitions and a theorem alone: a step sees only the front of the payload buffer that the run holds.
