#![tactic(auto)]
// Theorems alone: the proved cases of SCOPE 11.1, in specs/ProvedTable.antt.
