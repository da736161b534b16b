#![tactic(auto)]
// Theorems alone: what one call does to a run. A step, for every run value and whatever it is lent; opening, already open and a report.
