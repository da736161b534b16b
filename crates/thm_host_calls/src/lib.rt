#![tactic(auto)]
// Condition 3 for every way to call: lists that mix steps, advances and reports, and lists of exported calls over a run's words.
