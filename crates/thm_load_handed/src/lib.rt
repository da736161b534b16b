#![tactic(auto)]
// No code: theorems on what a run hands on of a generated stream. See specs/.
