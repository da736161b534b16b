#![tactic(auto)]
// No code: theorems on what the words of a host mean. See specs/.
