#![tactic(auto)]
// Definitions alone: all messages at hand, handed on in one call.
