#![tactic(auto)]
// Definitions and theorems alone: what follows the server's CopyDone.
