// Theorems alone: over built tables the bitmap machine reads as the whole-byte machine does.
#![tactic(auto)]
