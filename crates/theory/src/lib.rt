#![tactic(auto)]

// The published definitions over plain numbers, in specs/; no code.
