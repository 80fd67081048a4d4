#![tactic(auto)]

// Demand 3 of document 01: the ledger and the theorem about any list of events. Definitions and theorems, no code.
