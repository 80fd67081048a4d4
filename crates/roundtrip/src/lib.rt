#![tactic(auto)]

// Demand 2 of document 01 as theorems about the definitions that reader's and writer's contracts cite: no code.
