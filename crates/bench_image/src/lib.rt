// Bench image A of document 01: see specs/. There is no code.
#![tactic(auto)]
