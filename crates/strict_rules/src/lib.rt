// What the strict check is, and what corrupted slots leave as it was (document 01, "Components and the two walks"; the order, demand 3): definitions and
// theorems alone. The crate `strict_check` carries it out.
#![tactic(auto)]
