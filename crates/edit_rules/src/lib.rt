// What edits of a region are, and what they promise (document 01, "Edits"): definitions and theorems alone. The crate `edit_write` carries them out.
#![tactic(auto)]
