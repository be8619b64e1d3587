// What is proved of whole images, over the definitions that the public calls cite: theorems alone, no code.
#![tactic(auto)]
