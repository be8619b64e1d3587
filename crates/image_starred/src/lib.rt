// Document 01's starred cases, proved: definitions and one theorem, no code.
#![tactic(auto)]
