//! Grammars over the tokens of a text: definitions and laws, and no code that runs.
#![tactic(auto)]
