// Words and laws on lists, numbers and truth values that more than one crate cites. No code.

#![tactic(auto)]
