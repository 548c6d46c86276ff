// Whole recordings: there is nothing to run here. The theorems are about the definitions that the calls of reader and writer cite.
#![tactic(auto)]
