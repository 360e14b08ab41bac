// Theorems only: what the array of three-state cells promises, in the words of demands 1 and 2 and of document 02, request a.
#![tactic(auto)]
