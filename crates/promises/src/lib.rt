// Theorems only: what the library promises, in the words of the three demands and of document 01.
#![tactic(auto)]
