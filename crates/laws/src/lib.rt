// Definitions and laws on bits, numbers of bits and lists that the other crates cite. No code.
#![tactic(auto)]
