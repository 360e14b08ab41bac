// Theorems only, of the entry points for other languages: what each returns, tells and leaves, that it takes any input, and that its contract
// settles the outcome. They stand on the promises of the calls themselves.
#![tactic(auto)]
