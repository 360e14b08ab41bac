// Theorems only: what a host comes to over many calls, with stops in between. Document 01: 'Jobs', 'The hand-out round', 'The image'.
#![tactic(auto)]
