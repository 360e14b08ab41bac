// Theorems only: how a job ends, and after how many pulses. Document 01: 'Jobs', "Ends" and "Pulses".
#![tactic(auto)]
