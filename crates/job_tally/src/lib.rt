// The number of pulses a job takes, told while it stands at its first place: the call total.
// Document 01, 'Jobs': "Pulses: an extreme takes 1+a plus ..".
#![tactic(auto)]

pub mod totals;
