// Document 01, 'Jobs': the number of pulses a job takes, passed on from its crate.
pub use job_tally::totals::total;
