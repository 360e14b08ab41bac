// The library for programs in other languages: each entry point that include/dushvaneth.h tells callers of, under the name that C calls. It
// only calls the entry point of the same name in the crate where that is proved, and states its clauses again: a static library exports the
// functions of one crate.
#![tactic(auto)]

pub mod for_array;
pub mod for_images;
pub mod for_jobs;
pub mod for_pulses;
pub mod for_rounds;
