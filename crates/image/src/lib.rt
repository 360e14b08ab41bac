// The image: a machine and its held job as bytes, written and read back.
// Document 01: 'The image', and numbers 9 and 10; document 02, request d: 20 to 25 of the job that is written.
#![tactic(auto)]

pub mod reading;
pub mod writing;

use job_plans::Job;

// What reading answers: the machine's width, how many words it has, and the held job.
#[derive(Clone, Copy)]
pub struct Loaded {
    pub width: u32,
    pub words: usize,
    pub held: Option<Job>,
}
