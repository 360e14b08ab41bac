// The image's parts, looked at one after the other.
// Document 01: 'The image' and number 9.
#![tactic(auto)]

pub mod image_fields;
