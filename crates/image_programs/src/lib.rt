//! The programs and libraries of an image: its files with a dynamic section.
#![tactic(auto)]

mod programs;

pub use programs::image_programs;
