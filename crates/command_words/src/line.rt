//! The command line.
use crate::kinds::Command;
use lib_types::Text;

/// A command, and the directory that it reads.
#[derive(Drop)]
pub struct CommandLine {
    pub command: Command,
    /// `-r`: the directory that is the image. Without it, the image is the working directory.
    pub root: Option<Text>,
}
