//! Expected results.
use crate::host::copy_of;
use crate::step::Answer;
use lib_types::Texts;
use std::io;
use tree_face::Node;

/// These names.
pub fn names_of(rt: &HostRuntime, names: &[&str]) -> io::Result<Answer> {
    let mut texts = Vec::new(rt.alloc());
    for name in names {
        texts.push(copy_of(rt, name.as_bytes())?)?;
    }
    Ok(Answer::Names(Texts::from_vec(texts)))
}

/// A link with this target.
pub fn node_of_link(rt: &HostRuntime, target: &str) -> io::Result<Answer> {
    let target = copy_of(rt, target.as_bytes())?;
    Ok(Answer::Node(Some(Node::Link { target })))
}
