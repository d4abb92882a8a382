//! Calls of a directory, and their results.
use crate::host::no_memory;
use crate::nodes::{are_same_names, are_same_nodes};
use lib_types::{Failed, Text, Texts};
use root_folder::{Folder, FolderRead};
use std::alloc::Global;
use std::io::{self, Error, ErrorKind};
use tree_face::{Node, Tag, is_node, is_path};

/// A call.
#[derive(Clone, Copy)]
pub enum Step<'a> {
    Names(&'a [u8]),
    Look(&'a [u8]),
    /// A path and a target.
    Link(&'a [u8], &'a [u8]),
    Settle(&'a [u8]),
}

/// The result of a call.
#[derive(Drop)]
pub enum Answer {
    Names(Texts),
    Node(Option<Node>),
    Done,
    Failed,
    NoMemory,
}

impl<'a> Step<'a> {
    /// Makes the call.
    pub fn make<F: Folder>(self, alloc: Global, folder: &mut F, tag: Tag) -> io::Result<Answer> {
        match self {
            Step::Names(dir) => Ok(of_names(folder.names(alloc, dir))),
            Step::Look(path) => Ok(of_look(folder.look(alloc, path))),
            Step::Link(path, target) => make_link(alloc, folder, tag, path, target),
            Step::Settle(dir) => Ok(of_done(folder.settle(dir))),
        }
    }
}

fn of_names(found: Result<Texts, FolderRead>) -> Answer {
    match found {
        Ok(names) => Answer::Names(names),
        Err(fault) => of_fault(fault),
    }
}

fn of_look(found: Result<Option<Node>, FolderRead>) -> Answer {
    match found {
        Ok(node) => Answer::Node(node),
        Err(fault) => of_fault(fault),
    }
}

fn of_fault(fault: FolderRead) -> Answer {
    match fault {
        FolderRead::Failed => Answer::Failed,
        FolderRead::NoMemory => Answer::NoMemory,
    }
}

fn of_done(done: Result<(), Failed>) -> Answer {
    match done {
        Ok(()) => Answer::Done,
        Err(Failed) => Answer::Failed,
    }
}

fn make_link<F: Folder>(
    alloc: Global,
    folder: &mut F,
    tag: Tag,
    path: &[u8],
    target: &[u8],
) -> io::Result<Answer> {
    let node = Node::Link {
        target: Text::copy_of(alloc, target).map_err(|_| no_memory())?,
    };
    if !is_path(path) || !is_node(&node) {
        return Err(Error::from(ErrorKind::InvalidInput));
    }
    Ok(of_done(folder.link(tag, path, target)))
}

/// Whether both are the same result.
pub fn is_same_answer(a: &Answer, b: &Answer) -> bool {
    match (a, b) {
        (Answer::Names(a), Answer::Names(b)) => are_same_names(a, b),
        (Answer::Node(a), Answer::Node(b)) => are_same_nodes(a, b),
        (Answer::Done, Answer::Done) => true,
        (Answer::Failed, Answer::Failed) => true,
        (Answer::NoMemory, Answer::NoMemory) => true,
        _ => false,
    }
}
