//! Comparing nodes and names.
use lib_types::Texts;
use tree_face::Node;

fn is_same(a: &Node, b: &Node) -> bool {
    match (a, b) {
        (Node::Dir, Node::Dir) => true,
        (Node::Link { target }, Node::Link { target: other }) => target == other,
        (
            Node::File { key, id },
            Node::File {
                key: other,
                id: its,
            },
        ) => key == other && id == its,
        _ => false,
    }
}

/// Whether both are the same node, or both are nothing.
pub(crate) fn are_same_nodes(a: &Option<Node>, b: &Option<Node>) -> bool {
    match (a, b) {
        (Some(a), Some(b)) => is_same(a, b),
        (None, None) => true,
        _ => false,
    }
}

/// Whether both are the same names in the same order.
pub(crate) fn are_same_names(a: &Texts, b: &Texts) -> bool {
    a.as_slice() == b.as_slice()
}
