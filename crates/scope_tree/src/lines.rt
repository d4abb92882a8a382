//! The lines of a tree, from top to bottom.
ghost use Rattle.std.specs.Prelude.{◌≡◌, ◌∷◌, [], drop, map, IfOk, OnOk};
ghost use Rattle.std.specs.Option.{MatchOption};
ghost use Rattle.scope_tree.specs.Rows.{below, deeper, group_at, groups_of, subtree, tree_rows};
ghost use Rattle.scope_tree.specs.Stack.{IsFirst, Puts, frame_asked, group_now, groups_now, row_of};

use ldd_resolve::{Member, Reply, Scope};
use lib_types::{NoMemory, Text};
use std::alloc::Global;

// The deepest level. Lines below it are indented as the lines at it.
const DEPTH_MAX: usize = 64;

/// A needed name, the reply to it, and the level of its line.
#[derive(Clone, Copy)]
pub(crate) struct Line<'a> {
    pub depth: usize,
    pub name: &'a [u8],
    pub reply: Reply,
}

// Needed names, and the replies to them with those that follow.
#[derive(Clone, Copy)]
struct Names<'a> {
    names: &'a [Text],
    replies: &'a [Reply],
}

// The requests of an object that remain, and how many levels may be below them.
#[derive(Clone, Copy)]
struct Frame<'a> {
    levels: usize,
    depth: usize,
    group: Names<'a>,
}

// The replies after the first `count`.
fn after<'a>(replies: &'a [Reply], count: usize) -> &'a [Reply]
    ensures { result.now ≡ drop count replies.entry.now }
{
    match replies.get(count..) {
        Some(rest) => rest,
        None => &[],
    }
}

// The requests of each member.
fn groups_of<'a>(
    alloc: Global,
    members: &'a [Member],
    replies: &'a [Reply],
) -> Result<Vec<Names<'a>>, NoMemory>
    ensures { IfOk result (λ groups. groups_now groups.items ≡ groups_of members.entry.now replies.entry.now) }
{
    let mut groups = Vec::new(alloc);
    let mut rest = replies;
    for member in members {
        let names = member.needed.as_slice();
        groups.push(Names {
            names,
            replies: rest,
        })?;
        rest = after(rest, names.len());
    }
    Ok(groups)
}

// The requests of the member with this index.
fn group_at<'a>(groups: &[Names<'a>], index: usize) -> Names<'a>
    ensures { group_now result ≡ group_at (groups_now groups.now) index }
{
    match groups.get(index) {
        Some(group) => *group,
        None => Names {
            names: &[],
            replies: &[],
        },
    }
}

fn deeper(depth: usize) -> usize
    ensures { result ≡ deeper depth }
{
    if depth < DEPTH_MAX { depth + 1 } else { depth }
}

fn first_name<'a>(names: &'a [Text]) -> Option<(&'a Text, &'a [Text])>
    ensures { MatchOption result (names.entry.now ≡ []) (λ r. names.entry.now ≡ r.0.now ∷ r.1.now) }
{
    names.split_first()
}

fn first_reply<'a>(replies: &'a [Reply]) -> Option<(&'a Reply, &'a [Reply])>
    ensures { MatchOption result (replies.entry.now ≡ []) (λ r. replies.entry.now ≡ r.0.now ∷ r.1.now) }
{
    replies.split_first()
}

impl<'a> Frame<'a> {
    // The first line, and the requests after it.
    fn split_first(self) -> Option<(Line<'a>, Frame<'a>)>
        ensures { MatchOption result (frame_asked self.entry ≡ []) (λ r. IsFirst self.entry r.0 r.1) }
    {
        let (name, names) = first_name(self.group.names)?;
        let (reply, replies) = first_reply(self.group.replies)?;
        let line = Line {
            depth: self.depth,
            name: name.as_bytes(),
            reply: *reply,
        };
        let group = Names { names, replies };
        Some((line, Frame { group, ..self }))
    }
}

// Puts the requests of a member on the stack, if there may be more levels.
fn put_group<'a>(
    stack: &mut Vec<Frame<'a>>,
    groups: &[Names<'a>],
    levels: usize,
    depth: usize,
    index: usize,
) -> Result<(), NoMemory>
    ensures { OnOk result (Puts (groups_now groups.now) (subtree (groups_now groups.now) levels depth index) stack.old.items stack.new.items) }
{
    if levels > 0 {
        let group = group_at(groups, index);
        let levels = levels - 1;
        stack.push(Frame {
            levels,
            depth,
            group,
        })?;
    }
    Ok(())
}

// Puts the requests of the member that was loaded on the stack.
fn put_below<'a>(
    stack: &mut Vec<Frame<'a>>,
    groups: &[Names<'a>],
    levels: usize,
    depth: usize,
    reply: Reply,
) -> Result<(), NoMemory>
    ensures { OnOk result (Puts (groups_now groups.now) (below (λ j. subtree (groups_now groups.now) levels depth j) reply) stack.old.items stack.new.items) }
{
    match reply {
        Reply::Loads { number, .. } => put_group(stack, groups, levels, depth, number),
        Reply::Known | Reply::Missing => Ok(()),
    }
}

/// The lines below the program.
pub(crate) fn lines_of<'a>(alloc: Global, scope: &'a Scope) -> Result<Vec<Line<'a>>, NoMemory>
    ensures { IfOk result (λ lines. map row_of lines.items ≡ tree_rows scope.entry.now.members scope.entry.now.replies) }
{
    let groups = groups_of(alloc, scope.members.as_slice(), scope.replies.as_slice())?;
    let mut lines = Vec::new(alloc);
    let mut stack = Vec::new(alloc);
    put_group(&mut stack, &groups, scope.members.len(), 1, 0)?;
    while let Some(frame) = stack.pop() {
        if let Some((line, rest)) = frame.split_first() {
            lines.push(line)?;
            stack.push(rest)?;
            put_below(
                &mut stack,
                &groups,
                frame.levels,
                deeper(frame.depth),
                line.reply,
            )?;
        }
    }
    Ok(lines)
}
