//! Makes links in order, and then flushes their directories with fsync.
ghost use Rattle.std.specs.Prelude.{◌≡◌, ◌<◌, Some, IfErr, OnOk, drop, length, slice_get, true};
ghost use Rattle.root_links.specs.Links.{MakesAll, MakesPart, are_valid, dirs_in, dirs_of, link_of, links_in};
ghost use Rattle.root_links.specs.Steps.{FailsToLink, FailsToSettle, LinksFirst, SettlesAll, is_last_of};

use crate::fault::LinkFault;
use path_walk::parted;
use root_folder::Folder;
use tree_face::Tag;

/// A link that is to be made: its path and its target.
#[derive(Clone, Copy)]
pub struct NewLink<'a> {
    pub path: &'a [u8],
    pub target: &'a [u8],
}

fn link_at<'a>(links: &[NewLink<'a>], i: usize) -> NewLink<'a>
    requires { i < length links.now }
    ensures { slice_get (links_in links.now) i ≡ Some (link_of result) }
{
    links[i]
}

// Makes the links in order.
#[tactic(auto, using(crate::proofs::Lists::valid_at))]
fn link_all<F: Folder>(folder: &mut F, tag: Tag, links: &[NewLink<'_>]) -> Result<(), LinkFault>
    requires valid { are_valid (links_in links.now) ≡ true }
    ensures done { OnOk result (LinksFirst tag (links_in links.now) (length links.now) (F.state folder.old) (F.state folder.new)) }
    ensures failed { IfErr result (λ fault. FailsToLink tag (links_in links.now) fault (F.state folder.old) (F.state folder.new)) }
{
    for number in 0..links.len() {
        let link = link_at(links, number);
        if folder.link(tag, link.path, link.target).is_err() {
            return Err(LinkFault::Link { number });
        }
    }
    Ok(())
}

// The directory of a link.
#[tactic(auto, using(crate::proofs::Lists::dir_of_link))]
fn dir_at<'a>(links: &[NewLink<'a>], i: usize) -> &'a [u8]
    requires { i < length links.now }
    ensures { slice_get (dirs_in (links_in links.now)) i ≡ Some result.now }
{
    let link = link_at(links, i);
    parted(link.path).0
}

// Whether the next link isn't in the same directory.
#[tactic(auto, using(crate::proofs::Lists::last_dir, crate::proofs::Lists::end_dir))]
fn is_last_in(links: &[NewLink<'_>], i: usize) -> bool
    requires { i < length links.now }
    ensures { result ≡ is_last_of (drop i (dirs_in (links_in links.now))) }
{
    let dir = dir_at(links, i);
    if i + 1 == links.len() {
        return true;
    }
    dir_at(links, i + 1) != dir
}

// Flushes the directories of the links with fsync. Consecutive links in the same directory need one fsync.
fn settle_all<F: Folder>(folder: &mut F, links: &[NewLink<'_>]) -> Result<(), LinkFault>
    ensures done { OnOk result (SettlesAll (dirs_of (links_in links.now)) (F.state folder.old) (F.state folder.new)) }
    ensures failed { IfErr result (λ fault. FailsToSettle (links_in links.now) fault (F.state folder.old) (F.state folder.new)) }
{
    for number in 0..links.len() {
        let dir = dir_at(links, number);
        if is_last_in(links, number) {
            if folder.settle(dir).is_err() {
                return Err(LinkFault::Settle { number });
            }
        }
    }
    Ok(())
}

/// Makes these links in order, and then flushes their directories with fsync. Consecutive links in the same directory need
/// one fsync. Allocates no memory. At each moment, a crash leaves at the path of each link the old node or the link, and
/// doesn't affect other paths. After Ok the links are durable.
pub fn make_links<F: Folder>(
    folder: &mut F,
    tag: Tag,
    links: &[NewLink<'_>],
) -> Result<(), LinkFault>
    requires valid { are_valid (links_in links.now) ≡ true }
    ensures done { OnOk result (MakesAll tag (links_in links.now) (F.state folder.old) (F.state folder.new)) }
    ensures failed { IfErr result (λ fault. MakesPart tag (links_in links.now) fault (F.state folder.old) (F.state folder.new)) }
{
    link_all(folder, tag, links)?;
    settle_all(folder, links)
}
