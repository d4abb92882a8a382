//! The entries of a tree from a place on.
ghost use Rattle.std.specs.Prelude.{◌≡◌, ◌∷◌, [], ◌<◌, ◌≤◌, ◌+◌, IfSome, MatchOption, true, length, drop, slice_index_or};
ghost use Rattle.image_tree.specs.Runs.{joined, index_of, are_runs, run_length, IsPlace};
ghost use Rattle.image_tree.specs.After.{EndsWith};

use super::row::{PathEntry, Rows};
use super::run::Run;
use super::runs::{Place, run_of};
use std::marker::Model;

/// The entries from a place on, borrowed from the runs of a tree.
#[derive(Drop)]
pub(super) struct Rest<'a> {
    // the rest of the first run
    first: Rows<'a>,
    // the runs after it
    others: &'a [Run],
}

impl<'a> Model for Rest<'a> {
    ghost use Rattle.std.specs.Prelude.{◌≡◌, ◌++◌, true};
    ghost use Rattle.image_tree.specs.Runs.{joined, are_runs};
    ghost use Rattle.image_tree.specs.Tree.{Nodes};

    ghost Value = { Nodes };

    ghost view = { λ s. s.first ++ joined s.others.now };

    ghost invariant = { λ s. are_runs s.others.now ≡ true };
}

impl<'a> Rest<'a> {
    /// No entries.
    pub(super) fn none() -> Rest<'a>
        ensures { result ≡ [] }
    {
        Rest {
            first: Rows::none(),
            others: &[],
        }
    }

    /// All entries.
    pub(super) fn all(runs: &'a Vec<Run>) -> Rest<'a>
        requires { are_runs runs.now.items ≡ true }
        ensures { result ≡ joined runs.now.items }
    {
        Rest {
            first: Rows::none(),
            others: runs.as_slice(),
        }
    }

    /// The entries from the place on.
    pub(super) fn from(runs: &'a Vec<Run>, place: Place) -> Rest<'a>
        requires runs { are_runs runs.now.items ≡ true }
        requires place { IsPlace runs.now.items place }
        ensures { result ≡ drop (index_of runs.now.items place) (joined runs.now.items) }
    {
        if place.run == runs.len() {
            return Rest::none();
        }
        Rest {
            first: rest_of_run(runs, place),
            others: runs_after(runs, place.run),
        }
    }

    /// The first entry and the entries after it.
    pub(super) fn split_first(&self) -> Option<(PathEntry<'a>, Rest<'a>)>
        ensures { MatchOption result (self.now ≡ []) (λ r. self.now ≡ (r.0.path.now, r.0.node.now) ∷ r.1) }
    {
        if let Some((entry, first)) = self.first.split_first() {
            let others = self.others;
            return Some((entry, Rest { first, others }));
        }
        let (run, others) = self.others.split_first()?;
        let (entry, first) = run.rows().split_first()?;
        Some((entry, Rest { first, others }))
    }

    /// The first entry of the next run, and the entries from that one on. `None` if the rest of the first run is empty or no run follows.
    pub(super) fn next_run(&self) -> Option<(PathEntry<'a>, Rest<'a>)>
        ensures last { IfSome result (λ r. EndsWith self.now (r.0.path.now, r.0.node.now) r.1) }
        ensures fewer { IfSome result (λ r. length r.1 < length self.now) }
    {
        if self.first.is_empty() {
            return None;
        }
        let (run, others) = self.others.split_first()?;
        let first = run.rows();
        let (entry, _) = first.split_first()?;
        Some((entry, Rest { first, others }))
    }
}

// The entries of the place's run from the place on.
fn rest_of_run(runs: &Vec<Run>, place: Place) -> Rows<'_>
    requires run { place.run < length runs.now.items }
    requires at { place.at ≤ run_length runs.now.items place.run }
    ensures { result ≡ drop place.at (slice_index_or runs.now.items place.run []) }
{
    run_of(runs, place.run).rows().from(place.at)
}

// The runs after this one.
fn runs_after(runs: &Vec<Run>, run: usize) -> &[Run]
    requires { run < length runs.now.items }
    ensures { result.now ≡ drop (run + 1) runs.now.items }
{
    &runs[run + 1..]
}
