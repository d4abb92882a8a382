//! The best candidate that a search has seen so far.
ghost use Rattle.std.specs.Prelude.{◌≡◌, option_map};
ghost use Rattle.cache_lookup.specs.Searches.{better};

/// A candidate: its index and its rank.
#[derive(Clone, Copy)]
pub(crate) struct Choice {
    pub index: usize,
    pub rank: usize,
}

/// The better of a choice and a later entry. The lower rank is better. If the ranks are equal, the first entry is better.
pub(crate) fn better(best: Option<Choice>, index: usize, rank: Option<usize>) -> Option<Choice>
    ensures { result ≡ better best index rank }
{
    let Some(rank) = rank else {
        return best;
    };
    match best {
        Some(choice) if choice.rank <= rank => best,
        _ => Some(Choice { index, rank }),
    }
}

/// The index of a choice.
pub(crate) fn index_of(choice: Option<Choice>) -> Option<usize>
    ensures { result ≡ option_map (λ c. c.index) choice }
{
    match choice {
        Some(choice) => Some(choice.index),
        None => None,
    }
}
