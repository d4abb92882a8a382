//! The progress of a replacement.
ghost use Rattle.std.specs.Prelude.{◌≡◌, [], drop, if◌then◌else◌};
ghost use Rattle.atomic_replace.specs.Order.{all_calls, next_of};

use std::marker::Model;
use tree_face::Call;

/// The remaining calls of a replacement. It holds no bytes.
#[derive(Drop)]
pub struct Progress {
    next: Option<Call>,
}

impl Model for Progress {
    ghost use Rattle.std.specs.Prelude.{List};
    ghost use Rattle.atomic_replace.specs.Order.{calls_from};
    ghost use Rattle.tree_face.specs.declared.disk.Call.{Call};

    ghost Value = { List Call };

    ghost view = { λ s. calls_from s.next };
}

impl Progress {
    /// The progress before the first call.
    pub fn new() -> Progress
        ensures { result ≡ all_calls }
    {
        Progress {
            next: Some(Call::Create),
        }
    }

    /// The next call; None after the last call or after a failed one.
    pub fn next(&self) -> Option<Call>
        ensures { result ≡ next_of self.now }
    {
        self.next
    }

    /// Records that the next call succeeded, or failed if `ok` is false. After a failure no call is left.
    pub fn advance(&mut self, ok: bool)
        ensures { self.new ≡ (if ok then drop 1 self.old else []) }
    {
        self.next = match self.next {
            Some(Call::Create) if ok => Some(Call::Append),
            Some(Call::Append) if ok => Some(Call::Sync),
            Some(Call::Sync) if ok => Some(Call::Publish),
            Some(Call::Publish) if ok => Some(Call::Settle),
            _ => None,
        };
    }
}
