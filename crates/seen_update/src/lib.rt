//! What an update of a directory looks at. A part of the directory's tree that agrees with the tree there gives the same update.
#![tactic(auto)]
