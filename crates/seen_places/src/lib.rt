//! What is looked up of a directory to find the search directories, the libraries in them and the links that are planned. A part of
//! the directory's tree that agrees with the tree there gives the same.
#![tactic(auto)]
