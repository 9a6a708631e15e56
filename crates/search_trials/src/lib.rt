// Trials: the tree that one set of exceptions leads to, by what the base loses to it, and the better of two.
#![tactic(auto)]

// What trials stand on: the links of a network, and the base.
pub mod basis;

// A trial and its links as flags, and which of two trials is better.
pub mod best;

// The first of two trees.
pub mod ties;

// The base alone.
pub mod alone;

// What a tree takes of the base beside a set, and sets that need not be tried.
pub mod rest;

// The trial of one exception and of two.
pub mod trials;
