#![tactic(auto)]
// How deep calls go, in a profile of functions that call each other: the meaning and its laws.

// Why there is no longest chain of calls: the smallest index of a function that is reached and reaches
// itself.
#[derive(Clone, Copy, PartialEq, Eq, Debug)]
pub struct Recursive {
    pub index: u32,
}
