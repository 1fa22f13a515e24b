use crate::jobs::Jobs;
use pq_array::WordList;
use std::collections::LinkedList;

/// What a board was opened with, which no step changes: the jobs, the words of the tree, and how many
/// passes may step at one time.
#[derive(Drop)]
pub struct Plan {
    pub jobs: Jobs,
    pub words: WordList,
    pub passes: u32,
}

/// One step of a lowering: which word was lowered, for which place of which ticket's job.
pub struct Lowering {
    pub ticket: u64,
    pub place: u64,
    pub node: u64,
}

/// What a pass knows: what its board was opened with, how many rights it has, which tickets it drew, in
/// order, and what it lowered, in order. No value of it is made: it is what contracts say of a pass.
pub struct View {
    pub plan: Plan,
    pub rights: u32,
    pub tickets: LinkedList<u64>,
    pub lowered: LinkedList<Lowering>,
}
