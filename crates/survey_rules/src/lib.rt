// What a survey answers.
#![tactic(auto)]

// How many loops there are, and how many vertices their rings have in all.
#[derive(Clone, Copy)]
pub struct Surveyed {
    pub loops: usize,
    pub vertices: usize,
}
