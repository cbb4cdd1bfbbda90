// A pair of record numbers, as the pair file lists them.
#[derive(Clone, Copy, PartialEq, Eq, PartialOrd, Ord)]
pub struct Pair {
    pub left: usize,
    pub right: usize,
}
