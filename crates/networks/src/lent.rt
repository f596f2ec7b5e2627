// The lengths of the memory that a call was lent; no dates where it has no use for them.

#[derive(Clone, Copy, Debug, PartialEq, Eq)]
pub struct Lent {
    pub matrix: usize,
    pub cycle: usize,
    pub dates: Option<usize>,
}
