/// Why bytes are no block of a kind: the first field in order of offset that isn't as said.
#[derive(Clone, Copy, Debug, PartialEq, Eq)]
pub struct Shape {
    /// What had to stand there: a fixed word, the bound that a number passes, or 0.
    pub want: u64,
    /// What stands there.
    pub found: u64,
}
