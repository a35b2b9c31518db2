/// What the check of a code answers.
#[derive(Clone, Copy, Debug)]
pub enum Verdict {
    /// Without any two clouds the rows of all others are independent.
    Mds,
    /// Without the clouds `a` and `b`, where `a` is below `b`, the rows of all others are dependent, and this is the least
    /// such pair, by `a` and then by `b`. The kernel is a vector, not all 0, that each of these rows sends to 0.
    Fails { a: u8, b: u8, kernel: [u8; 16] },
}
