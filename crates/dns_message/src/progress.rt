//! Where a walk over records is.

/// Where a walk over the records of a message is: what a caller keeps that cannot keep a [`Records`](crate::Records),
/// such as one in C. [`Records::progress`](crate::Records::progress) returns it, and
/// [`MessageRef::resume`](crate::MessageRef::resume) goes on with the walk. A copy is cheap.
#[derive(Clone, Copy, Debug, PartialEq, Eq)]
pub struct Progress {
    /// The offset in the message where the next record starts.
    pub offset: usize,
    /// How many records of the message precede the next one.
    pub passed: usize,
    /// The walk ends when so many records are passed.
    pub until: usize,
    /// One more than the steps that may still be taken. If it is 0, no further record is returned.
    /// The error [`Limit`](crate::Fault::Limit) leaves it unchanged, and sets `until` to `passed`.
    pub left: usize,
}
