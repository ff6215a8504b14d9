//! How a reader that reads ahead stands.

/// How it stands.
#[derive(Clone, Copy, Drop)]
pub(crate) enum Stands {
    /// More may come.
    Reads,
    /// The end came.
    AtEnd,
    /// A fault came.
    Failed,
}
