// What a line means.

/// What a line means, by what lines of its language say.
#[derive(Clone, Copy, Debug, PartialEq, Eq, Hash)]
pub enum Meaning<T> {
    /// Nothing.
    Skipped,
    /// This.
    Says(T),
    /// It is of no form.
    Bad,
}
