/// Where the block of an `allocate` comes from.
#[derive(Clone, Copy, Debug, PartialEq, Eq, Hash)]
pub enum Source {
    /// From the current list.
    Current,
    /// From the newest spare, which becomes the current list.
    Spare,
    /// From nowhere: the current list is empty and there is no spare.
    Nothing,
}

/// Where the block of a `free` goes.
#[derive(Clone, Copy, Debug, PartialEq, Eq, Hash)]
pub enum Target {
    /// To the head of the current list.
    Current,
    /// To a fresh current list of its own: the full one becomes the newest spare.
    Fresh,
}
