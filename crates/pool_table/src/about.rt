//! What a step belongs to, a transfer alone or a call.

use pool_machine::Call;
use word_layout::Wish;

/// What a step is about: a process at rest begins that before it. In the middle of a transfer the wish isn't looked
/// at, nor the call in the middle of a call.
#[derive(Clone, Copy, Debug, PartialEq, Eq, Hash)]
pub enum About {
    /// A transfer alone, outside any call, with this wish.
    Alone { wish: Wish },
    /// This call.
    InCall { call: Call },
}
