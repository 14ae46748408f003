// What a step of a transfer is about.
ghost use Rattle.std.specs.Prelude.{◌≡◌};
ghost use Rattle.pool_table.specs.Transfers.{about_of};

use crate::about::About;
use pool_machine::Call;
use word_layout::Wish;

/// What a step of a transfer is about: the call that is given, or else a transfer alone. One at rest begins with this
/// wish there.
pub fn about_of(call: Option<Call>, wish: Wish) -> About
    ensures { result ≡ about_of call wish }
{
    match call {
        Some(call) => About::InCall { call },
        None => About::Alone { wish },
    }
}
