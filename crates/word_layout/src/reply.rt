// What a transfer is answered.
ghost use Rattle.std.specs.Prelude.{◌≡◌, ◌<◌, ◌↔◌, IsTrue};

use crate::shape::Shape;

/// How the last applied transfer of a process was answered.
#[derive(Clone, Copy, Debug, PartialEq, Eq, Hash)]
pub enum Reply {
    /// A take found no batch, or no transfer was applied yet.
    Nothing,
    /// A take got the batch with this head.
    Took(u32),
    /// A give was applied.
    Gave,
}

impl Reply {
    ghost use Rattle.word_layout.specs.Packing.{value_limit, reply_value, reply_of, FitsReply, is_odd_reply};

    /// What an odd number adds to the value of a reply.
    const PARITY: u32 = 1 << 23;

    /// The code of a give: one more than that of the last head.
    const GAVE: u32 = Shape::MOST_BLOCKS + 1;

    /// Whether the reply's head is a block of some pool.
    pub fn fits(&self) -> bool
        ensures { IsTrue result ↔ FitsReply self.now }
    {
        match self {
            Reply::Took(head) => *head < Shape::MOST_BLOCKS,
            Reply::Nothing | Reply::Gave => true,
        }
    }

    /// The value of a reply. `odd` says whether the number of the transfer is odd, so that a helper sees
    /// whether an announcement was applied already.
    #[tactic(auto, unfolding(crate::specs::Packing::reply_value))]
    pub fn pack(&self, odd: bool) -> u32
        requires { FitsReply self.now }
        ensures value { result ≡ reply_value odd self.now }
        ensures small { result < value_limit }
    {
        let code = match self {
            Reply::Nothing => 0,
            Reply::Took(head) => head + 1,
            Reply::Gave => Reply::GAVE,
        };
        if odd { Reply::PARITY + code } else { code }
    }

    /// Whether the number of the answered transfer is odd, and the reply.
    #[tactic(auto, unfolding(crate::specs::Packing::reply_of, crate::specs::Packing::is_odd_reply))]
    pub fn read(value: u32) -> (bool, Reply)
        ensures odd { result.0 ≡ is_odd_reply value }
        ensures reply { result.1 ≡ reply_of value }
    {
        let code = value % Reply::PARITY;
        let reply = if code == 0 {
            Reply::Nothing
        } else if code == Reply::GAVE {
            Reply::Gave
        } else {
            Reply::Took(code - 1)
        };
        (value / Reply::PARITY % 2 == 1, reply)
    }
}
