//! Replies as numbers.

ghost use Rattle.std.specs.Prelude.{◌≡◌, ◌<◌, ◌≤◌, ◌+◌, ◌*◌, ◌^◌};
ghost use Rattle.live_board.specs.Rule as spec;

use scene_model::Reply;

/// How many numbers there are for a reply, 2 ^ 34.
const REPLY_CODES: u64 = 17_179_869_184;

/// The number of a reply, below 2 ^ 34.
pub fn reply_code(reply: Reply) -> u64
    ensures code { result ≡ spec.reply_code reply }
    ensures below { result < 2 ^ 34 }
{
    match reply {
        Reply::Done => 0,
        Reply::NoSuchBus => 1,
        Reply::NoInput => 2,
        Reply::NotAttached => 3,
        Reply::GainTooLarge => 4,
        Reply::NotSound => 5,
        Reply::AlreadyAttached { to } => 6 + 2 * u64::from(to),
        Reply::Cycle { node } => 7 + 2 * u64::from(node),
    }
}

/// What a hand tells that has made so many edits, at most 2 ^ 29, the last of which was answered so.
pub fn told_word(count: u64, last: Reply) -> u64
    requires { count ≤ 2 ^ 29 }
    ensures word { result ≡ count * 17179869184 + spec.reply_code last }
    ensures fits { spec.reply_code last < 17179869184 }
{
    count * REPLY_CODES + reply_code(last)
}
