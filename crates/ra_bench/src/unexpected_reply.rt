//! The replies that no honest replica receives.
ghost use Rattle.std.specs.Prelude.{◌≡◌, IfOk, IfErr, Some, None};
ghost use Rattle.ra_bench.specs.Faults.{label_of};

use ra_labels::Reply;

/// A reply that no honest replica receives: neither `Ok` nor `Got`.
#[derive(Clone, Copy)]
pub struct UnexpectedReply {
    reply: Reply,
    ghost unwanted: { label_of reply ≡ None },
}

impl UnexpectedReply {
    /// Returns the reply.
    pub fn reply(self) -> Reply
        ensures same { result ≡ self.reply }
        ensures unwanted { label_of result ≡ None }
    {
        self.reply
    }
}

/// Returns the label of the reply, or the reply as an error if it is one that no honest replica receives.
pub fn label_in(reply: Reply) -> Result<u32, UnexpectedReply>
    ensures ok { IfOk result (λ label. label_of reply ≡ Some label) }
    ensures err { IfErr result (λ unwanted. unwanted.reply ≡ reply) }
{
    match reply {
        Reply::Ok(label) | Reply::Got(label) => Ok(label),
        reply => Err(UnexpectedReply { reply }),
    }
}
