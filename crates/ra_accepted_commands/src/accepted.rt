//! Whether a reply shows that its command was accepted.
ghost use Rattle.std.specs.Prelude.{◌≡◌};
ghost use Rattle.ra_accepted_commands.specs.Accepted as accepted;

use ra_labels::Reply;

/// Returns `true` if the reply shows that its command was accepted. `failed` is whether a `No` came before it: the
/// command of the first `No` is accepted, and no later one is.
pub fn is_accepting_reply(failed: bool, reply: Reply) -> bool
    // The result is `true` exactly if a command with this reply is accepted: `Ok`, `Got` or `Joined`, or the first
    // `No`.
    ensures { result ≡ accepted.is_accepting_reply failed reply }
{
    match reply {
        Reply::Ok(_) | Reply::Got(_) | Reply::Joined(_) => true,
        Reply::Yes(_) | Reply::Refused(_) => false,
        Reply::No { .. } => !failed,
    }
}

/// Returns `true` if the reply is `No`.
pub fn is_no(reply: Reply) -> bool
    // The result is `true` exactly if the reply is `No`.
    ensures { result ≡ accepted.is_no reply }
{
    match reply {
        Reply::No { .. } => true,
        Reply::Ok(_) | Reply::Got(_) | Reply::Joined(_) | Reply::Yes(_) | Reply::Refused(_) =>
            false,
    }
}
