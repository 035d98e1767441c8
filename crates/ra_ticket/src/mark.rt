//! The word `mark`: the number of calls in a log and the number of its fault, in one word.
ghost use Rattle.std.specs.Prelude.{◌≡◌, ◌<◌, ℕ, Option, IfSome};
ghost use Rattle.ra_ticket.specs.Mark.{mark_of, IsNumbered};

/// A mark is the number of calls times this factor, plus one more than the number of the fault if there is one.
const MARKS: u64 = 4_294_967_296;

/// Returns the mark of this many calls and this fault, whose number is smaller.
pub(crate) fn pack(calls: u32, fault: Option<u32>) -> u64
    requires { IfSome fault (λ f. f < calls) }
    ensures { result ≡ mark_of calls fault }
{
    let part = match fault {
        None => 0,
        Some(number) => u64::from(number) + 1,
    };
    u64::from(calls) * MARKS + part
}

/// Returns the number of calls and the fault of a mark.
pub(crate) fn read(mark: u64) -> (u32, Option<u32>)
    ensures whole { mark ≡ mark_of result.0 result.1 }
    ensures packed { (calls : ℕ) (fault : Option ℕ) → IsNumbered fault → mark ≡ mark_of calls fault
        → (result.0 ≡ calls) × (result.1 ≡ fault) }
{
    let calls = (mark / MARKS) as u32;
    let part = (mark % MARKS) as u32;
    let fault = if part == 0 { None } else { Some(part - 1) };
    (calls, fault)
}
