//! A read that is reported falsely.
ghost use Rattle.std.specs.Prelude.{◌≡◌, IfOk};
ghost use Rattle.ra_bench.specs.Lies.{falsified_list, IsFalsified};

use ra_labels::{Elements, ListOp, NoMemory, Op};

/// One read of a run that is reported falsely. A counter's is one too high, that of a register or of any type is
/// 4,294,967,295, and a list has 4,294,967,295 at its end. If the replica does not read in that round, all reports are
/// true.
#[derive(Clone, Copy, Debug, PartialEq, Eq)]
pub struct Lie {
    /// The replica whose read it is.
    pub replica: u8,
    /// The round of the read, from 0.
    pub round: u32,
}

/// Returns the falsified read. Other operations are unchanged.
pub fn falsified(read: Op) -> Result<Op, NoMemory>
    ensures { IfOk result (IsFalsified read) }
{
    Ok(match read {
        Op::Count(value) => Op::Count(value.saturating_add(1)),
        Op::Last(_) => Op::Last(Some(u32::MAX)),
        Op::LwwRead(list) => Op::LwwRead(with_extra_element(list)?),
        Op::OrRead(list) => Op::OrRead(with_extra_element(list)?),
        Op::RgaRead(list) => Op::RgaRead(with_extra_element(list)?),
        Op::List(ListOp::Read(list)) => Op::List(ListOp::Read(with_extra_element(list)?)),
        Op::AnyRead(_) => Op::AnyRead(u32::MAX),
        Op::MvRead(list) => Op::MvRead(with_extra_element(list)?),
        update => update,
    })
}

// Returns the list with an element that no replica adds.
fn with_extra_element(list: Elements) -> Result<Elements, NoMemory>
    ensures { IfOk result (λ longer. longer ≡ falsified_list list) }
{
    let mut items = list.into_vec();
    items.push(u32::MAX)?;
    Ok(Elements::new(items))
}
