//! The elements that a view has, and the numbers at which a new one is placed.
ghost use Rattle.std.specs.Prelude.{◌≡◌, ◌<◌, length, Ok, IfOk, MatchResult};
ghost use Rattle.std.specs.Result.{result_err};
ghost use Rattle.ra_list_witness.specs.Causes.{IsHadAs, IsCauseAt, IsCauseOfNeighbor, IsCauseOfInsertion, first_cause};
ghost use Rattle.ra_list_witness.specs.Named.{IsNeighbor, IsPlacement};

use ra_labels::{Cause, Insertion};
use ra_list_edges::Placement;
use ra_list_replica::{ElementNumbers, Mark, ReplicaView};

/// Returns the number of the element if the view has it, shown or removed.
///
/// # Errors
///
/// `Update` if the element was never inserted, `Query` if the view does not have it.
///
/// # Complexity
///
/// O(log n) with `n` elements.
pub fn find(numbers: &ElementNumbers, view: &ReplicaView, element: u32) -> Result<u32, Cause>
    ensures { MatchResult result (IsHadAs numbers.now view.now.marks element)
        (IsCauseAt numbers.now view.now.marks element) }
{
    let Some(number) = numbers.number_of(element) else {
        return Err(Cause::Update);
    };
    match view.mark(number) {
        Mark::Missing => Err(Cause::Query),
        Mark::Shown | Mark::Removed => Ok(number),
    }
}

/// Returns the numbers of a new element and of its neighbours, each of which is looked up once.
///
/// # Errors
///
/// `Update` if the element is 0 or was inserted before, or a neighbour never was; else `Query` if the view does not
/// have a neighbour.
///
/// # Complexity
///
/// O(log n) with `n` elements.
pub fn find_placement(
    numbers: &ElementNumbers,
    view: &ReplicaView,
    insertion: Insertion,
) -> Result<Placement, Cause>
    requires { length numbers.now < 4294967296 }
    ensures cause { IsCauseOfInsertion numbers.now view.now.marks insertion (result_err result) }
    ensures placement { IfOk result (IsPlacement numbers.now insertion) }
{
    if insertion.element == 0 || numbers.contains(insertion.element) {
        return Err(Cause::Update);
    }
    let left = find_neighbor(numbers, view, insertion.left);
    let right = find_neighbor(numbers, view, insertion.right);
    match both_found(left, right) {
        Ok((left, right)) => Ok(Placement {
            left,
            element: numbers.len() as u32,
            right,
        }),
        Err(cause) => Err(cause),
    }
}

// Returns the number of a neighbour, or `None` if none is named; or the reason for which an insertion cannot name it.
fn find_neighbor(
    numbers: &ElementNumbers,
    view: &ReplicaView,
    neighbor: u32,
) -> Result<Option<u32>, Cause>
    ensures cause { IsCauseOfNeighbor numbers.now view.now.marks neighbor (result_err result) }
    ensures number { IfOk result (IsNeighbor numbers.now neighbor) }
{
    if neighbor == 0 {
        return Ok(None);
    }
    match find(numbers, view, neighbor) {
        Ok(number) => Ok(Some(number)),
        Err(cause) => Err(cause),
    }
}

// Returns what was found of both neighbours, or the cause that is tested first.
fn both_found(
    left: Result<Option<u32>, Cause>,
    right: Result<Option<u32>, Cause>,
) -> Result<(Option<u32>, Option<u32>), Cause>
    ensures cause { result_err result ≡ first_cause (result_err left) (result_err right) }
    ensures found { IfOk result (λ found. (left ≡ Ok found.0) × (right ≡ Ok found.1)) }
{
    match (left, right) {
        (Ok(left), Ok(right)) => Ok((left, right)),
        (Err(Cause::Update), _) | (_, Err(Cause::Update)) => Err(Cause::Update),
        (Err(cause), _) | (_, Err(cause)) => Err(cause),
    }
}
