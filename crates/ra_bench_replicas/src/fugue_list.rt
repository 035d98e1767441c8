//! A list as a tree of elements with children on both sides.
ghost use Rattle.std.specs.Prelude.{◌≡◌, true, false, IfOk};
ghost use Rattle.ra_labels.specs.declared.kind.Kind.TheVariants as kind;
ghost use Rattle.ra_labels.specs.Answer.{kind_of, has_rising_list};
ghost use Rattle.ra_labels.specs.Visibility.{is_update};
ghost use Rattle.ra_bench_replicas.specs.Turn.{is_of_turn};

use crate::turn::Turn;
use ra_labels::{Elements, Insertion, ListOp, NoMemory, Op};
use std::alloc::Global;
use std::collections::BTreeMap;

// The element at the root of the tree, which no read shows. As a neighbour it means that none is named.
const ROOT: u32 = 0;

/// A tree of elements, as in Fugue (Weidner, Gentle, Kleppmann, "The Art of the Fugue", 2023). The list is its in-order
/// traversal: the children to the left of an element, the element, and the children to its right.
#[derive(Drop)]
pub struct FugueList {
    alloc: Global,
    // The root's node, followed by those of the elements in the order of their insertion.
    nodes: Vec<Node>,
    // The index of each element's node.
    places: BTreeMap<u32, usize>,
}

// The node of an element.
#[derive(Drop)]
struct Node {
    element: u32,
    is_shown: bool,
    depth: usize,
    // The indices of its children on each side, by element.
    left: BTreeMap<u32, usize>,
    right: BTreeMap<u32, usize>,
}

// A step of the traversal: to the node at this index with its children, or to the node alone.
#[derive(Clone, Copy)]
enum Step {
    Enter(usize),
    Visit(usize),
}

// What an insertion at the front, or behind the first shown element, has to name.
#[derive(Clone, Copy)]
struct Start {
    // The first element, shown or not, or 0.
    first: u32,
    // The first element that is shown.
    shown: Option<u32>,
    // The element behind that one, shown or not, or 0.
    behind: u32,
}

impl FugueList {
    /// Creates the tree with the root alone.
    pub fn new(alloc: Global) -> Result<FugueList, NoMemory> {
        let mut nodes = Vec::new(alloc);
        nodes.push(Node::new(alloc, ROOT, 0))?;
        let mut places = BTreeMap::new(alloc);
        places.insert(ROOT, 0)?;
        Ok(FugueList {
            alloc,
            nodes,
            places,
        })
    }

    /// Returns its update of this round: the removal of the first shown element, or an insertion behind that element or
    /// at the front. O(n) for n elements up to there, and their siblings.
    pub fn update(&self, turn: Turn) -> Result<Op, NoMemory>
        ensures kind { IfOk result (λ op. kind_of op ≡ kind.List) }
        ensures rising { IfOk result (λ op. has_rising_list op ≡ true) }
        ensures turn { IfOk result (λ op. is_of_turn turn op ≡ true) }
    {
        let element = turn.own_number();
        let start = self.start()?;
        Ok(Op::List(match start.shown {
            Some(shown) if turn.takes_out() => ListOp::Remove(shown),
            Some(shown) if turn.is_even() => ListOp::Insert(Insertion {
                left: shown,
                element,
                right: start.behind,
            }),
            _ => ListOp::Insert(Insertion {
                left: ROOT,
                element,
                right: start.first,
            }),
        }))
    }

    /// Returns the read with the shown elements. O(n) for n elements, including removed ones.
    pub fn read(&self) -> Result<Op, NoMemory>
        ensures kind { IfOk result (λ op. kind_of op ≡ kind.List) }
        ensures rising { IfOk result (λ op. has_rising_list op ≡ true) }
        ensures query { IfOk result (λ op. is_update op ≡ false) }
    {
        let elements = self.shown()?;
        Ok(Op::List(ListOp::Read(Elements::new(elements))))
    }

    /// Inserts an element between its neighbours, which were next to each other where it was made. Does nothing if a
    /// neighbour is missing or the element is present.
    pub fn insert(&mut self, insertion: Insertion) -> Result<(), NoMemory> {
        let left = self.places.get(&insertion.left).copied();
        let right = self.places.get(&insertion.right).copied();
        match (left, right) {
            (Some(left), Some(right)) if !self.places.contains_key(&insertion.element) => {
                self.insert_between(left, right, insertion.element)
            }
            _ => Ok(()),
        }
    }

    /// Removes the element from what is shown. Does not allocate.
    pub fn hide(&mut self, element: u32) {
        let place = self.places.get(&element).copied();
        if let Some(node) = place.and_then(|place| self.nodes.get_mut(place)) {
            node.is_shown = false;
        }
    }

    // Inserts an element between the nodes at these indices. Of two elements next to each other, one is above the
    // other; the new one is a child of the lower one. The root is above all, so it is the right neighbour of none.
    fn insert_between(&mut self, left: usize, right: usize, element: u32) -> Result<(), NoMemory> {
        let is_below_right = self.depth(left) < self.depth(right);
        let above = if is_below_right { right } else { left };
        let place = self.nodes.len();
        let depth = self.depth(above).saturating_add(1);
        self.nodes.push(Node::new(self.alloc, element, depth))?;
        let linked = self.link(above, is_below_right, place, element);
        if linked.is_err() {
            self.places.remove(&element);
            self.nodes.pop();
        }
        linked
    }

    // Registers the node at this index as the element's, and as a child of the other node, on its left or right side.
    fn link(
        &mut self,
        above: usize,
        to_the_left: bool,
        place: usize,
        element: u32,
    ) -> Result<(), NoMemory> {
        self.places.insert(element, place)?;
        if let Some(node) = self.nodes.get_mut(above) {
            let children = if to_the_left {
                &mut node.left
            } else {
                &mut node.right
            };
            children.insert(element, place)?;
        }
        Ok(())
    }

    // Returns the depth of the node at this index.
    fn depth(&self, place: usize) -> usize {
        match self.nodes.get(place) {
            Some(node) => node.depth,
            None => 0,
        }
    }

    // Returns the elements at the start of the list.
    fn start(&self) -> Result<Start, NoMemory> {
        let mut start = Start {
            first: ROOT,
            shown: None,
            behind: ROOT,
        };
        let mut waiting = Vec::new(self.alloc);
        waiting.push(Step::Enter(0))?;
        for _step in 0..self.nodes.len().saturating_mul(2) {
            let Some(step) = waiting.pop() else {
                break;
            };
            if let Some(node) = self.go(&mut waiting, step)? {
                if start.ends_with(node.element, node.is_shown) {
                    break;
                }
            }
        }
        Ok(start)
    }

    // Returns the shown elements, in order.
    fn shown(&self) -> Result<Vec<u32>, NoMemory> {
        let mut elements = Vec::new(self.alloc);
        let mut waiting = Vec::new(self.alloc);
        waiting.push(Step::Enter(0))?;
        for _step in 0..self.nodes.len().saturating_mul(2) {
            let Some(step) = waiting.pop() else {
                break;
            };
            if let Some(node) = self.go(&mut waiting, step)? {
                if node.is_shown {
                    elements.push(node.element)?;
                }
            }
        }
        Ok(elements)
    }

    // Takes a step of the traversal, and returns the node that comes next, if it is an element's. The top of the stack
    // is next, so children are pushed in descending order.
    fn go(&self, waiting: &mut Vec<Step>, step: Step) -> Result<Option<&Node>, NoMemory> {
        match step {
            Step::Visit(0) => Ok(None),
            Step::Visit(place) => Ok(self.nodes.get(place)),
            Step::Enter(place) => {
                if let Some(node) = self.nodes.get(place) {
                    push_all(waiting, &node.right)?;
                    waiting.push(Step::Visit(place))?;
                    push_all(waiting, &node.left)?;
                }
                Ok(None)
            }
        }
    }
}

// Pushes the children, the last one first.
fn push_all(waiting: &mut Vec<Step>, children: &BTreeMap<u32, usize>) -> Result<(), NoMemory> {
    for below in children.values().rev() {
        waiting.push(Step::Enter(*below))?;
    }
    Ok(())
}

impl Start {
    // Takes the next element in, and returns `true` if nothing behind it matters.
    fn ends_with(&mut self, element: u32, is_shown: bool) -> bool {
        if self.shown.is_some() {
            self.behind = element;
            return true;
        }
        if self.first == ROOT {
            self.first = element;
        }
        if is_shown {
            self.shown = Some(element);
        }
        false
    }
}

impl Node {
    // Creates a node without children.
    fn new(alloc: Global, element: u32, depth: usize) -> Node {
        Node {
            element,
            is_shown: element != ROOT,
            depth,
            left: BTreeMap::new(alloc),
            right: BTreeMap::new(alloc),
        }
    }
}
