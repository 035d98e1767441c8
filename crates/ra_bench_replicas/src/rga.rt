//! A list as a tree of elements, each below its anchor.
ghost use Rattle.std.specs.Prelude.{◌≡◌, true, false, IfOk};
ghost use Rattle.ra_labels.specs.declared.kind.Kind.TheVariants as kind;
ghost use Rattle.ra_labels.specs.Answer.{kind_of, has_rising_list};
ghost use Rattle.ra_labels.specs.Visibility.{is_update};
ghost use Rattle.ra_bench_replicas.specs.Turn.{is_of_turn};

use crate::turn::Turn;
use ra_labels::{Elements, NoMemory, Op, Stamp};
use std::alloc::Global;
use std::collections::BTreeMap;

// The element at the root of the tree, which no read shows.
const ROOT: u32 = 0;

/// A tree of elements, each below its anchor. The list is its pre-order traversal, in which the children of an element
/// are visited by descending stamp.
#[derive(Drop)]
pub struct Rga {
    alloc: Global,
    // The root's node, followed by those of the elements in the order of their insertion.
    nodes: Vec<Node>,
    // The index of each element's node.
    places: BTreeMap<u32, usize>,
}

// The node of an element.
#[derive(Drop)]
struct Node {
    element: u32,
    is_shown: bool,
    // The indices of its children, by stamp.
    children: BTreeMap<Stamp, usize>,
}

impl Rga {
    /// Creates the tree with the root alone.
    pub fn new(alloc: Global) -> Result<Rga, NoMemory> {
        let mut nodes = Vec::new(alloc);
        nodes.push(Node::new(alloc, ROOT, false))?;
        let mut places = BTreeMap::new(alloc);
        places.insert(ROOT, 0)?;
        Ok(Rga {
            alloc,
            nodes,
            places,
        })
    }

    /// Returns its update of this round: the removal of the first shown element, or an insertion behind that element or
    /// at the front. Makes two searches among the children of each element up to the first shown one.
    pub fn update(&self, turn: Turn) -> Result<Op, NoMemory>
        ensures kind { IfOk result (λ op. kind_of op ≡ kind.Rga) }
        ensures rising { IfOk result (λ op. has_rising_list op ≡ true) }
        ensures turn { IfOk result (λ op. is_of_turn turn op ≡ true) }
    {
        let element = turn.own_number();
        match self.first()? {
            Some(first) if turn.takes_out() => Ok(Op::RgaRemove(first)),
            Some(first) if turn.is_even() => Ok(Op::After {
                anchor: first,
                element,
            }),
            _ => Ok(Op::After {
                anchor: ROOT,
                element,
            }),
        }
    }

    /// Returns the read with the shown elements. O(n) for n elements, including removed ones.
    pub fn read(&self) -> Result<Op, NoMemory>
        ensures kind { IfOk result (λ op. kind_of op ≡ kind.Rga) }
        ensures rising { IfOk result (λ op. has_rising_list op ≡ true) }
        ensures query { IfOk result (λ op. is_update op ≡ false) }
    {
        let elements = self.shown()?;
        Ok(Op::RgaRead(Elements::new(elements)))
    }

    /// Inserts an element below its anchor. Does nothing if the anchor is missing or the element is present.
    pub fn insert(&mut self, anchor: u32, element: u32, stamp: Stamp) -> Result<(), NoMemory> {
        let above = self.places.get(&anchor).copied();
        match above {
            Some(above) if !self.places.contains_key(&element) => {
                self.insert_under(above, element, stamp)
            }
            _ => Ok(()),
        }
    }

    /// Removes the element from what is shown. Does not allocate.
    pub fn hide(&mut self, element: u32) {
        let place = self.places.get(&element).copied();
        if let Some(node) = place.and_then(|place| self.nodes.get_mut(place)) {
            node.is_shown = false;
        }
    }

    // Inserts an element below the node at this index.
    fn insert_under(&mut self, above: usize, element: u32, stamp: Stamp) -> Result<(), NoMemory> {
        let place = self.nodes.len();
        self.nodes.push(Node::new(self.alloc, element, true))?;
        let linked = self.link(above, place, element, stamp);
        if linked.is_err() {
            self.places.remove(&element);
            self.nodes.pop();
        }
        linked
    }

    // Registers the node at this index as the element's, and as a child of the other node.
    fn link(
        &mut self,
        above: usize,
        place: usize,
        element: u32,
        stamp: Stamp,
    ) -> Result<(), NoMemory> {
        self.places.insert(element, place)?;
        if let Some(node) = self.nodes.get_mut(above) {
            node.children.insert(stamp, place)?;
        }
        Ok(())
    }

    // Returns the first shown element. Children are visited one by one, each with its subtree before the next.
    fn first(&self) -> Result<Option<u32>, NoMemory> {
        let mut waiting = Vec::new(self.alloc);
        waiting.push((0, None))?;
        for _step in 0..self.nodes.len().saturating_mul(2) {
            let Some((above, last)) = waiting.pop() else {
                break;
            };
            if let Some((stamp, place)) = self.child_below(above, last) {
                if let Some(element) = self.shown_at(place) {
                    return Ok(Some(element));
                }
                waiting.push((above, Some(stamp)))?;
                waiting.push((place, None))?;
            }
        }
        Ok(None)
    }

    // Returns the shown elements, in order. The top of the stack is visited next, so children are pushed by ascending
    // stamp.
    fn shown(&self) -> Result<Vec<u32>, NoMemory> {
        let mut elements = Vec::new(self.alloc);
        let mut waiting = Vec::new(self.alloc);
        waiting.push(0)?;
        for _step in 0..self.nodes.len() {
            let Some(place) = waiting.pop() else {
                break;
            };
            if let Some(node) = self.nodes.get(place) {
                if node.is_shown {
                    elements.push(node.element)?;
                }
                for below in node.children.values() {
                    waiting.push(*below)?;
                }
            }
        }
        Ok(elements)
    }

    // Returns the element of the node at this index, if it is shown.
    fn shown_at(&self, place: usize) -> Option<u32> {
        match self.nodes.get(place) {
            Some(node) if node.is_shown => Some(node.element),
            _ => None,
        }
    }

    // Returns, among the children of a node, the one with the greatest stamp below that of the previous one, if there
    // was one.
    fn child_below(&self, above: usize, last: Option<Stamp>) -> Option<(Stamp, usize)> {
        let node = self.nodes.get(above)?;
        let found = match last {
            Some(last) => node.children.range(..last).next_back(),
            None => node.children.last_key_value(),
        };
        found.map(|(stamp, place)| (*stamp, *place))
    }
}

impl Node {
    // Creates a node without children.
    fn new(alloc: Global, element: u32, is_shown: bool) -> Node {
        Node {
            element,
            is_shown,
            children: BTreeMap::new(alloc),
        }
    }
}
