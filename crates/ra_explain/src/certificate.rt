//! Why no order explains a violation: claims, each with the label whose line shows it.
use crate::links::{Link, links_of};
use crate::origin::operation_of;
use crate::places::Places;
use crate::tree::{Forks, Tree};
use ra_another_order::{Answer, Reason, SecondOpinion};
use ra_any_order::Refutation as LwwRefutation;
use ra_journal::Entry;
use ra_labels::{Command, NoMemory, Op, Reply};
use ra_precedence::Held;
use ra_rga_precedence::Refutation as RgaRefutation;
use std::alloc::Global;
use std::collections::{BTreeMap, BTreeSet};

/// A claim about the order of labels, or about a label that no order explains.
#[derive(Drop)]
pub struct Claim {
    /// The label whose line shows it.
    pub label: u32,
    /// What it shows.
    pub because: Because,
    /// The label that has to stand before one of `after`; or another label that is concerned.
    pub before: Option<u32>,
    /// The labels before one of which that label has to stand.
    pub after: Vec<u32>,
    /// The elements that are concerned.
    pub elements: Vec<u32>,
}

/// What a label shows of the order of labels, or why no order explains it.
#[derive(Clone, Copy, Debug, PartialEq, Eq)]
pub enum Because {
    /// It sees the label `before`, so it comes later.
    Sees,
    /// It inserts behind, or removes, the element that the label `before` inserts, so it comes later.
    Needs,
    /// It is a read whose answer requires that the label `before` comes before one of the labels `after`. The elements
    /// are two adjacent ones of an RGA's list, or the one of an LWW set.
    Reads,
    /// It inserts the element that the label `before` inserts, too.
    Repeats,
    /// It inserts the root of an RGA.
    Root,
    /// It inserts behind or removes the element, which no label up to the violation inserts; or it removes the root.
    Absent,
    /// It is a read that sees the label `before`, but not the insertion of the element that `before` needs.
    Open,
    /// It is a read that lists the element, but sees no insertion of it, sees a removal of it, or lists it twice.
    Listed,
    /// It is a read that does not list the element. It sees the label `before` insert it, and no removal of it.
    Unlisted,
    /// It is a read that lists the first element directly before the second one, which is an ancestor of the first.
    Below,
    /// It is a read whose answer follows from none of the updates that can be the last one it sees. Of an LWW set, this
    /// concerns the element.
    Unseen,
}

/// Returns why no order explains the labels up to the violation, or an empty list if one does or if that is not known.
///
/// # Errors
///
/// `NoMemory` if an allocation fails.
///
/// # Complexity
///
/// O(n · log n) for `n` labels. Each read among the reasons of an RGA takes O(l · d · log n), with `l` the length of
/// its list. Here `d` is the number of steps between two neighbours in the tree of insertions.
pub fn claims_of(
    alloc: Global,
    log: &[Entry<Command, Reply>],
    places: &Places,
    opinion: &Option<SecondOpinion>,
) -> Result<Vec<Claim>, NoMemory> {
    let labels = Labels { alloc, log, places };
    match opinion {
        Some(
            SecondOpinion {
                answer: Answer::NoneExists(reason),
                ..
            },
        ) => match reason {
            Reason::Lww(reason) => labels.lww_claims(reason),
            Reason::Rga(reason) => labels.rga_claims(reason),
        },
        _ => Ok(Vec::new(alloc)),
    }
}

// The labels of a log.
#[derive(Clone, Copy)]
struct Labels<'a> {
    alloc: Global,
    log: &'a [Entry<Command, Reply>],
    places: &'a Places,
}

impl<'a> Labels<'a> {
    fn operation(&self, label: u32) -> Option<&'a Op> {
        operation_of(self.log, self.places, label)
    }

    fn lww_claims(&self, reason: &LwwRefutation) -> Result<Vec<Claim>, NoMemory> {
        match reason {
            LwwRefutation::Read { label, element } => {
                self.one(*label, Because::Unseen, None, element.as_slice())
            }
            LwwRefutation::Stuck(stuck) => self.held_claims(&stuck.reasons, None),
        }
    }

    fn rga_claims(&self, reason: &RgaRefutation) -> Result<Vec<Claim>, NoMemory> {
        match reason {
            RgaRefutation::Stuck(stuck) => {
                let forks = self.forks(&stuck.reasons)?;
                self.held_claims(&stuck.reasons, Some(&forks))
            }
            RgaRefutation::Twice(one, other) => {
                let (first, second) = (*one.min(other), *one.max(other));
                let elements = [self.element(second)];
                self.one(second, Because::Repeats, Some(first), &elements)
            }
            RgaRefutation::Root(label) => self.one(*label, Because::Root, None, &[]),
            RgaRefutation::Absent(label) => {
                self.one(*label, Because::Absent, None, &[self.needed(*label)])
            }
            RgaRefutation::Open { read, label } => {
                self.one(*read, Because::Open, Some(*label), &[self.needed(*label)])
            }
            RgaRefutation::Wrong { read, element } => {
                self.one(*read, Because::Listed, None, &[*element])
            }
            RgaRefutation::Unlisted { read, label } => {
                let elements = [self.element(*label)];
                self.one(*read, Because::Unlisted, Some(*label), &elements)
            }
            RgaRefutation::Below {
                read,
                first,
                second,
            } => self.one(*read, Because::Below, None, &[*first, *second]),
        }
    }

    // Returns one claim, about a label that no order explains.
    fn one(
        &self,
        label: u32,
        because: Because,
        before: Option<u32>,
        elements: &[u32],
    ) -> Result<Vec<Claim>, NoMemory> {
        let mut claims = Vec::new(self.alloc);
        claims.push(Claim {
            label,
            because,
            before,
            after: Vec::new(self.alloc),
            elements: copied(self.alloc, elements)?,
        })?;
        Ok(claims)
    }

    // Returns the claims for these reasons of a stuck set. For an RGA, forks are given.
    fn held_claims(&self, reasons: &[Held], forks: Option<&Forks>) -> Result<Vec<Claim>, NoMemory> {
        let mut is_seeing = Vec::new(self.alloc);
        for held in reasons {
            let because = self.shown_by(held.label, &held.after, held.by, forks);
            is_seeing.push(because == Because::Sees)?;
        }
        let mut claims = Vec::new(self.alloc);
        for link in &links_of(self.alloc, reasons, &is_seeing)? {
            claims.push(self.claim_of(link, forks)?)?;
        }
        Ok(claims)
    }

    fn claim_of(&self, link: &Link<'_>, forks: Option<&Forks>) -> Result<Claim, NoMemory> {
        let because = self.shown_by(link.label, link.after(), link.by(), forks);
        Ok(Claim {
            label: link.by(),
            because,
            before: Some(link.label),
            after: copied(self.alloc, link.after())?,
            elements: self.elements_shown(link, because, forks)?,
        })
    }

    // Returns why a label comes before these ones, as another one requires.
    fn shown_by(&self, label: u32, after: &[u32], by: u32, forks: Option<&Forks>) -> Because {
        let needed = self.needed(by);
        if after != [by].as_slice() {
            Because::Reads
        } else if forks.is_some() && needed != 0 && self.element(label) == needed {
            Because::Needs
        } else {
            Because::Sees
        }
    }

    fn elements_shown(
        &self,
        link: &Link<'_>,
        because: Because,
        forks: Option<&Forks>,
    ) -> Result<Vec<u32>, NoMemory> {
        match (because, forks, self.operation(link.by())) {
            (Because::Needs, _, _) => copied(self.alloc, &[self.needed(link.by())]),
            (Because::Reads, Some(forks), _) => {
                let later = link.after().first().copied().unwrap_or(0);
                match forks.get(&(link.by(), later, link.label)) {
                    Some((first, second)) => copied(self.alloc, &[*first, *second]),
                    None => Ok(Vec::new(self.alloc)),
                }
            }
            (Because::Reads, None, Some(Op::LwwRead(_))) => {
                copied(self.alloc, &[self.element(link.label)])
            }
            _ => Ok(Vec::new(self.alloc)),
        }
    }

    // Returns the element that the label inserts into an RGA, or adds to or removes from a set; 0 if there is none.
    fn element(&self, label: u32) -> u32 {
        match self.operation(label) {
            Some(Op::After { element, .. } | Op::LwwAdd(element) | Op::LwwRemove(element)) => {
                *element
            }
            _ => 0,
        }
    }

    // Returns the element of an RGA behind which the label inserts, or that it removes; 0 for the root.
    fn needed(&self, label: u32) -> u32 {
        match self.operation(label) {
            Some(Op::After { anchor, .. }) => *anchor,
            Some(Op::RgaRemove(element)) => *element,
            _ => 0,
        }
    }

    // Returns the forks of the lists of the reads among the reasons.
    fn forks(&self, reasons: &[Held]) -> Result<Forks, NoMemory> {
        let tree = self.tree()?;
        let mut forks = BTreeMap::new(self.alloc);
        let mut reads = BTreeSet::new(self.alloc);
        for held in reasons {
            if let Some(Op::RgaRead(list)) = self.operation(held.by) {
                if reads.insert(held.by)? {
                    tree.add_forks(&mut forks, self.alloc, held.by, list.as_slice())?;
                }
            }
        }
        Ok(forks)
    }

    // Returns the tree of all insertions.
    fn tree(&self) -> Result<Tree, NoMemory> {
        let mut tree = Tree::new(self.alloc);
        for label in 0..self.places.count() {
            if let Some(Op::After { anchor, element }) = self.operation(label) {
                tree.insert(label, *anchor, *element)?;
            }
        }
        Ok(tree)
    }
}

fn copied(alloc: Global, numbers: &[u32]) -> Result<Vec<u32>, NoMemory> {
    let mut copy = Vec::new(alloc);
    copy.extend_from_slice(numbers)?;
    Ok(copy)
}
