ghost use Rattle.std.specs.Prelude.{◌<◌, IfSome, length};
ghost use Rattle.std.specs.Vec.{vec_len, vec_capacity};
ghost use Rattle.ra_rga_elements.specs.Links.{IsLinked};

use crate::element::Element;

/// Adds a new element, which stands directly before the next one. Does not allocate.
pub fn link(elements: &mut Vec<Element>, next: Option<u32>, new: Element)
    requires room { vec_len elements.old < vec_capacity elements.old }
    requires few { length elements.old.items < 4294967296 }
    requires next { IfSome next (λ number. number < length elements.old.items) }
    ensures { IsLinked elements.old.items next new elements.new.items }
{
    let number = elements.len() as u32;
    if let Some(next) = next {
        let next = &mut elements[next as usize];
        next.before = number;
    }
    elements.push_reserved(new);
}
