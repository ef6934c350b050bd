ghost use Rattle.std.specs.Prelude.{◌≡◌, [], IfErr, IfOk, OnOk, Some, codes};
ghost use Rattle.std.specs.List.{find};
ghost use Rattle.std.specs.Str.{bytes_eq};
ghost use Rattle.doc_model.specs.declared.tree.Element.{out-Element};
ghost use Rattle.net_model.specs.Ids.{DeclaresOwnIds, HasOwnIds};
ghost use Rattle.net_elements.specs.Rules.{broken_rules};
ghost use Rattle.net_elements.specs.Walking.{IsFirst};
ghost use Rattle.pnml_read.specs.Nets.{net_in, net_of};

use crate::lists::Lists;
use crate::values::name_in;
use doc_model::Element;
use name_tables::Name;
use net_elements::{ReadFault, check, kind_of, value_of};
use net_model::{Kind, Net};
use sqlite_items::Items;
use std::alloc::Global;
use wide_sums::Memory;

/// Reads the net of a tree, of which the parts are let go as the net grows. `Structure` is answered exactly where the tree breaks
/// a rule of the table of net elements, with the first one in the order of the walk and the offset of its element. The ids of all
/// symbols of the net differ, and so do those of all nodes and arcs, with fewer than 2^32 - 1 of each. `Memory` comes for want of
/// memory.
pub fn read_net(alloc: Global, root: Element) -> Result<Net, ReadFault>
    ensures net { IfOk result (λ net. net ≡ net_of root) }
    ensures own_ids { IfOk result (λ net. HasOwnIds net) }
    ensures declared { IfOk result (λ net. DeclaresOwnIds net) }
    ensures sound { OnOk result (broken_rules root ≡ []) }
    ensures first { IfErr result (λ fault. IsFirst (broken_rules root) fault) }
{
    check(alloc, &root)?;
    Ok(net_of(alloc, root)?)
}

fn net_of(alloc: Global, root: Element) -> Result<Net, Memory>
    ensures { IfOk result (λ net. net ≡ net_of root) }
{
    let Element { children, .. } = root;
    match first_net(children) {
        Some(element) => net_in(alloc, element),
        None => Ok(Lists::new(alloc).into_net(Name::new(alloc, b"")?, Kind::Pt)),
    }
}

fn first_net(children: Items<Element>) -> Option<Element>
    ensures { result ≡ find (λ e. bytes_eq (out-Element e).name (codes "net")) children }
{
    let mut children = children;
    for at in 0..children.len() {
        if is_net(&children.as_slice()[at]) {
            return Some(children.remove(at));
        }
    }
    None
}

fn is_net(element: &Element) -> bool
    ensures { result ≡ bytes_eq (out-Element element.now).name (codes "net") }
{
    element.name.bytes() == b"net".as_slice()
}

fn net_in(alloc: Global, element: Element) -> Result<Net, Memory>
    ensures { IfOk result (λ net. net ≡ net_in (Some element)) }
{
    let attributes = element.attributes.as_slice();
    let kind = match value_of(b"type", attributes) {
        Some(value) => kind_of(value).unwrap_or(Kind::Pt),
        None => Kind::Pt,
    };
    let id = name_in(alloc, b"id", attributes)?;
    let mut lists = Lists::new(alloc);
    lists.take(alloc, kind, element)?;
    Ok(lists.into_net(id, kind))
}
