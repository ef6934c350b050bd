ghost use Rattle.std.specs.Prelude.{◌≡◌, ◌∷◌, [], IfOk, OnOk, codes, map};
ghost use Rattle.pnml_read.specs.Nets.{text_in};
ghost use Rattle.net_elements.specs.declared.roles.Role.TheVariants as role;
ghost use Rattle.doc_model.specs.declared.tree.Element.{out-Element};

use crate::labels::{condition_of, inscription_of, marking_of, partition_of, place_sort_of};
use crate::sorts::sort_in;
use crate::values::name_in;
use doc_model::Element;
use name_tables::Name;
use net_elements::{Role, is_passed_over, role_named};
use net_model::{
    Arc, Kind, NamedSort, Net, Partition, Place, RefKind, Reference, Transition, VariableDecl,
};
use sqlite_items::Items;
use std::alloc::Global;
use wide_sums::Memory;

/// What a net has, as it is collected. After an error a part of what was to be added may stand in the lists.
#[derive(Debug, Drop)]
pub struct Lists {
    sorts: Items<NamedSort>,
    partitions: Items<Partition>,
    variables: Items<VariableDecl>,
    places: Items<Place>,
    transitions: Items<Transition>,
    references: Items<Reference>,
    arcs: Items<Arc>,
}

/// What leads to nodes and declarations.
const LIST_ROLES: &[Role] = &[
    Role::Net,
    Role::Page,
    Role::Place,
    Role::Transition,
    Role::Arc,
    Role::ReferencePlace,
    Role::ReferenceTransition,
    Role::Declaration,
    Role::DeclarationStructure,
    Role::Declarations,
    Role::NamedSort,
    Role::Partition,
    Role::VariableDecl,
];

impl Lists {
    ghost use Rattle.pnml_read.specs.Nets.{both, element_lists, given, lists_in, net_with, no_lists, reference_to};

    /// Nothing; this takes no memory.
    pub fn new(alloc: Global) -> Lists
        ensures { result ≡ no_lists }
    {
        Lists {
            sorts: Items::new(alloc),
            partitions: Items::new(alloc),
            variables: Items::new(alloc),
            places: Items::new(alloc),
            transitions: Items::new(alloc),
            references: Items::new(alloc),
            arcs: Items::new(alloc),
        }
    }

    /// Adds what an element has, in the order of the file.
    #[cycle(collecting)]
    pub fn add(&mut self, alloc: Global, kind: Kind, element: &Element) -> Result<(), Memory>
        ensures { OnOk result (self.new ≡ both self.old ((given element.now).lists kind)) }
    {
        match role_named(LIST_ROLES, element.name.bytes()) {
            Some(role) => self.add_as(alloc, kind, role, element),
            None => Ok(()),
        }
    }

    #[cycle(collecting)]
    fn add_as(
        &mut self,
        alloc: Global,
        kind: Kind,
        role: Role,
        element: &Element,
    ) -> Result<(), Memory>
        ensures { OnOk result (self.new ≡ both self.old (element_lists kind role element.now)) }
    {
        match role {
            Role::Net
            | Role::Page
            | Role::Declaration
            | Role::DeclarationStructure
            | Role::Declarations => self.add_all(alloc, kind, role, element.children.as_slice()),
            Role::Place => self.place(alloc, kind, element),
            Role::Transition => self.transition(alloc, element),
            Role::Arc => self.arc(alloc, kind, element),
            Role::ReferencePlace => self.reference(alloc, RefKind::Place, element),
            Role::ReferenceTransition => self.reference(alloc, RefKind::Transition, element),
            Role::NamedSort => self.sort(alloc, element),
            Role::Partition => self.partition(alloc, element),
            Role::VariableDecl => self.variable(alloc, element),
            _ => Ok(()),
        }
    }

    #[cycle(collecting)]
    fn add_all(
        &mut self,
        alloc: Global,
        kind: Kind,
        role: Role,
        children: &[Element],
    ) -> Result<(), Memory>
        ensures { OnOk result (self.new ≡ both self.old (lists_in role kind (map given children.now))) }
    {
        for child in children {
            if !is_passed_over(role, child.name.bytes()) {
                self.add(alloc, kind, child)?;
            }
        }
        Ok(())
    }

    /// Adds what an element has, as [`Lists::add`] does, and lets it go bit by bit.
    #[cycle(taking)]
    pub fn take(&mut self, alloc: Global, kind: Kind, element: Element) -> Result<(), Memory>
        ensures { OnOk result (self.new ≡ both self.old ((given element).lists kind)) }
    {
        match role_named(LIST_ROLES, element.name.bytes()) {
            Some(role) => self.take_as(alloc, kind, role, element),
            None => Ok(()),
        }
    }

    #[cycle(taking)]
    fn take_as(
        &mut self,
        alloc: Global,
        kind: Kind,
        role: Role,
        element: Element,
    ) -> Result<(), Memory>
        ensures { OnOk result (self.new ≡ both self.old (element_lists kind role element)) }
    {
        match role {
            Role::Net
            | Role::Page
            | Role::Declaration
            | Role::DeclarationStructure
            | Role::Declarations => {
                let Element { children, .. } = element;
                self.take_all(alloc, kind, role, children)
            }
            _ => self.add_as(alloc, kind, role, &element),
        }
    }

    /// Nodes are most often the children of one page that stands last, so that only the last child is looked into.
    #[cycle(taking)]
    fn take_all(
        &mut self,
        alloc: Global,
        kind: Kind,
        role: Role,
        children: Items<Element>,
    ) -> Result<(), Memory>
        ensures { OnOk result (self.new ≡ both self.old (lists_in role kind (map given children))) }
    {
        let mut before = children;
        let last = before.pop();
        self.take_each(alloc, kind, role, before)?;
        match last {
            Some(child) => self.take_last(alloc, kind, role, child),
            None => Ok(()),
        }
    }

    #[cycle(taking)]
    fn take_last(
        &mut self,
        alloc: Global,
        kind: Kind,
        role: Role,
        child: Element,
    ) -> Result<(), Memory>
        ensures { OnOk result (self.new ≡ both self.old (lists_in role kind (given child ∷ []))) }
    {
        if is_passed_over(role, child.name.bytes()) {
            return Ok(());
        }
        self.take(alloc, kind, child)
    }

    /// Adds what children have, and lets each go before the next one is looked at.
    fn take_each(
        &mut self,
        alloc: Global,
        kind: Kind,
        role: Role,
        children: Items<Element>,
    ) -> Result<(), Memory>
        ensures { OnOk result (self.new ≡ both self.old (lists_in role kind (map given children))) }
    {
        let mut children = children;
        for at in 0..children.len() {
            let child = &children.as_slice()[at];
            if !is_passed_over(role, child.name.bytes()) {
                self.add(alloc, kind, child)?;
            }
            children.set(at, blank(alloc)?);
        }
        Ok(())
    }

    fn place(&mut self, alloc: Global, kind: Kind, element: &Element) -> Result<(), Memory>
        ensures { OnOk result (self.new ≡ both self.old (element_lists kind role.Place element.now)) }
    {
        let children = element.children.as_slice();
        let place = Place {
            id: id_of(alloc, element)?,
            sort: place_sort_of(alloc, children)?,
            marking: marking_of(alloc, kind, children)?,
        };
        self.places.push(place)?;
        Ok(())
    }

    fn transition(&mut self, alloc: Global, element: &Element) -> Result<(), Memory>
        ensures { OnOk result ((kind : Kind) → self.new ≡ both self.old (element_lists kind role.Transition element.now)) }
    {
        let transition = Transition {
            id: id_of(alloc, element)?,
            guard: condition_of(alloc, element.children.as_slice())?,
        };
        self.transitions.push(transition)?;
        Ok(())
    }

    fn arc(&mut self, alloc: Global, kind: Kind, element: &Element) -> Result<(), Memory>
        ensures { OnOk result (self.new ≡ both self.old (element_lists kind role.Arc element.now)) }
    {
        let attributes = element.attributes.as_slice();
        let arc = Arc {
            id: id_of(alloc, element)?,
            source: name_in(alloc, b"source", attributes)?,
            target: name_in(alloc, b"target", attributes)?,
            label: inscription_of(alloc, kind, element.children.as_slice())?,
        };
        self.arcs.push(arc)?;
        Ok(())
    }

    fn reference(&mut self, alloc: Global, kind: RefKind, element: &Element) -> Result<(), Memory>
        ensures { OnOk result (self.new ≡ both self.old (reference_to kind (text_in (codes "id") (out-Element element.now).attributes) (out-Element element.now).attributes)) }
    {
        let reference = Reference {
            id: id_of(alloc, element)?,
            kind,
            target: name_in(alloc, b"ref", element.attributes.as_slice())?,
        };
        self.references.push(reference)?;
        Ok(())
    }

    fn sort(&mut self, alloc: Global, element: &Element) -> Result<(), Memory>
        ensures { OnOk result ((kind : Kind) → self.new ≡ both self.old (element_lists kind role.NamedSort element.now)) }
    {
        let sort = NamedSort {
            id: id_of(alloc, element)?,
            sort: sort_in(alloc, Role::NamedSort, element.children.as_slice())?,
        };
        self.sorts.push(sort)?;
        Ok(())
    }

    fn partition(&mut self, alloc: Global, element: &Element) -> Result<(), Memory>
        ensures { OnOk result ((kind : Kind) → self.new ≡ both self.old (element_lists kind role.Partition element.now)) }
    {
        self.partitions.push(partition_of(alloc, element)?)?;
        Ok(())
    }

    fn variable(&mut self, alloc: Global, element: &Element) -> Result<(), Memory>
        ensures { OnOk result ((kind : Kind) → self.new ≡ both self.old (element_lists kind role.VariableDecl element.now)) }
    {
        let variable = VariableDecl {
            id: id_of(alloc, element)?,
            sort: sort_in(alloc, Role::VariableDecl, element.children.as_slice())?,
        };
        self.variables.push(variable)?;
        Ok(())
    }

    /// The net of an id and a kind that has what was collected.
    pub fn into_net(self, id: Name, kind: Kind) -> Net
        ensures { result ≡ net_with id kind self }
    {
        let Lists {
            sorts,
            partitions,
            variables,
            places,
            transitions,
            references,
            arcs,
        } = self;
        Net {
            id,
            kind,
            sorts,
            partitions,
            variables,
            places,
            transitions,
            references,
            arcs,
        }
    }
}

/// An element that holds nothing, and takes no memory.
fn blank(alloc: Global) -> Result<Element, Memory> {
    Ok(Element {
        at: 0,
        name: Name::new(alloc, b"")?,
        attributes: Items::new(alloc),
        children: Items::new(alloc),
        text: Name::new(alloc, b"")?,
    })
}

fn id_of(alloc: Global, element: &Element) -> Result<Name, Memory>
    ensures { IfOk result (λ id. id ≡ text_in (codes "id") (out-Element element.now).attributes) }
{
    name_in(alloc, b"id", element.attributes.as_slice())
}
