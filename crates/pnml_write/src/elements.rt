ghost use Rattle.std.specs.Prelude.{◌≡◌, ◌∷◌, [], ◌++◌, IfOk, OnOk, codes};
ghost use Rattle.std.specs.Fmt.{signed_decimal};
ghost use Rattle.doc_model.specs.Trees.{attribute, element};
ghost use Rattle.net_elements.specs.Table.{word_of};
ghost use Rattle.pnml_write.specs.Canon.{attribute_id, branch, declared_id};

use doc_model::{Attribute, Element};
use name_tables::{Name, decimal};
use net_elements::{Role, word_of};
use sqlite_items::Items;
use std::alloc::Global;
use wide_sums::Memory;

/// An element of a role with attributes and children.
pub fn branch(
    alloc: Global,
    role: Role,
    attributes: Items<Attribute>,
    children: Items<Element>,
) -> Result<Element, Memory>
    ensures { IfOk result (λ tree. tree ≡ branch role attributes children) }
{
    Ok(Element {
        at: 0,
        name: Name::new(alloc, word_of(role))?,
        attributes,
        children,
        text: Name::new(alloc, b"")?,
    })
}

/// An element of a role with children alone.
pub fn holder(alloc: Global, role: Role, children: Items<Element>) -> Result<Element, Memory>
    ensures { IfOk result (λ tree. tree ≡ branch role [] children) }
{
    branch(alloc, role, Items::new(alloc), children)
}

/// An element of a role with one child.
pub fn around(alloc: Global, role: Role, child: Element) -> Result<Element, Memory>
    ensures { IfOk result (λ tree. tree ≡ branch role [] (child ∷ [])) }
{
    holder(alloc, role, only(alloc, child)?)
}

/// An element of a role with two children.
pub fn around_two(
    alloc: Global,
    role: Role,
    first: Element,
    second: Element,
) -> Result<Element, Memory>
    ensures { IfOk result (λ tree. tree ≡ branch role [] (first ∷ second ∷ [])) }
{
    let mut children = only(alloc, first)?;
    children.push(second)?;
    holder(alloc, role, children)
}

/// An element of a role with attributes alone.
pub fn leaf_with(alloc: Global, role: Role, attributes: Items<Attribute>) -> Result<Element, Memory>
    ensures { IfOk result (λ tree. tree ≡ branch role attributes []) }
{
    branch(alloc, role, attributes, Items::new(alloc))
}

/// An element of a role with nothing in it.
pub fn bare(alloc: Global, role: Role) -> Result<Element, Memory>
    ensures { IfOk result (λ tree. tree ≡ branch role [] []) }
{
    holder(alloc, role, Items::new(alloc))
}

/// One child.
pub fn only(alloc: Global, child: Element) -> Result<Items<Element>, Memory>
    ensures { IfOk result (λ children. children ≡ child ∷ []) }
{
    let mut children = Items::new(alloc);
    children.push(child)?;
    Ok(children)
}

/// Adds an attribute.
pub fn add_attribute(
    alloc: Global,
    attributes: &mut Items<Attribute>,
    name: &[u8],
    value: &[u8],
) -> Result<(), Memory>
    ensures { OnOk result (attributes.new ≡ attributes.old ++ attribute name.now value.now ∷ []) }
{
    attributes.push(Attribute {
        name: Name::new(alloc, name)?,
        value: Name::new(alloc, value)?,
    })?;
    Ok(())
}

/// One attribute.
pub fn one_attribute(alloc: Global, name: &[u8], value: &[u8]) -> Result<Items<Attribute>, Memory>
    ensures { IfOk result (λ attributes. attributes ≡ attribute name.now value.now ∷ []) }
{
    let mut attributes = Items::new(alloc);
    add_attribute(alloc, &mut attributes, name, value)?;
    Ok(attributes)
}

/// The attributes of what is declared: its id, and the id as its name.
pub fn declared_id(alloc: Global, id: &[u8]) -> Result<Items<Attribute>, Memory>
    ensures { IfOk result (λ attributes. attributes ≡ declared_id id.now) }
{
    let mut attributes = one_attribute(alloc, b"id", id)?;
    add_attribute(alloc, &mut attributes, b"name", id)?;
    Ok(attributes)
}

/// One attribute whose value is a number.
pub fn number_attribute(
    alloc: Global,
    name: &[u8],
    number: i128,
) -> Result<Items<Attribute>, Memory>
    ensures { IfOk result (λ attributes. attributes ≡ attribute name.now (signed_decimal number) ∷ []) }
{
    let value = decimal(alloc, number)?;
    one_attribute(alloc, name, value.bytes())
}
