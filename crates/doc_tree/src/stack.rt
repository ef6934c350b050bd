ghost use Rattle.std.specs.Prelude.{◌≡◌, ◌++◌, ◌∷◌, [], List, Some, None, Option, IfOk, MatchBool, MatchOption, OnOk, length};
ghost use Rattle.doc_model.specs.declared.tree.Element.{Element};
ghost use Rattle.doc_tree.specs.declared.places.Open.{Open};
ghost use Rattle.doc_tree.specs.Machine.{with_child, with_text};

use crate::lists::put;
use crate::places::Open;
use doc_model::Element;
use std::alloc::Global;
use std::marker::Model;
use wide_sums::Memory;

/// The open elements. Contracts see them as a list, the innermost first.
#[derive(Debug, Drop)]
pub struct Stack {
    top: Option<Open>,
    below: Vec<Open>,
}

impl Model for Stack {
    ghost use Rattle.std.specs.Prelude.{List, reverse};
    ghost use Rattle.std.specs.Coded.{codes};
    ghost use Rattle.doc_model.specs.contracts.tree.Element as e;
    ghost use Rattle.doc_tree.specs.declared.places.Open.{Open};
    ghost use Rattle.doc_tree.specs.Stacks.{stacked};

    ghost Value = { List Open };

    ghost coded = { Prim.hlevel (codes, e.the_row.coded) };

    ghost view = { λ s. stacked s.top (reverse s.below.items) };
}

impl Stack {
    /// No elements; this takes no memory.
    pub fn new(alloc: Global) -> Stack
        ensures { result ≡ [] }
    {
        Stack {
            top: None,
            below: Vec::new(alloc),
        }
    }

    /// How many elements are open.
    pub fn len(&self) -> usize
        ensures { result ≡ length self.now }
    {
        match &self.top {
            Some(_) => self.below.len().saturating_add(1),
            None => self.below.len(),
        }
    }

    pub fn is_empty(&self) -> bool
        ensures { MatchBool result (self.now ≡ []) ((o : Open) × (os : List Open) × (self.now ≡ o ∷ os)) }
    {
        self.innermost().is_none()
    }

    /// An element within the innermost one.
    pub fn push(&mut self, inner: Open) -> Result<(), Memory>
        ensures { OnOk result (self.new ≡ inner ∷ self.old) }
    {
        if let Some(outer) = self.top.take() {
            self.below.push(outer)?;
        }
        self.top = Some(inner);
        Ok(())
    }

    /// The innermost element, taken out.
    pub fn pop(&mut self) -> Option<Open>
        ensures { MatchOption result ((self.old ≡ []) × (self.new ≡ [])) (λ inner. self.old ≡ inner ∷ self.new) }
    {
        match self.top.take() {
            Some(inner) => Some(inner),
            None => self.below.pop(),
        }
    }

    /// The innermost element.
    pub fn innermost(&self) -> Option<&Open>
        ensures { MatchOption result (self.now ≡ []) (λ inner. (os : List Open) × (self.now ≡ inner.now ∷ os)) }
    {
        match &self.top {
            Some(inner) => Some(inner),
            None => self.below.last(),
        }
    }

    /// Characters of the innermost element; where there is none, it is false.
    pub fn add_text(&mut self, characters: &[u8]) -> Result<bool, Memory>
        ensures { IfOk result (λ added. MatchBool added ((o : Open) × (os : List Open) × (self.old ≡ o ∷ os) × (self.new ≡ with_text o characters.now ∷ os)) ((self.old ≡ []) × (self.new ≡ []))) }
    {
        if let Some(inner) = &mut self.top {
            inner.text.append(characters)?;
            return Ok(true);
        }
        match self.below.pop() {
            None => Ok(false),
            Some(mut inner) => {
                inner.text.append(characters)?;
                self.top = Some(inner);
                Ok(true)
            }
        }
    }

    /// A child of the innermost element. Where there is none, it comes back.
    pub fn add_child(&mut self, alloc: Global, child: Element) -> Result<Option<Element>, Memory>
        ensures { IfOk result (λ back. MatchOption back ((o : Open) × (os : List Open) × (self.old ≡ o ∷ os) × (self.new ≡ with_child o child ∷ os)) (λ same. (same ≡ child) × (self.old ≡ []) × (self.new ≡ []))) }
    {
        match self.pop() {
            None => Ok(Some(child)),
            Some(mut inner) => {
                put(alloc, &mut inner.children, child)?;
                self.push(inner)?;
                Ok(None)
            }
        }
    }
}
