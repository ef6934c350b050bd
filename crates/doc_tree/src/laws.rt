ghost use Rattle.std.specs.Prelude.{◌≡◌, ℕ, List};
ghost use Rattle.doc_model.specs.declared.tree.Element.{Element};
ghost use Rattle.doc_tree.specs.Answers.{HasOneAnswer};
ghost use Rattle.doc_tree.specs.Documents.{Spells};
ghost use Rattle.doc_tree.specs.Instances.{DepthIsRefused, DocumentIsSpelled, EndIsRefused, ReferencesAreSpelled};
ghost use Rattle.doc_tree.specs.Writable.{WrittenIsSpelled};

/// Bytes spell at most one tree.
pub fn spelled_tree_is_one()
    ensures { (b : List ℕ) (t u : Element) → Spells b t → Spells b u → t ≡ u }
{}

/// Of each list of bytes exactly one answer of [`Reader::finish`](crate::Reader::finish) other than want of memory is right: the tree
/// that they spell, the offset of the first element within 256 open ones, or the offset up to which a document begins with them.
pub fn documents_have_one_answer()
    ensures { (b : List ℕ) → HasOneAnswer b }
{}

/// The text that `write` gives of a tree spells that tree, offsets aside: where no element has both children and a text, a text that
/// isn't empty has a character that isn't white, names are names, the attribute names of an element are distinct, and values and
/// texts are UTF-8 of characters that a document may have.
pub fn written_text_is_spelled()
    ensures { WrittenIsSpelled }
{}

/// Four instances of the definitions: an element with an attribute, a text and a child; references by name and by number; an end tag
/// of another name; and an element within 256 open ones.
pub fn small_instances_hold()
    ensures document { DocumentIsSpelled }
    ensures references { ReferencesAreSpelled }
    ensures refusal { EndIsRefused }
    ensures depth { DepthIsRefused }
{}
