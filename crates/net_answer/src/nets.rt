ghost use Rattle.std.specs.Prelude.{◌≡◌, IfOk};
ghost use Rattle.net_model.specs.Ids.{HasOwnIds, DeclaresOwnIds};
ghost use Rattle.answers.specs.Stages.{IfReached};
ghost use Rattle.net_answer.specs.Documents.{net_of_tree};

use crate::lines::structure_words;
use answers::{Refusal, Stage};
use doc_tree::{Element, Fault};
use net_elements::ReadFault;
use net_model::Net;
use pnml_inputs::Role;
use pnml_read::read_net;
use std::alloc::Global;
use wide_sums::Memory;

/// The net of a tree, which is let go, or the first rule that the tree breaks. [`Memory`] comes for want of memory.
pub fn net_of_tree(alloc: Global, root: Element) -> Result<Stage<Net>, Memory>
    ensures net { IfOk result (λ stage. stage ≡ net_of_tree root) }
    ensures own_ids { IfOk result (λ stage. IfReached stage HasOwnIds) }
    ensures declared { IfOk result (λ stage. IfReached stage DeclaresOwnIds) }
{
    match read_net(alloc, root) {
        Ok(net) => Ok(Stage::Reached(net)),
        Err(ReadFault::Structure { at, kind }) => {
            let words = structure_words(alloc, at, kind)?;
            Ok(Stage::Refused(Refusal::new(Role::Net, words)))
        }
        Err(ReadFault::Memory) => Err(Memory),
    }
}
