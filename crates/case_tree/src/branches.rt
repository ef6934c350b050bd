ghost use Rattle.std.specs.Prelude.{◌≡◌, ◌<◌, ◌≤◌, [], ◌∷◌, All, length, slice_index_or, IsOk, OnOk};
ghost use Rattle.case_tree.specs.States.{branch_count, case_rounds, choice_of, each_rounds, paths_below, room_of, rounds, with_item};

use crate::agendas::Agenda;
use crate::nodes::{Kind, Node};
use crate::paths::CasePath;
use wide_sums::Memory;

impl<A: Agenda> CasePath<A> {
    // How often all items of a choice are walked, if they are so many.
    fn case_rounds(&self, choice: usize, count: usize) -> usize
        ensures { result ≡ length (case_rounds self.now.path count (choice_of self.now.path choice)) }
    {
        let Some(found) = self.choice_len(choice) else {
            return 0;
        };
        if found == count { 1 } else { 0 }
    }

    // How often one item of a choice is walked.
    fn each_rounds(&self, choice: usize) -> usize
        ensures { result ≡ length (each_rounds self.now.path (choice_of self.now.path choice)) }
    {
        let Some(found) = self.choice_len(choice) else {
            return 0;
        };
        found
    }

    /// How often the branches of the node are walked.
    pub fn rounds(&self, node: &Node) -> usize
        ensures count { result ≡ length (rounds self.now.path node.now) }
        ensures sized { All (λ paths. length paths ≡ branch_count node.now) (rounds self.now.path node.now) }
    {
        match node.kind {
            Kind::Close(_) | Kind::Clash(_) => 0,
            Kind::Split(_) => 1,
            Kind::Cases { choice, branches } => {
                self.case_rounds(choice as usize, branches as usize)
            }
            Kind::Each { choice } => self.each_rounds(choice as usize),
        }
    }

    // The item that a branch of the node enters in a round.
    fn branch_item(&self, node: &Node, round: usize, branch: usize) -> usize
        requires round { round < length (rounds self.now.path node.now) }
        requires branch { branch < branch_count node.now }
        ensures { slice_index_or (slice_index_or (rounds self.now.path node.now) round []) branch self.now.path ≡ with_item result self.now.path }
    {
        match node.kind {
            Kind::Close(_) | Kind::Clash(_) => 0,
            Kind::Split(item) => item as usize + branch,
            Kind::Cases { choice, .. } => self.choice_item(choice as usize, branch),
            Kind::Each { choice } => self.choice_item(choice as usize, round),
        }
    }

    /// Enters a branch of the node, in a round. [`Memory`] is wanted only where the room that the path has doesn't do.
    pub fn enter_branch(&mut self, node: &Node, round: usize, branch: usize) -> Result<(), Memory>
        requires round { round < length (rounds self.old.path node.now) }
        requires branch { branch < branch_count node.now }
        ensures fits { room_of (slice_index_or (slice_index_or (rounds self.old.path node.now) round []) branch self.old.path) ≤ self.old.room → IsOk result }
        ensures room { self.old.room ≤ self.new.room }
        ensures path { OnOk result (self.new.path ≡ slice_index_or (slice_index_or (rounds self.old.path node.now) round []) branch self.old.path) }
        ensures below { OnOk result (paths_below self.new.path.items self.new.path.entered ≡ self.old.path ∷ paths_below self.old.path.items self.old.path.entered) }
        ensures has_room { OnOk result (room_of self.new.path ≤ self.new.room) }
    {
        let item = self.branch_item(node, round, branch);
        self.enter(item)
    }
}
