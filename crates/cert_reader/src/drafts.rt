ghost use Rattle.std.specs.Prelude.{◌≡◌, ◌<◌, ◌^◌, ◌++◌, ◌∷◌, [], false, true, not, Ok, Err, if◌then◌else◌, IfOk, OnOk};
ghost use Rattle.std.specs.List.{list_any};
ghost use Rattle.std.specs.Str.{bytes_eq};
ghost use Rattle.cert_reader.specs.Reading.{branches_of, claim_amounts, draft_of, is_one, kind_of, no_section, node_amounts, section_of, stage_behind};
ghost use Rattle.cert_lines.specs.Order.{steps_of};
ghost use Rattle.cert_lines.specs.Sums.{are_past};

use crate::facts::Facts;
use crate::faults::CertFault;
use crate::stages::Stage;
use cert_lines::{
    Cert, Claim, Fact, FactKind, InstanceRef, Line, Node, NodeForm, Section, Statement, Step,
    StepClaim, Version, is_past, read_line,
};
use indexmap::IndexSet;
use name_tables::Name;
use prefix_trees::Opens;
use sqlite_items::Items;
use std::alloc::Global;
use std::marker::Model;
use std::mem;
use wide_sums::Memory;

/// The most nodes of all trees.
const MAX_NODES: usize = 1_048_576;

/// The greatest depth of a node in its tree.
const MAX_DEPTH: usize = 256;

/// A certificate of which some lines have been read.
#[derive(Drop)]
pub struct Draft {
    stage: Stage,
    version: Version,
    facts: Facts,
    /// The ids of all properties.
    ids: IndexSet<Name>,
    /// The sections whose tree is whole.
    sections: Vec<Section>,
    /// The last property and its tree so far.
    line: u32,
    property: Name,
    tree: Vec<Node>,
    opens: Opens,
    /// How many nodes all trees have.
    nodes: usize,
}

impl Model for Draft {
    ghost use Rattle.cert_reader.specs.Reading.{DraftState, section_of};

    ghost Value = { DraftState };

    ghost view = { λ d. record {
      stage = d.stage;
      version = d.version;
      facts = d.facts;
      ids = d.ids.keys;
      sections = d.sections.items;
      current = section_of d.line d.property d.tree.items;
      opens = d.opens;
      nodes = d.nodes;
    } };
}

impl Draft {
    ghost use Rattle.prefix_trees.specs.Trees.{opens_after};
    ghost use Rattle.cert_reader.specs.Reading.{HasTaken, after, cert_of, fact_at, finished, is_past_limits, last_fact, may_close, may_follow, may_stand, names_of, node_at, nothing_read, origins_of, same_origin, settled, step_at, take_line, take_said, take_statement, takes_steps, with_facts, with_node, with_property, with_step, with_version};

    /// Nothing read.
    pub fn new(alloc: Global) -> Result<Draft, Memory>
        ensures { IfOk result (λ draft. draft ≡ nothing_read) }
    {
        Ok(Draft {
            stage: Stage::Version,
            version: Version::One,
            facts: Facts::new(alloc),
            ids: IndexSet::new(alloc),
            sections: Vec::new(alloc),
            line: 0,
            property: Name::empty(alloc),
            tree: Vec::new(alloc),
            opens: Opens::new(alloc),
            nodes: 0,
        })
    }

    /// Takes a line. After a fault nothing is said of the draft.
    pub fn read(&mut self, alloc: Global, number: u32, bytes: &[u8]) -> Result<(), CertFault>
        ensures { HasTaken result self.new (take_line number self.old bytes.now) }
    {
        match read_line(alloc, bytes) {
            Ok(line) => self.take_line(alloc, number, line),
            Err(Memory) => Err(CertFault::Memory),
        }
    }

    fn take_line(
        &mut self,
        alloc: Global,
        number: u32,
        line: Line<Statement>,
    ) -> Result<(), CertFault>
        ensures { HasTaken result self.new (take_said number self.old line) }
    {
        match line {
            Line::Passed => Ok(()),
            Line::Faulty => Err(CertFault::Line { number }),
            Line::Says(statement) => self.take(alloc, number, statement),
        }
    }

    fn take(&mut self, alloc: Global, number: u32, statement: Statement) -> Result<(), CertFault>
        ensures { HasTaken result self.new (take_statement number self.old statement) }
    {
        if !self.may_stand(&statement) {
            return Err(CertFault::Line { number });
        }
        match statement {
            Statement::Certificate(version) => {
                self.take_version(version);
                Ok(())
            }
            Statement::Property(id) => self.take_property(alloc, number, id),
            Statement::Fact { name, claim } => self.take_fact(alloc, number, name, claim),
            Statement::Step(claim) => self.take_step(alloc, number, claim),
            Statement::Proof => {
                self.stage = Stage::Tree;
                Ok(())
            }
            Statement::Node(form) => self.take_node(alloc, number, form),
            Statement::End => {
                self.stage = Stage::Nothing;
                Ok(())
            }
        }
    }

    fn take_version(&mut self, version: Version)
        ensures { self.new ≡ with_version self.old version }
    {
        self.version = version;
        self.stage = match version {
            Version::One => Stage::Property,
            Version::Two => Stage::Facts,
        };
    }

    /// Takes a property that may stand there.
    fn take_property(&mut self, alloc: Global, number: u32, id: Name) -> Result<(), CertFault>
        requires { may_stand self.old (Statement.Property id) ≡ true }
        ensures { HasTaken result self.new (take_statement number self.old (Statement.Property id)) }
    {
        match add_name(alloc, &mut self.ids, &id) {
            Ok(true) => {
                self.begin(alloc, number, id);
                Ok(())
            }
            Ok(false) => Err(CertFault::Repeated { number }),
            Err(Memory) => Err(CertFault::Memory),
        }
    }

    /// Begins the tree of a property whose id is there already.
    fn begin(&mut self, alloc: Global, number: u32, id: Name)
        ensures { self.new ≡ draft_of (stage_behind self.old.version) self.old.version self.old.facts self.old.ids
            self.old.sections (section_of number id []) self.old.opens self.old.nodes }
    {
        self.line = number;
        self.property = id;
        self.tree = Vec::new(alloc);
        self.stage = match self.version {
            Version::One => Stage::Facts,
            Version::Two => Stage::Proof,
        };
    }

    /// Takes a fact that may stand there.
    fn take_fact(
        &mut self,
        alloc: Global,
        number: u32,
        name: Name,
        claim: Claim,
    ) -> Result<(), CertFault>
        requires { may_stand self.old (Statement.Fact name claim) ≡ true }
        ensures { HasTaken result self.new (take_statement number self.old (Statement.Fact name claim)) }
    {
        // The sums come first, so that the name is looked up as it is added, once.
        match claim_has_past_sums(alloc, &claim) {
            Ok(true) => Err(self.fault_of_past_sums(number, &name)),
            Ok(false) => self.add_fact(alloc, number, name, claim),
            Err(Memory) => Err(CertFault::Memory),
        }
    }

    fn fault_of_past_sums(&self, number: u32, name: &Name) -> CertFault
        ensures { result ≡ (if list_any (bytes_eq name.now) (names_of self.now.facts)
            then CertFault.Repeated number
            else CertFault.Coefficient number) }
    {
        if self.facts.has(name) {
            CertFault::Repeated { number }
        } else {
            CertFault::Coefficient { number }
        }
    }

    fn add_fact(
        &mut self,
        alloc: Global,
        number: u32,
        name: Name,
        claim: Claim,
    ) -> Result<(), CertFault>
        ensures { HasTaken result self.new (if list_any (bytes_eq name) (names_of self.old.facts)
            then Err (CertFault.Repeated number)
            else Ok (with_facts self.old (self.old.facts ++ fact_at number name claim ∷ []))) }
    {
        let fact = Fact {
            line: number,
            name,
            kind: kind_of_claim(alloc, claim),
        };
        match self.facts.add(alloc, fact) {
            Ok(true) => Ok(()),
            Ok(false) => Err(CertFault::Repeated { number }),
            Err(Memory) => Err(CertFault::Memory),
        }
    }

    /// Takes a step that may stand there.
    fn take_step(&mut self, alloc: Global, number: u32, claim: StepClaim) -> Result<(), CertFault>
        requires { may_stand self.old (Statement.Step claim) ≡ true }
        ensures { HasTaken result self.new (take_statement number self.old (Statement.Step claim)) }
    {
        if self.facts.has_step(&claim.origin) {
            return Err(CertFault::Repeated { number });
        }
        match is_past(alloc, claim.factors.as_slice()) {
            Ok(true) => return Err(CertFault::Coefficient { number }),
            Ok(false) => {}
            Err(Memory) => return Err(CertFault::Memory),
        }
        match self.add_step(alloc, number, claim) {
            Ok(()) => Ok(()),
            Err(Memory) => Err(CertFault::Memory),
        }
    }

    /// Takes a node that may stand there.
    fn take_node(&mut self, alloc: Global, number: u32, form: NodeForm) -> Result<(), CertFault>
        requires { may_stand self.old (Statement.Node form) ≡ true }
        ensures { HasTaken result self.new (take_statement number self.old (Statement.Node form)) }
    {
        match node_has_past_sums(alloc, &form) {
            Ok(true) => Err(CertFault::Coefficient { number }),
            Ok(false) => self.add_node_within(alloc, number, form),
            Err(Memory) => Err(CertFault::Memory),
        }
    }

    fn may_stand(&self, statement: &Statement) -> bool
        ensures { result ≡ may_stand self.now statement.now }
    {
        match self.stage {
            Stage::Version => matches!(statement, Statement::Certificate(_)),
            Stage::Property => matches!(statement, Statement::Property(_)),
            Stage::Facts => self.may_follow(statement),
            Stage::Proof => matches!(statement, Statement::Proof),
            Stage::Tree => matches!(statement, Statement::Node(_)),
            Stage::Sections => self.may_close(statement),
            Stage::Nothing => false,
        }
    }

    fn may_follow(&self, statement: &Statement) -> bool
        ensures { result ≡ may_follow self.now.version self.now.facts statement.now }
    {
        match statement {
            Statement::Fact { .. } => true,
            Statement::Step(_) => self.facts.takes_steps(),
            Statement::Proof => is_one(self.version),
            Statement::Property(_) | Statement::End => !is_one(self.version),
            _ => false,
        }
    }

    fn may_close(&self, statement: &Statement) -> bool
        ensures { result ≡ may_close self.now.version statement.now }
    {
        match statement {
            Statement::Property(_) => !is_one(self.version),
            Statement::End => true,
            _ => false,
        }
    }

    fn add_node_within(
        &mut self,
        alloc: Global,
        number: u32,
        form: NodeForm,
    ) -> Result<(), CertFault>
        ensures { HasTaken result self.new (if is_past_limits self.old (Statement.Node form)
            then Err (CertFault.CertLimit number)
            else Ok (after number self.old (Statement.Node form))) }
    {
        if self.nodes >= MAX_NODES || self.opens.count() >= MAX_DEPTH {
            return Err(CertFault::CertLimit { number });
        }
        match self.add_node(alloc, number, form) {
            Ok(()) => Ok(()),
            Err(Memory) => Err(CertFault::Memory),
        }
    }

    fn add_step(&mut self, alloc: Global, number: u32, claim: StepClaim) -> Result<(), Memory>
        requires fresh { list_any (same_origin claim.origin) (origins_of (last_fact self.old.facts)) ≡ false }
        requires bound { takes_steps (last_fact self.old.facts) ≡ true }
        ensures { OnOk result (self.new ≡ with_facts self.old (with_step self.old.facts (step_at number claim))) }
    {
        let StepClaim {
            origin: InstanceRef {
                transition,
                binding,
            },
            scale,
            keep,
            factors,
        } = claim;
        let step = Step {
            line: number,
            transition,
            binding,
            scale,
            keep,
            factors,
        };
        self.facts.add_step(alloc, step)
    }

    fn add_node(&mut self, alloc: Global, number: u32, form: NodeForm) -> Result<(), Memory>
        requires { self.old.nodes < 2 ^ 20 }
        ensures { OnOk result (self.new ≡ after number self.old (Statement.Node form)) }
    {
        self.opens.enter(branches_of(&form))?;
        self.tree.push(Node { line: number, form })?;
        self.nodes += 1;
        self.stage = Stage::Tree;
        self.settle(alloc)
    }

    /// Puts the tree behind the others, where it is whole.
    fn settle(&mut self, alloc: Global) -> Result<(), Memory>
        ensures { OnOk result (self.new ≡ settled self.old) }
    {
        if !self.opens.is_empty() {
            return Ok(());
        }
        let section = self.take_section(alloc);
        self.sections.push(section)?;
        self.stage = Stage::Sections;
        Ok(())
    }

    /// The last property with its tree, which is left without one.
    fn take_section(&mut self, alloc: Global) -> Section
        ensures section { result ≡ self.old.current }
        ensures rest { self.new ≡ draft_of self.old.stage self.old.version self.old.facts self.old.ids
            self.old.sections no_section self.old.opens self.old.nodes }
    {
        let mut nodes = mem::replace(&mut self.tree, Vec::new(alloc));
        nodes.shrink_to_fit();
        let section = Section {
            line: self.line,
            property: mem::replace(&mut self.property, Name::empty(alloc)),
            tree: Items::from_vec(nodes),
        };
        self.line = 0;
        section
    }

    /// The certificate, where nothing is to come; `number` is that of the line after the last.
    pub fn finish(self, number: u32) -> Result<Cert, CertFault>
        ensures { result ≡ finished number self }
    {
        match self.stage {
            Stage::Nothing => Ok(self.into_cert()),
            _ => Err(CertFault::Line { number }),
        }
    }

    fn into_cert(self) -> Cert
        ensures { result ≡ cert_of self }
    {
        let Draft {
            version,
            facts,
            sections,
            ..
        } = self;
        Cert {
            version,
            facts: facts.into_items(),
            sections: Items::from_vec(sections),
        }
    }
}

fn is_one(version: Version) -> bool
    ensures { result ≡ is_one version }
{
    matches!(version, Version::One)
}

/// Puts a name behind the others, where none of them is the same; answers whether it did.
fn add_name(alloc: Global, names: &mut IndexSet<Name>, name: &Name) -> Result<bool, Memory>
    ensures is_new { IfOk result (λ added. added ≡ not (list_any (bytes_eq name.now) names.old.keys)) }
    ensures names { IfOk result (λ added. names.new.keys ≡ (if added then names.old.keys ++ name.now ∷ [] else names.old.keys)) }
{
    Ok(names.insert(name.copy(alloc)?)?)
}

fn kind_of_claim(alloc: Global, claim: Claim) -> FactKind
    ensures kind { result ≡ kind_of claim }
    ensures steps { steps_of result ≡ [] }
{
    match claim {
        Claim::Flow(weights) => FactKind::Flow(weights),
        Claim::Trap(places) => FactKind::Trap(places),
        Claim::Bound { limit, weights } => FactKind::Bound {
            limit,
            weights,
            steps: Items::new(alloc),
        },
    }
}

fn branches_of(form: &NodeForm) -> u32
    ensures { result ≡ branches_of form.now }
{
    match form {
        NodeForm::Close(_) | NodeForm::Clash(_) => 0,
        NodeForm::Split { .. } => 2,
        NodeForm::Cases { branches, .. } => *branches,
        NodeForm::Each { .. } => 1,
    }
}

/// Whether the absolute values of the line on one name add up past 2^63 - 1.
fn claim_has_past_sums(alloc: Global, claim: &Claim) -> Result<bool, Memory>
    ensures { IfOk result (λ past. past ≡ are_past (claim_amounts claim.now)) }
{
    match claim {
        Claim::Flow(weights) => is_past(alloc, weights.as_slice()),
        Claim::Trap(_) => Ok(false),
        Claim::Bound { weights, .. } => is_past(alloc, weights.as_slice()),
    }
}

fn node_has_past_sums(alloc: Global, form: &NodeForm) -> Result<bool, Memory>
    ensures { IfOk result (λ past. past ≡ are_past (node_amounts form.now)) }
{
    match form {
        NodeForm::Close(multipliers) => is_past(alloc, multipliers.as_slice()),
        NodeForm::Split { weights, .. } => is_past(alloc, weights.as_slice()),
        _ => Ok(false),
    }
}
