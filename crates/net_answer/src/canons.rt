ghost use Rattle.std.specs.Prelude.{◌≡◌, ◌≤◌, IfOk};
ghost use Rattle.pnml_inputs.specs.Answers.{IsQuiet, ReadsBy};
ghost use Rattle.pnml_inputs.specs.Reading.{file_reading};
ghost use Rattle.net_answer.specs.Canons.{IsCanon, canon_of, canon_of_net};

use crate::documents::document;
use crate::nets::net_of_tree;
use answers::{Reply, Stage, Verdict};
use doc_tree::Element;
use host_io::Files;
use name_tables::Name;
use net_model::Net;
use pnml_inputs::{Role, Source, Stop, new_buffer};
use pnml_write::write_net;
use std::alloc::Global;
use wide_sums::Memory;

/// What `canon` says of a net: its canonical text.
fn canon_of_net(alloc: Global, net: &Net) -> Result<Reply, Memory>
    ensures { IfOk result (λ reply. (reply.verdict, reply.text.items) ≡ canon_of_net net.now) }
{
    let text = write_net(alloc, net)?;
    Ok(Reply {
        verdict: Verdict::Done,
        text,
    })
}

/// What `canon` says of a tree, which is let go.
fn canon_of_tree(alloc: Global, root: Element) -> Result<Reply, Memory>
    ensures { IfOk result (λ reply. (reply.verdict, reply.text.items) ≡ canon_of (Stage.Reached root)) }
{
    match net_of_tree(alloc, root)? {
        Stage::Reached(net) => canon_of_net(alloc, &net),
        Stage::Refused(refusal) => refusal.reply(alloc),
    }
}

/// What `canon` says of a file by what its bytes come to as a document.
fn canon_of(alloc: Global, document: Stage<Element>) -> Result<Reply, Memory>
    ensures { IfOk result (λ reply. (reply.verdict, reply.text.items) ≡ canon_of document) }
{
    match document {
        Stage::Reached(root) => canon_of_tree(alloc, root),
        Stage::Refused(refusal) => refusal.reply(alloc),
    }
}

/// What `canon` says of the net file with this name, which is read through one buffer: the canonical text of its net; or the line
/// `refused net malformed` or `refused net deep` with the offset, where the bytes are no document; or `refused net structure` with
/// the offset of the first element that breaks a rule, and the rule.
///
/// Where it is told which names are held, the answer is that to the bytes of the file, or [`Stop::TooLong`] of the net.
/// [`Stop::Fault`] comes only where the count of faults rose in this call or the name isn't held, and [`Stop::Memory`] for want
/// of memory.
pub fn canon<F: Files>(alloc: Global, net: &Name, files: &mut F) -> Result<Reply, Stop>
    ensures same { F.held files.new ≡ F.held files.old }
    ensures later { F.faults files.old ≤ F.faults files.new }
    ensures quiet { IsQuiet (F.faults files.old) (F.faults files.new) result }
    ensures read { ReadsBy (λ bytes reply. IsCanon bytes reply.verdict reply.text.items) (F.held files.old)
        (file_reading Role.Net net.now) (F.faults files.old) (F.faults files.new) result }
{
    let mut buffer = match new_buffer(alloc) {
        Ok(buffer) => buffer,
        Err(_) => return Err(Stop::Memory),
    };
    let source = Source {
        role: Role::Net,
        name: net,
    };
    let document = match document(alloc, source, files, &mut buffer) {
        Ok(document) => document,
        Err(stop) => return Err(stop),
    };
    match canon_of(alloc, document) {
        Ok(reply) => Ok(reply),
        Err(Memory) => Err(Stop::Memory),
    }
}
