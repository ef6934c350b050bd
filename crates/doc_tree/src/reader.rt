ghost use Rattle.std.specs.Prelude.{◌≡◌, ◌++◌, ◌∷◌, ◌<◌, ◌≤◌, ◌+◌, ◌^◌, [], ℕ, List, Some, None, Option, Err, IfOk, IfErr, IfSome, MatchOption, OnOk, length, take};
ghost use Rattle.doc_model.specs.declared.tree.Element.{Element};
ghost use Rattle.doc_tree.specs.Machine.{state};
ghost use Rattle.doc_tree.specs.Fed.{ended_of, fault_of, HasReadBy};
ghost use Rattle.doc_tree.specs.Reading.{FeedAnswer, FinishAnswer};
ghost use Rattle.doc_tree.specs.Readers.{HasRead};
ghost use Rattle.doc_tree.specs.Fed.{joined};

use crate::faults::DocFault;
use crate::places::{Part, Place};
use crate::stack::Stack;
use crate::stepping::advance;
use crate::tokens::take_token;
use doc_model::Element;
use std::alloc::Global;
use wide_sums::Memory;

/// A document is read from pieces, however it is cut, into its tree. No piece is kept.
#[derive(Debug, Drop)]
pub struct Reader {
    alloc: Global,
    place: Place,
    part: Part,
    opens: Stack,
    root: Option<Element>,
    count: u64,
    fault: Option<DocFault>,
}

/// The fault behind a byte at an offset.
fn fault_of(place: &Place, part: Part, opens: &Stack, at: u64) -> Option<DocFault>
    ensures { result ≡ fault_of place.now part opens.now at }
{
    match place {
        Place::Refused(_) => Some(DocFault::Malformed { offset: at }),
        Place::TagName(from, _) => {
            if part == Part::Whole && opens.len() == 256 {
                return Some(DocFault::Deep { offset: *from });
            }
            None
        }
        _ => None,
    }
}

/// The tree, which is taken, where the reader stands behind a whole document.
fn ended_of(place: &Place, part: Part, opens: &Stack, root: &mut Option<Element>) -> Option<Element>
    ensures { result ≡ ended_of (state place.now part opens.now root.old) }
{
    match place {
        Place::Between => {
            if part == Part::Whole && opens.is_empty() {
                return root.take();
            }
            None
        }
        _ => None,
    }
}

impl Reader {
    /// A reader of no bytes yet.
    pub fn new(alloc: Global) -> Result<Reader, Memory>
        ensures read { IfOk result (λ reader. HasRead reader []) }
        ensures count { IfOk result (λ reader. reader.count ≡ 0) }
    {
        Ok(Reader {
            alloc,
            place: Place::Between,
            part: Part::Whole,
            opens: Stack::new(alloc),
            root: None,
            count: 0,
            fault: None,
        })
    }

    /// How many bytes were read. Behind a fault it stands still.
    pub fn count(&self) -> u64
        ensures { result ≡ self.now.count }
    {
        self.count
    }

    /// The next byte, where no fault came.
    fn step(&mut self, byte: u8)
        requires live { self.old.fault ≡ None }
        requires room { self.old.count + 1 < 2 ^ 63 }
        ensures read { (b : List ℕ) → HasRead self.old b → HasRead self.new (b ++ byte ∷ []) }
        ensures count { self.new.count ≤ self.old.count + 1 }
    {
        match advance(
            self.alloc,
            &mut self.opens,
            &mut self.root,
            &mut self.place,
            self.part,
            self.count,
            byte,
        ) {
            Err(Memory) => {
                self.fault = Some(DocFault::Memory);
            }
            Ok(part) => {
                self.fault = fault_of(&self.place, part, &self.opens, self.count);
                self.part = part;
                self.count += 1;
            }
        }
    }

    /// Bytes that are taken in one go, where no fault came, and how many they are. Where memory runs out, there is none.
    fn run(&mut self, bytes: &[u8]) -> Option<usize>
        requires live { self.old.fault ≡ None }
        requires room { self.old.count + length bytes.now < 2 ^ 63 }
        ensures within { IfSome result (λ n. (n ≤ length bytes.now) × (self.new.count ≤ self.old.count + n)) }
        ensures live { IfSome result (λ n. self.new.fault ≡ None) }
        ensures count { self.new.count ≤ self.old.count + length bytes.now }
        ensures read { (b : List ℕ) → HasRead self.old b → MatchOption result (HasRead self.new (b ++ bytes.now)) (λ n. HasRead self.new (b ++ take n bytes.now)) }
    {
        if self.part != Part::Whole {
            return Some(0);
        }
        match take_token(
            self.alloc,
            &mut self.place,
            &mut self.opens,
            &mut self.root,
            self.count,
            bytes,
        ) {
            Err(Memory) => {
                self.fault = Some(DocFault::Memory);
                None
            }
            Ok(count) => {
                self.count += count as u64;
                Some(count)
            }
        }
    }

    /// The bytes of a piece, up to a fault.
    fn read(&mut self, piece: &[u8])
        requires { self.old.count + length piece.now < 2 ^ 63 }
        ensures read { (b : List ℕ) → HasRead self.old b → HasRead self.new (b ++ piece.now) }
        ensures count { self.new.count ≤ self.old.count + length piece.now }
    {
        let mut at = 0;
        while at < piece.len() {
            if self.fault.is_some() {
                return;
            }
            match self.run(&piece[at..]) {
                None => return,
                Some(count) => {
                    if count > 0 {
                        at += count;
                    } else {
                        self.step(piece[at]);
                        at += 1;
                    }
                }
            }
        }
    }

    /// The next bytes. An error is the same from then on, whatever follows, and is that of the whole document: `Malformed` where no
    /// document begins with the bytes up to and with the one at its offset, `Deep` where an element begins there within 256
    /// open ones.
    pub fn feed(&mut self, piece: &[u8]) -> Result<(), DocFault>
        requires { self.old.count + length piece.now < 2 ^ 63 }
        ensures read { (b : List ℕ) → HasRead self.old b → HasRead self.new (b ++ piece.now) }
        ensures answer { (b : List ℕ) → HasRead self.old b → FeedAnswer (b ++ piece.now) result }
        ensures refused { IfErr result (λ fault. self.new.fault ≡ Some fault) }
        ensures again { (fault : DocFault) → self.old.fault ≡ Some fault → result ≡ Err fault }
        ensures count { self.new.count ≤ self.old.count + length piece.now }
    {
        match self.fault {
            None => self.read(piece),
            Some(fault) => return Err(fault),
        }
        match self.fault {
            None => Ok(()),
            Some(fault) => Err(fault),
        }
    }

    /// The tree, which is taken, or the fault.
    fn answer(&mut self) -> Result<Element, DocFault>
        ensures answer { (b : List ℕ) → HasRead self.old b → FinishAnswer b result }
        ensures again { (fault : DocFault) → self.old.fault ≡ Some fault → result ≡ Err fault }
    {
        match self.fault {
            Some(fault) => Err(fault),
            None => match ended_of(&self.place, self.part, &self.opens, &mut self.root) {
                Some(element) => Ok(element),
                None => Err(DocFault::Malformed { offset: self.count }),
            },
        }
    }

    /// The tree of the bytes that were fed. The error of a `feed` is given again; without one, bytes that are no whole document are
    /// `Malformed` at their number.
    pub fn finish(self) -> Result<Element, DocFault>
        ensures answer { (b : List ℕ) → HasRead self b → FinishAnswer b result }
        ensures again { (fault : DocFault) → self.fault ≡ Some fault → result ≡ Err fault }
    {
        let mut reader = self;
        reader.answer()
    }
}

/// The tree of the document that these pieces are, one behind the other.
pub fn read_pieces(alloc: Global, pieces: &[&[u8]]) -> Result<Element, DocFault>
    requires { length (joined pieces.now) < 2 ^ 63 }
    ensures { FinishAnswer (joined pieces.now) result }
{
    let mut reader = match Reader::new(alloc) {
        Ok(reader) => reader,
        Err(Memory) => return Err(DocFault::Memory),
    };
    for piece in pieces {
        // A fault is kept, and `finish` gives it.
        match reader.feed(piece) {
            Ok(()) => {}
            Err(_fault) => {}
        }
    }
    reader.finish()
}
