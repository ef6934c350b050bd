use thiserror::Error;

/// Why bytes were refused as a document.
#[derive(Clone, Copy, Debug, PartialEq, Eq, Error)]
pub enum DocFault {
    /// No document begins with the bytes up to and with the one at this offset, or the bytes end there within a document.
    #[error("no document goes on at offset {offset}")]
    Malformed { offset: u64 },
    /// At this offset begins an element within 256 open ones.
    #[error("the element at offset {offset} is too deep")]
    Deep { offset: u64 },
    /// Memory ran out.
    #[error("out of memory")]
    Memory,
}

/// What is wrong with an element of a tree that was to be a net or a list of properties.
#[derive(Clone, Copy, Debug, PartialEq, Eq)]
pub enum Fault {
    /// It may not stand where it stands.
    Unexpected,
    /// It lacks a child that it must have.
    MissingChild,
    /// It lacks an attribute that it must have.
    MissingAttribute,
    /// Its text or an attribute is to be a number, and is none.
    BadNumber,
    /// Its text or an attribute is to be an id, and is none.
    BadId,
    /// It is a net of a type that isn't known.
    NetType,
    /// It is a second net.
    ManyNets,
    /// Its id was met before.
    DuplicateId,
}
