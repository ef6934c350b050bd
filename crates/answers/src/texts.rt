ghost use Rattle.std.specs.Prelude.{◌≡◌, ◌++◌, ◌∷◌, [], codes, decimal, IfOk, OnOk};
ghost use Rattle.answers.specs.Refusals.{refusal_line, role_word};

use itoa::Buffer;
use pnml_inputs::Role;
use std::alloc::Global;
use wide_sums::Memory;

/// Appends these bytes. [`Memory`] comes for want of memory.
pub fn put(text: &mut Vec<u8>, piece: &[u8]) -> Result<(), Memory>
    ensures { OnOk result (text.new.items ≡ text.old.items ++ piece.now) }
{
    text.extend_from_slice(piece)?;
    Ok(())
}

/// Appends the number in decimal digits. [`Memory`] comes for want of memory.
pub fn put_number(text: &mut Vec<u8>, number: u64) -> Result<(), Memory>
    ensures { OnOk result (text.new.items ≡ text.old.items ++ decimal number) }
{
    put(text, Buffer::new().format(number).as_bytes())
}

/// The word for a file in the line that refuses it.
fn role_word(role: Role) -> &'static [u8]
    ensures { result.now ≡ role_word role }
{
    match role {
        Role::Net => b"net",
        Role::Formula => b"formula",
        Role::Cert => b"certificate",
    }
}

/// The line `refused ROLE WORD`; the word may be several, with spaces between. [`Memory`] comes for want of memory.
pub fn refusal_text(alloc: Global, role: Role, word: &[u8]) -> Result<Vec<u8>, Memory>
    ensures { IfOk result (λ text. text.items ≡ refusal_line role word.now) }
{
    let mut text = Vec::new(alloc);
    put(&mut text, b"refused ")?;
    put(&mut text, role_word(role))?;
    put(&mut text, b" ")?;
    put(&mut text, word)?;
    put(&mut text, b"\n")?;
    Ok(text)
}

/// The line of a file that is longer than the limit. [`Memory`] comes for want of memory.
pub fn too_long_text(alloc: Global, role: Role) -> Result<Vec<u8>, Memory>
    ensures { IfOk result (λ text. text.items ≡ refusal_line role (codes "too-long")) }
{
    refusal_text(alloc, role, b"too-long")
}
