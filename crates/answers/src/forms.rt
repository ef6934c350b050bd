ghost use Rattle.std.specs.Prelude.{◌≡◌, ◌≤◌, Some, None, IfSome, IfNone, length};
ghost use Rattle.answers.specs.Forms.{command_of, form_of, form_with, roles_of, worker_count, workers_of};
ghost use Rattle.answers.specs.Written.{written};

use crate::commands::Command;
use crate::form::Form;
use name_tables::Name;

/// The command that a word stands for.
fn command_of(word: &[u8]) -> Option<Command>
    ensures { result ≡ command_of word.now }
{
    if word == b"canon".as_slice() {
        Some(Command::Canon)
    } else if word == b"check".as_slice() {
        Some(Command::Check)
    } else {
        None
    }
}

/// How many files a command has.
fn file_count(command: Command) -> usize
    ensures { result ≡ length (roles_of command) }
{
    match command {
        Command::Canon => 1,
        Command::Check => 3,
    }
}

/// A number from 1 to 64 without a leading zero.
fn worker_count(text: &[u8]) -> Option<u32>
    ensures { result ≡ worker_count text.now }
{
    match text {
        [c] if b'1' <= *c && *c <= b'9' => Some((*c - b'0') as u32),
        [c, d] if b'1' <= *c && *c <= b'9' && b'0' <= *d && *d <= b'9' => {
            let count = (*c - b'0') as u32 * 10 + (*d - b'0') as u32;
            if count <= 64 { Some(count) } else { None }
        }
        _ => None,
    }
}

/// The number of workers by the words behind the names.
fn workers_of(words: &[Name]) -> Option<u32>
    ensures { result ≡ workers_of words.now }
{
    match words {
        [] => Some(1),
        [option, number] if option.bytes() == b"--workers".as_slice() => {
            worker_count(number.bytes())
        }
        _ => None,
    }
}

/// The form with this command and the words behind its own.
fn form_with(command: Command, words: &[Name]) -> Option<Form<'_>>
    ensures some { IfSome result (λ form. form_with command words.now ≡ Some (written form)) }
    ensures none { IfNone result (form_with command words.now ≡ None) }
{
    let count = file_count(command);
    if words.len() < count {
        return None;
    }
    match workers_of(&words[count..]) {
        Some(workers) => Some(Form {
            command,
            names: &words[..count],
            workers,
        }),
        None => None,
    }
}

/// The form of the words. It takes no memory.
pub fn form_of(words: &[Name]) -> Option<Form<'_>>
    ensures some { IfSome result (λ form. form_of words.now ≡ Some (written form)) }
    ensures none { IfNone result (form_of words.now ≡ None) }
{
    let [word, rest @ ..] = words else {
        return None;
    };
    match command_of(word.bytes()) {
        Some(command) => form_with(command, rest),
        None => None,
    }
}
