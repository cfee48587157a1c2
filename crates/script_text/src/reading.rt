//! Reading scripts. A line is taken only where it is the line of the command that was read from it.

ghost use Rattle.std.specs.Prelude.{◌≡◌, ◌↔◌, IsTrue, ◌∷◌, ◌++◌, [], ◌<◌, ◌^◌, ℕ, List, Ok, codes, length, true, IfOk, MatchResult, decimal};
ghost use Rattle.cell_spec.specs.declared.edit.Edit.{Edit};
ghost use Rattle.s57_types.specs.declared.record.Rec.{Rec};
ghost use Rattle.text_spec.specs.EditLine.{has_line, record_has_line, record_words};
ghost use Rattle.text_spec.specs.Lines.{spaced_words};
ghost use Rattle.text_spec.specs.ScriptLines.{command_line, is_skipped as spec_is_skipped, IsCommand};
ghost use Rattle.text_spec.specs.declared.command.Command.{Command};
ghost use Rattle.script_text.specs.Faults.{IsCommandWord};
ghost use Rattle.script_text.specs.Guess.{HasLine, can_stand as spec_can_stand, first_word, other_words, IsReadOf};
ghost use Rattle.script_text.specs.Reading.{IsOnlyReading, IsScriptRefusal};
ghost use Rattle.script_text.specs.Steps.{first_refusal, IsFirstRefusal, IsFormFault, IsLineRead, IsLineRefusal, IsNotTaken, IsTaken};
ghost use Rattle.script_text.specs.Widths.{IsRecordOfWidth};

use crate::cut::{cut_at, next_part};
use crate::feature::feature_of;
use crate::head::head_edit_of;
use crate::refusal::{LineFault, LineRefusal, ScriptRefusal};
use crate::script::{MOST_COMMANDS, Script};
use crate::spelling::{can_stand, is_feature, is_head, push_line};
use crate::value::{is_word, kind_of_words, name_of_words, number_of};
use crate::vector::vector_of;
use cell_spec::Edit;
use s57_types::Rec;
use std::alloc::{AllocError, Global};
use text_spec::Command;

/// The command that words stand for, the others behind spaces. Words that stand for none give some command.
///
/// An `Err` means out of memory.
fn command_of(alloc: Global, first: &[u8], others: &[u8]) -> Result<Command, AllocError>
    ensures width { IfOk result (λ command. spec_can_stand command ≡ true → IsCommand command) }
    ensures found { (command : Command) → IsCommand command → first.now ≡ first_word command
        → others.now ≡ spaced_words (other_words command) → IfOk result (λ read. read ≡ command) }
{
    if is_word(first, "view") {
        return Ok(Command::View);
    }
    if is_word(first, "commit") {
        return Ok(Command::Commit);
    }
    if is_word(first, "drop") {
        return Ok(Command::Drop);
    }
    if is_word(first, "list") {
        return Ok(Command::List(number_of_words(others)));
    }
    if is_word(first, "guard") {
        return Ok(Command::Guard(name_of_words(others)));
    }
    Ok(Command::Push(edit_of(alloc, first, others)?))
}

/// The number that is the one word.
fn number_of_words(words: &[u8]) -> u32
    ensures { (number : ℕ) → number < 2 ^ 32 → words.now ≡ spaced_words (decimal number ∷ []) → result ≡ number }
{
    let (number, _) = next_part(b' ', words);
    number_of(number)
}

/// The edit that words stand for.
///
/// An `Err` means out of memory.
fn edit_of(alloc: Global, first: &[u8], others: &[u8]) -> Result<Edit, AllocError>
    ensures width { IfOk result (λ edit. has_line edit ≡ true → IsCommand (Command.Push edit)) }
    ensures found { (edit : Edit) → IsCommand (Command.Push edit) → first.now ≡ first_word (Command.Push edit)
        → others.now ≡ spaced_words (other_words (Command.Push edit)) → IfOk result (λ read. read ≡ edit) }
{
    if is_word(first, "add") {
        return Ok(Edit::Add(record_of(alloc, others)?));
    }
    if is_word(first, "set") {
        return set_of(alloc, others);
    }
    Ok(Edit::Del(name_of_words(others)))
}

/// The edit that the words behind `set` stand for: of the head, or of another record.
///
/// An `Err` means out of memory.
fn set_of(alloc: Global, words: &[u8]) -> Result<Edit, AllocError>
    ensures width { IfOk result (λ edit. has_line edit ≡ true → IsCommand (Command.Push edit)) }
    ensures found { (edit : Edit) → IsCommand (Command.Push edit) → first_word (Command.Push edit) ≡ codes "set"
        → words.now ≡ spaced_words (other_words (Command.Push edit)) → IfOk result (λ read. read ≡ edit) }
{
    if is_head(kind_of_words(words)) {
        return Ok(Edit::Head(head_edit_of(alloc, words)?));
    }
    Ok(Edit::Set(record_of(alloc, words)?))
}

/// The record that words stand for.
///
/// An `Err` means out of memory.
fn record_of(alloc: Global, words: &[u8]) -> Result<Rec, AllocError>
    ensures width { IfOk result IsRecordOfWidth }
    ensures found { (rec : Rec) → IsRecordOfWidth rec → record_has_line rec ≡ true → words.now ≡ spaced_words (record_words rec)
        → IfOk result (λ read. read ≡ rec) }
{
    if is_feature(kind_of_words(words)) {
        return Ok(Rec::F(feature_of(alloc, words)?));
    }
    Ok(Rec::V(vector_of(alloc, words)?))
}

/// The command that a line is of, if it is of a command, and some command else.
///
/// An `Err` means out of memory.
fn guess(alloc: Global, line: &[u8]) -> Result<Command, AllocError>
    ensures width { IfOk result (λ command. spec_can_stand command ≡ true → IsCommand command) }
    ensures found { (command : Command) → IsCommand command → command_line command ≡ line.now → IfOk result (λ read. read ≡ command) }
{
    match line.split_last() {
        Some((_, text)) => {
            let (first, others) = cut_at(b' ', text);
            command_of(alloc, first, others)
        }
        None => Ok(Command::View),
    }
}

/// Whether a command may stand in a script and has this line.
///
/// An `Err` means out of memory.
fn has_this_line(alloc: Global, command: &Command, line: &[u8]) -> Result<bool, AllocError>
    ensures { IfOk result (λ same. IsTrue same ↔ HasLine line.now command.now) }
{
    if !can_stand(command) {
        return Ok(false);
    }
    let mut spelled = Vec::with_capacity(alloc, line.len())?;
    push_line(alloc, command, &mut spelled)?;
    Ok(spelled.as_slice() == line)
}

/// The command that has this line, the line feed included, if there is one.
///
/// An `Err` means out of memory.
pub fn read_command(alloc: Global, line: &[u8]) -> Result<Option<Command>, AllocError>
    ensures { IfOk result (IsReadOf line.now) }
{
    let command = guess(alloc, line)?;
    let same = has_this_line(alloc, &command, line)?;
    Ok(same.then_some(command))
}

/// Whether a line is passed over: an empty one, and one that begins with a number sign.
fn is_skipped(line: &[u8]) -> bool
    ensures { result ≡ spec_is_skipped line.now }
{
    match line.first() {
        Some(byte) => *byte == b'#',
        None => true,
    }
}

/// Whether a word is the first of a command's line.
fn is_command_word(word: &[u8]) -> bool
    ensures { IsTrue result ↔ IsCommandWord word.now }
{
    if is_word(word, "view") {
        return true;
    }
    if is_word(word, "commit") {
        return true;
    }
    if is_word(word, "drop") {
        return true;
    }
    if is_word(word, "list") {
        return true;
    }
    if is_word(word, "guard") {
        return true;
    }
    if is_word(word, "del") {
        return true;
    }
    if is_word(word, "add") {
        return true;
    }
    is_word(word, "set")
}

/// What is wrong with a line that is of no command.
fn form_fault(text: &[u8]) -> LineFault
    ensures { IsFormFault text.now result }
{
    let (first, _) = cut_at(b' ', text);
    if is_command_word(first) {
        LineFault::WrongForm
    } else {
        LineFault::UnknownWord
    }
}

/// Takes a line into a script. The text is the line without its line feed.
fn take_command(
    alloc: Global,
    text: &[u8],
    line: &[u8],
    script: &mut Script,
) -> Result<(), LineRefusal>
    requires { line.now ≡ text.now ++ 10 ∷ [] }
    ensures { MatchResult result (λ _. IsTaken text.now script.old script.new) (λ refusal. IsNotTaken text.now script.old refusal) }
{
    let Some(command) = read_command(alloc, line)? else {
        return Err(LineRefusal::Fault(form_fault(text)));
    };
    if script.commands().len() >= MOST_COMMANDS {
        return Err(LineRefusal::Fault(LineFault::TooManyCommands));
    }
    script.push(command)?;
    Ok(())
}

/// Takes the first line of a text into a script, and gives what follows it.
fn take_line<'a>(
    alloc: Global,
    text: &'a [u8],
    script: &mut Script,
) -> Result<&'a [u8], LineRefusal>
    requires { 0 < length text.now }
    ensures read { MatchResult result (λ rest. IsLineRead text.now rest.now script.old script.new) (IsLineRefusal (length script.old) text.now) }
    ensures shorter { IfOk result (λ rest. length rest.now < length text.now) }
{
    let (front, _) = cut_at(b'\n', text);
    if front.len() == text.len() {
        return Err(LineRefusal::Fault(LineFault::NoLineFeed));
    }
    let (line, rest) = text.split_at(front.len() + 1);
    if is_skipped(front) {
        return Ok(rest);
    }
    take_command(alloc, front, line, script)?;
    Ok(rest)
}

/// Why a text wasn't read: its first fault, or out of memory.
#[derive(Clone, Copy)]
pub(crate) enum FirstRefusal {
    Fault { line: usize, code: u8 },
    NoMemory,
}

/// A line's refusal, with the number of the line.
fn refusal_at(line: usize, refusal: LineRefusal) -> FirstRefusal
    ensures { result ≡ first_refusal line refusal }
{
    match refusal {
        LineRefusal::Fault(fault) => FirstRefusal::Fault {
            line,
            code: fault.code(),
        },
        LineRefusal::NoMemory => FirstRefusal::NoMemory,
    }
}

/// The script that a text is, or why it is none.
pub(crate) fn read_lines(alloc: Global, bytes: &[u8]) -> Result<Script, FirstRefusal>
    ensures { MatchResult result (λ script. IsOnlyReading bytes.now (Ok script)) (IsFirstRefusal bytes.now) }
{
    let mut script = Script::make(alloc);
    let mut rest = bytes;
    let mut count: usize = 0;
    while !rest.is_empty() {
        rest = match take_line(alloc, rest, &mut script) {
            Ok(behind) => behind,
            Err(refusal) => return Err(refusal_at(count + 1, refusal)),
        };
        count += 1;
    }
    Ok(script)
}

/// The script that a text is: a line for each command, and lines that are passed over, which are empty or begin with a
/// number sign.
///
/// An `Err` is the first fault, or out of memory.
pub fn read_script(alloc: Global, bytes: &[u8]) -> Result<Script, ScriptRefusal>
    requires { length bytes.now < 2 ^ 32 }
    ensures { MatchResult result (λ script. IsOnlyReading bytes.now (Ok script)) (IsScriptRefusal bytes.now) }
{
    match read_lines(alloc, bytes) {
        Ok(script) => Ok(script),
        Err(FirstRefusal::Fault { line, code }) => Err(ScriptRefusal::Fault {
            line: line as u32,
            code,
        }),
        Err(FirstRefusal::NoMemory) => Err(ScriptRefusal::NoMemory),
    }
}
