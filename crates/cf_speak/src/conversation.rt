//! A conversation with one client, line by line.
ghost use Rattle.std.specs.Prelude.{◌≡◌, ◌≢◌, true, false, IfErr, IfOk, IfSome, IsErrOf, OnOk};
ghost use Rattle.std.specs.Prelude.{option_map, string_bytes, []};
ghost use Rattle.std.specs.Io.KnownBytes.{Appends};
ghost use Rattle.cf_queue.specs.Meaning.{meaning};
ghost use Rattle.cf_session.specs.Standing.{is_idle, tables_of, progress_of};
ghost use Rattle.cf_speak.specs.Conversation.{AnswersLine, BreaksOff, BreaksOffFrom, IsNoText, Leaves, ReadsLine};
ghost use Rattle.cf_speak.specs.Conversation.{Speaks, SpeaksFrom, line_of, lines_of};
ghost use Rattle.cf_speak.specs.Scene.{is_over, waits};
ghost use Rattle.cf_speak.specs.Shown.{scene_of};

use crate::epochs::GivenEpochs;
use crate::error::SpeakError;
use crate::local_node::LocalNode;
use cf_protocol::{Namespaces, Tokens, close_reason};
use cf_queue::Out;
use cf_session::{CommandExecutor, Session, serve_text};
use std::alloc::{AllocError, Global};
use std::io::{BufRead, Write};
use std::str;

/// The most lines of one conversation. An input that goes on after these has failed.
const MAX_LINES: u64 = 4_294_967_296;

/// What a conversation is set up with: the namespaces, who connects by which token, and the epochs of new streams, in
/// order.
#[derive(Drop)]
pub struct SpeakSetup {
    pub namespaces: Namespaces,
    pub tokens: Tokens,
    pub epochs: GivenEpochs,
}

/// Each line of the input is a text of one client, and what the client gets is written, a line for each text. A close
/// ends the conversation.
pub fn converse<R: BufRead, W: Write>(
    alloc: Global,
    reader: &mut R,
    writer: &mut W,
    setup: SpeakSetup,
) -> Result<(), SpeakError>
    ensures done { OnOk result (IfSome (R.remaining reader.old) (λ input.
        Speaks (record { namespaces = setup.namespaces; tokens = setup.tokens }) setup.epochs input
        (W.contents writer.old) (W.contents writer.new))) }
    // What isn't UTF-8 is met at its line, after what the earlier lines gave.
    ensures not_utf8 { IsErrOf result SpeakError.NotUtf8
        → IfSome (R.remaining reader.old)
        (λ input. BreaksOff
        (record { namespaces = setup.namespaces; tokens = setup.tokens }) setup.epochs
        input (W.contents writer.old) (W.contents writer.new)) }
{
    let SpeakSetup {
        namespaces,
        tokens,
        epochs,
    } = setup;
    let mut node = LocalNode::new(alloc, &namespaces, epochs)?;
    let mut session = Session::new(alloc, &namespaces, &tokens);
    serve_lines(alloc, reader, writer, &mut session, &mut node)
}

// Serves the lines that are left, up to a close.
fn serve_lines<R: BufRead, W: Write>(
    alloc: Global,
    reader: &mut R,
    writer: &mut W,
    session: &mut Session<'_>,
    node: &mut LocalNode,
) -> Result<(), SpeakError>
    requires idle { is_idle session.old ≡ true }
    requires stands { is_over (scene_of node.old) ≡ false }
    requires tables { (scene_of node.old).streams.namespaces ≡ (tables_of session.old).namespaces }
    ensures done { OnOk result (IfSome (R.remaining reader.old) (λ input.
        SpeaksFrom (tables_of session.old) (progress_of session.old) (scene_of node.old) input
        (W.contents writer.old) (W.contents writer.new))) }
    ensures not_utf8 { IsErrOf result SpeakError.NotUtf8 → IfSome (R.remaining reader.old) (λ input.
        BreaksOffFrom (tables_of session.old) (progress_of session.old) (scene_of node.old) input
        (W.contents writer.old) (W.contents writer.new)) }
{
    for _ in 0..MAX_LINES {
        let Some(line) = read_line(alloc, reader)? else {
            return Ok(());
        };
        answer(alloc, session, node, line.as_slice(), writer)?;
        if node.is_closed() {
            return Ok(());
        }
    }
    Err(SpeakError::InputOutput)
}

// The next line without its line feed, if there is one.
fn read_line<R: BufRead>(alloc: Global, reader: &mut R) -> Result<Option<Vec<u8>>, SpeakError>
    ensures line { IfOk result
        (λ line. ReadsLine (R.remaining reader.old) (R.remaining reader.new)
        (option_map (λ v. v.items) line)) }
    ensures outside { IfErr result (λ fault. fault ≢ SpeakError.NotUtf8) }
{
    let mut line = Vec::new(alloc);
    if reader.read_until(b'\n', &mut line)? == 0 {
        return Ok(None);
    }
    if line.last() == Some(&b'\n') {
        line.pop();
    }
    Ok(Some(line))
}

// Carries out one line, and writes what the client gets by it.
fn answer<W: Write>(
    alloc: Global,
    session: &mut Session<'_>,
    node: &mut LocalNode,
    line: &[u8],
    writer: &mut W,
) -> Result<(), SpeakError>
    requires idle { is_idle session.old ≡ true }
    requires stands { is_over (scene_of node.old) ≡ false }
    requires tables { (scene_of node.old).streams.namespaces ≡ (tables_of session.old).namespaces }
    ensures answers { OnOk result
        (AnswersLine (tables_of session.old) (progress_of session.old) (scene_of node.old)
        line.now (scene_of node.new) (progress_of session.new) (W.contents writer.old)
        (W.contents writer.new)) }
    ensures not_utf8 { IsErrOf result SpeakError.NotUtf8 →
        IsNoText line.now × (W.contents writer.new ≡ W.contents writer.old) }
    ensures idle { OnOk result (is_over (scene_of node.new) ≡ false → is_idle session.new ≡ true) }
    ensures tables { OnOk result (tables_of session.new ≡ tables_of session.old) }
    ensures namespaces { OnOk result
        ((scene_of node.new).streams.namespaces ≡ (tables_of session.new).namespaces) }
{
    let Ok(text) = str::from_utf8(line) else {
        return Err(SpeakError::NotUtf8);
    };
    serve_text(session, node, text);
    if session.short() {
        return Err(SpeakError::Memory);
    }
    if node.is_out_of_memory() {
        return Err(SpeakError::Memory);
    }
    write_waiting(alloc, node, writer)?;
    writer.flush()?;
    Ok(())
}

// Writes all that waits for the client.
fn write_waiting<W: Write>(
    alloc: Global,
    node: &mut LocalNode,
    writer: &mut W,
) -> Result<(), SpeakError>
    ensures written { OnOk result
        (Appends (W.contents writer.old) (W.contents writer.new)
        (lines_of (waits (scene_of node.old)))) }
    ensures drained { OnOk result (Leaves [] (scene_of node.old) (scene_of node.new)) }
    ensures outside { IfErr result (λ fault. fault ≢ SpeakError.NotUtf8) }
{
    while let Some(out) = node.take() {
        write_one(alloc, writer, out)?;
    }
    match node.turned_away() {
        Some(code) => write_one(alloc, writer, Out::Close(code.code())),
        None => Ok(()),
    }
}

fn write_one<W: Write>(alloc: Global, writer: &mut W, out: Out) -> Result<(), SpeakError>
    ensures written { OnOk result
        (Appends (W.contents writer.old) (W.contents writer.new) (line_of (meaning out))) }
    ensures outside { IfErr result (λ fault. fault ≢ SpeakError.NotUtf8) }
{
    let line = line_of(alloc, out)?;
    writer.write_all(line.as_bytes())?;
    Ok(())
}

// The line that tells of a text or a close.
fn line_of(alloc: Global, out: Out) -> Result<String, AllocError>
    ensures { IfOk result (λ line. string_bytes line ≡ line_of (meaning out)) }
{
    match out {
        Out::Text(text) => format!(in alloc; "{text}\n"),
        Out::Close(code) => {
            let reason = close_reason(code);
            format!(in alloc; "close {code} {reason}\n")
        }
    }
}
