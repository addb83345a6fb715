//! Why a line of a schedule is unreadable.
ghost use Rattle.std.specs.Prelude.{IfOk, MatchOption};
ghost use Rattle.cf_explain.specs.Unreadable.{IsReadable};
ghost use Rattle.cf_schedule.specs.LineRead.{IsNone};
ghost use Rattle.cf_schedule.specs.ScheduleLine.{Says};

use cf_schedule::{Event, EventFault};
use std::alloc::{AllocError, Global};
use thiserror::Error;

/// What is wrong with a line that is none of a schedule's.
#[derive(Clone, Copy, Debug, Drop, PartialEq, Eq, Error)]
pub enum LineError {
    #[error("a byte order mark stands before it")]
    Mark,
    #[error("it ends in a carriage return: lines end in a line feed alone")]
    CarriageReturn,
    #[error("it begins with a space")]
    SpaceFirst,
    #[error("two spaces stand together, or one at its end: words are separated by one")]
    Spaces,
    #[error("no event begins with its first word")]
    Word,
    /// It has more or fewer words than this form of its event.
    #[error("it is not `{form}`: a word is missing, or one is too many")]
    Form {
        form: &'static str,
    },
    /// One word of the form breaks this rule.
    #[error("in `{form}`, {rule}")]
    Part {
        form: &'static str,
        rule: &'static str,
    },
}

/// A word of a form: what it has to be, and what stands before it and behind it in a line of which all else is right.
#[derive(Clone, Copy)]
struct LinePart {
    rule: &'static str,
    before: &'static str,
    behind: &'static str,
}

/// What is wrong with a line, for a schedule over `nodes` nodes. None if it is one of a schedule's, or is passed over.
pub fn line_fault(alloc: Global, line: &str, nodes: u8) -> Result<Option<LineError>, AllocError>
    ensures { IfOk result (λ o. MatchOption o (IsReadable nodes line.now)
        (λ _. IsNone (Says nodes line.now))) }
{
    match Event::read(alloc, line, nodes) {
        Ok(None) => Ok(None),
        Ok(Some(_)) => Ok(None),
        Err(EventFault::Memory) => Err(AllocError),
        Err(EventFault::Unreadable) => match fault_of(alloc, line, nodes) {
            Ok(fault) => Ok(Some(fault)),
            Err(refused) => Err(refused),
        },
    }
}

// What is wrong with a line that is unreadable.
fn fault_of(alloc: Global, line: &str, nodes: u8) -> Result<LineError, AllocError> {
    if line.starts_with('\u{feff}') {
        return Ok(LineError::Mark);
    }
    if line.starts_with(' ') {
        return Ok(LineError::SpaceFirst);
    }
    if let Some(front) = line.strip_suffix('\r') {
        if is_readable(alloc, front, nodes)? {
            return Ok(LineError::CarriageReturn);
        }
    }
    match form_of(cut(line).0) {
        None => Ok(LineError::Word),
        Some(form) => fault_in(alloc, form, line, nodes),
    }
}

// What is wrong with an unreadable line whose event has this form.
fn fault_in(
    alloc: Global,
    form: &'static str,
    line: &str,
    nodes: u8,
) -> Result<LineError, AllocError> {
    let mut rest = Some(line);
    for name in form.split(' ') {
        let Some(left) = rest else {
            return Ok(LineError::Form { form });
        };
        let (text, more) = if name == "DATA" {
            (left, None)
        } else {
            cut(left)
        };
        if let Some(rule) = broken(alloc, name, text, nodes)? {
            return Ok(if text.is_empty() {
                LineError::Spaces
            } else {
                LineError::Part { form, rule }
            });
        }
        rest = more;
    }
    Ok(match rest {
        Some("") => LineError::Spaces,
        _ => LineError::Form { form },
    })
}

// What stands before the first space, and behind it, if there is one.
fn cut(text: &str) -> (&str, Option<&str>) {
    match text.split_once(' ') {
        Some((word, rest)) => (word, Some(rest)),
        None => (text, None),
    }
}

// The rule that a text breaks as the word of a form that has this name.
fn broken(
    alloc: Global,
    name: &str,
    text: &str,
    nodes: u8,
) -> Result<Option<&'static str>, AllocError> {
    let Some(
        LinePart {
            rule,
            before,
            behind,
        },
    ) = part_of(name)
    else {
        return Ok(None);
    };
    let probe = format!(in alloc; "{before}{text}{behind}")?;
    let is_right = is_readable(alloc, probe.as_str(), nodes)?;
    Ok(if is_right { None } else { Some(rule) })
}

fn is_readable(alloc: Global, line: &str, nodes: u8) -> Result<bool, AllocError> {
    match Event::read(alloc, line, nodes) {
        Ok(_) => Ok(true),
        Err(EventFault::Unreadable) => Ok(false),
        Err(EventFault::Memory) => Err(AllocError),
    }
}

// The form of the lines that begin with this word.
fn form_of(word: &str) -> Option<&'static str> {
    let form = match word {
        "epoch" => "epoch E",
        "connect" => "connect X N",
        "ask" => "ask X C",
        "askfrom" => "askfrom X C",
        "read" => "read X C",
        "finish" => "finish X C",
        "leave" => "leave X C",
        "check" => "check X C",
        "publish" => "publish C DATA",
        "publishkey" => "publishkey C KEY DATA",
        "put" => "put X C DATA",
        "putkey" => "putkey X C KEY DATA",
        "deliver" => "deliver N I",
        "take" => "take X",
        "break" => "break X",
        "trim" => "trim C K",
        "forget" => "forget C",
        "size" => "size NAME=K",
        "restart" => "restart N",
        "list" => "list X C LIMIT",
        "brokerrestart" => "brokerrestart",
        _ => return None,
    };
    Some(form)
}

// A word of a form by its name. None for the event's own word.
fn part_of(name: &str) -> Option<LinePart> {
    let (rule, before, behind) = match name {
        "E" => ("E is not 1 to 32 ASCII letters or digits", "epoch ", ""),
        "X" => (
            "X is not 1 to 32 ASCII letters, digits, `-` or `_`",
            "take ",
            "",
        ),
        "C" => ("C is not 1 to 255 visible ASCII characters", "forget ", ""),
        "N" => (
            "N is not a node's number: nodes are counted from 0 up to --nodes less 1",
            "restart ",
            "",
        ),
        "I" => (
            "I is not a whole number of digits alone, without leading zeros",
            "deliver 0 ",
            "",
        ),
        "K" => (
            "K is not a whole number from 0 to 10000, without leading zeros",
            "trim c ",
            "",
        ),
        "LIMIT" => (
            "LIMIT is not a whole number from -2147483648 to 2147483647",
            "list x c ",
            "",
        ),
        "KEY" => (
            "KEY is not 1 to 64 visible ASCII characters",
            "publishkey c ",
            " 1",
        ),
        "DATA" => (
            "DATA is not one JSON value, at most 60 deep",
            "publish c ",
            "",
        ),
        "NAME=K" => (
            "NAME is not at most 32 ASCII letters, digits, `-` or `_`, or K is not 1 to 10000 without leading zeros",
            "size ",
            "",
        ),
        _ => return None,
    };
    Some(LinePart {
        rule,
        before,
        behind,
    })
}
