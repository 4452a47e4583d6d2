//! The lines of a script.
use cell_key::{Mutation, Update};
use script_text::{Line, LineError, Lines, SessionStep, parse_line, split_input};
use std::alloc::Global;
use tablet_steps::Event;

/// The word for a line that is no mutation.
fn word_of(line: &Line) -> &'static str {
    match line {
        Line::Nothing => "nothing",
        Line::Scan { families, .. } if families.has(b"b") => "scan",
        Line::Scan { .. } => "scan without b",
        Line::Session {
            step: SessionStep::Open { isolated: true, .. },
            ..
        } => "open isolated",
        Line::Step(Event::Compact { files, .. }) if files.len() == 2 => "compact two",
        _ => "other",
    }
}

/// Whether a line is read as what the word says.
fn is_read(alloc: Global, line: &str, word: &str) -> bool {
    match parse_line(alloc, line.as_bytes()) {
        Ok(line) => word_of(&line) == word,
        Err(LineError::Syntax) => word == "syntax",
        Err(LineError::NoMemory) => false,
    }
}

#[test]
fn lines_are_read(rt: HostRuntime) {
    let lines = [
        (" \t", "nothing"),
        ("  # m r1 +a:x:=1", "nothing"),
        ("\tscan ", "scan"),
        ("scan\r", "syntax"),
        ("scan [r1,r2) fams=a,b", "scan"),
        ("scan (,) fams=a", "scan without b"),
        ("open s64 fams=,b isolated", "open isolated"),
        ("compact j1 f2 f9999999999 f2", "compact two"),
        ("fetch s1 1000000", "other"),
        ("fetch s1 1000001", "syntax"),
        ("m r1 +a:x:", "syntax"),
        ("m r1 +a:x:=\\x4", "syntax"),
        ("m r1 ^9223372036854775808+a:x:=1", "syntax"),
        ("m r1 ^00000000000000000001+a:x:=1", "syntax"),
        ("m r1 ^+a:x:=1", "syntax"),
        ("m r1 ^1-a:x:", "syntax"),
    ];
    for (line, word) in lines {
        assert!(rt; is_read(rt.alloc(), line, word), "at {line:?}");
    }
}

/// Family, qualifier, visibility, a time of its own, and the value of a put.
type Change<'a> = (&'a [u8], &'a [u8], &'a [u8], Option<i64>, Option<&'a [u8]>);

fn is_change(update: &Update, change: &Change<'_>) -> bool {
    let (family, qualifier, visibility, time, value) = *change;
    update.family.bytes() == family
        && update.qualifier.bytes() == qualifier
        && update.visibility.bytes() == visibility
        && update.time == time
        && has_value(update, value)
}

fn has_value(update: &Update, value: Option<&[u8]>) -> bool {
    match (&update.value, value) {
        (Some(own), Some(value)) => own.bytes() == value,
        (None, None) => true,
        _ => false,
    }
}

fn is_mutation(mutation: &Mutation, row: &[u8], changes: &[Change<'_>]) -> bool {
    let updates = mutation.updates.as_slice();
    mutation.row.bytes() == row
        && updates.len() == changes.len()
        && updates
            .iter()
            .zip(changes)
            .all(|(update, change)| is_change(update, change))
}

/// Whether a line is read as the mutation of this row and these changes.
fn mutates(alloc: Global, line: &[u8], row: &[u8], changes: &[Change<'_>]) -> bool {
    match parse_line(alloc, line) {
        Ok(Line::Step(Event::Apply(mutation))) => is_mutation(&mutation, row, changes),
        _ => false,
    }
}

#[test]
fn mutations_are_read(rt: HostRuntime) {
    let lines: [(&[u8], &[u8], &[Change<'_>]); 6] = [
        (b"m r1", b"r1", &[]),
        (
            b"m r1 +a:x:=1",
            b"r1",
            &[(b"a", b"x", b"", None, Some(b"1"))],
        ),
        (
            b"m  r1\t+a:x:=1  -b::w ",
            b"r1",
            &[
                (b"a", b"x", b"", None, Some(b"1")),
                (b"b", b"", b"w", None, None),
            ],
        ),
        (
            b"m r +a:x:v:w=1=2",
            b"r",
            &[(b"a", b"x", b"v:w", None, Some(b"1=2"))],
        ),
        (
            b"m r ^-007+a:x:=1 ^9223372036854775807++::=",
            b"r",
            &[
                (b"a", b"x", b"", Some(-7), Some(b"1")),
                (b"+", b"", b"", Some(i64::MAX), Some(b"")),
            ],
        ),
        (
            b"m \\x20\\x3A +\\x3a:\\x0a:\\x5c=\\x00",
            b" :",
            &[(b":", b"\n", b"\\", None, Some(b"\0"))],
        ),
    ];
    for (i, (line, row, changes)) in lines.iter().enumerate() {
        assert!(rt; mutates(rt.alloc(), line, row, changes), "{i}");
    }
}

/// Whether these are the lines of a script.
fn are_lines(script: &[u8], lines: &[&[u8]]) -> bool {
    let mut rest = Lines::new(script);
    for line in lines {
        if rest.next() != Some(*line) {
            return false;
        }
    }
    rest.next().is_none()
}

#[test]
fn an_input_is_cut(rt: HostRuntime) {
    let (config, script) = split_input(b"a\r\n%% \n%%\r\nscan\r\r\n\n%%\nm r");
    assert!(rt; config == b"a\r\n%% \n".as_slice());
    assert!(rt; are_lines(script, &[b"scan\r", b"", b"%%", b"m r"]));
}
