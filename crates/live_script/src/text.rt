//! The text of a run.
ghost use Rattle.std.specs.Prelude.{◌≡◌, ◌≤◌, ◌++◌, ◌∷◌, List, map, OnOk, IfOk};
ghost use Rattle.script_text.specs.Answers.{entry_lines};
ghost use Rattle.script_text.specs.StatusAnswers.{frozen_line, log_line, memory_line};
ghost use Rattle.tablet_steps.specs.ModelSteps.{model_answer_of};
ghost use Rattle.tablet_replay.specs.StatusText.{count_lines, piece_text, pieces_text};
ghost use Rattle.live_script.specs.declared.script.LineKind.{LineKind};
ghost use Rattle.live_script.specs.declared.script.LineKind.TheVariants.{Mutation};
ghost use Rattle.live_script.specs.Texts.{fetches_text, final_text, lines_text, mode_word, numbered_text, scanner_text, walk_text};

use crate::script::LineKind;
use cell_key::{ByteText, Entries, NoMemory};
use live_tablet::{LiveRun, ScannerWalks, Walk};
use scan_session::{Fetched, Piece};
use script_text::{append_at, append_end, append_entry, append_frozen, append_log, append_memory};
use std::alloc::Global;
use tablet_core::Answer;
use tablet_replay::append_files;
use tablet_steps::{LineRefusal, append_numbered};

/// Appends the first of these answers, if there is one. What is left are the later ones.
#[tactic(auto, using(crate::proofs::Texts::first_said, crate::proofs::Texts::none_said))]
fn append_first<'a>(
    alloc: Global,
    text: &mut ByteText,
    answers: &'a [Answer],
) -> Result<&'a [Answer], NoMemory>
    ensures { IfOk result (λ later. (kinds : List LineKind) →
        text.new ++ lines_text kinds (map model_answer_of later.now) ≡ text.old ++ lines_text (Mutation ∷ kinds) (map model_answer_of answers.now)) }
{
    let Some((answer, later)) = answers.split_first() else {
        return Ok(answers);
    };
    answer.append(alloc, text)?;
    Ok(later)
}

/// Appends the answer to a line of a kind: the first of these answers, where the line is a mutation. What is left are the answers to the
/// later lines.
fn append_line<'a>(
    alloc: Global,
    text: &mut ByteText,
    kind: LineKind,
    answers: &'a [Answer],
) -> Result<&'a [Answer], NoMemory>
    ensures { IfOk result (λ later. (kinds : List LineKind) →
        text.new ++ lines_text kinds (map model_answer_of later.now) ≡ text.old ++ lines_text (kind ∷ kinds) (map model_answer_of answers.now)) }
{
    match kind {
        LineKind::Mutation => append_first(alloc, text, answers),
        LineKind::Nothing => Ok(answers),
        LineKind::Other => {
            text.append(b"no live\n")?;
            Ok(answers)
        }
        LineKind::Unread => {
            LineRefusal::Syntax.append(alloc, text)?;
            Ok(answers)
        }
    }
}

/// Appends the answers to lines of these kinds, where these are the answers to the mutations among them.
fn append_lines(
    alloc: Global,
    text: &mut ByteText,
    kinds: &[LineKind],
    answers: &[Answer],
) -> Result<(), NoMemory>
    ensures { OnOk result (text.new ≡ text.old ++ lines_text kinds.now (map model_answer_of answers.now)) }
{
    let mut answers = answers;
    for kind in kinds {
        answers = append_line(alloc, text, *kind, answers)?;
    }
    Ok(())
}

fn append_entries(alloc: Global, text: &mut ByteText, entries: &Entries) -> Result<(), NoMemory>
    ensures { OnOk result (text.new ≡ text.old ++ entry_lines entries.now) }
{
    for entry in entries.as_slice() {
        append_entry(alloc, text, entry.entry())?;
    }
    Ok(())
}

fn append_piece(alloc: Global, text: &mut ByteText, piece: &Piece) -> Result<(), NoMemory>
    ensures { OnOk result (text.new ≡ text.old ++ piece_text piece.now) }
{
    append_at(alloc, text, piece.n)?;
    append_entries(alloc, text, &piece.entries)
}

fn append_pieces(alloc: Global, text: &mut ByteText, pieces: &[Piece]) -> Result<(), NoMemory>
    ensures { OnOk result (text.new ≡ text.old ++ pieces_text pieces.now) }
{
    for piece in pieces {
        append_piece(alloc, text, piece)?;
    }
    Ok(())
}

fn append_fetches(alloc: Global, text: &mut ByteText, fetches: &[Fetched]) -> Result<(), NoMemory>
    ensures { OnOk result (text.new ≡ text.old ++ fetches_text fetches.now) }
{
    for fetched in fetches {
        append_pieces(alloc, text, fetched.pieces.as_slice())?;
    }
    Ok(())
}

fn append_walk(alloc: Global, text: &mut ByteText, walk: &Walk) -> Result<(), NoMemory>
    ensures { OnOk result (text.new ≡ text.old ++ walk_text walk.now) }
{
    append_fetches(alloc, text, walk.fetches.as_slice())?;
    append_end(alloc, text, walk.end)
}

fn mode_word(number: u64) -> &'static [u8]
    ensures { result.now ≡ mode_word number }
{
    if number % 2 == 0 {
        b"isolated"
    } else {
        b"plain"
    }
}

/// Appends what the scanner of a number gave beside the loader.
fn append_scanner(
    alloc: Global,
    text: &mut ByteText,
    number: u64,
    walks: &ScannerWalks,
) -> Result<(), NoMemory>
    ensures { OnOk result (text.new ≡ text.old ++ scanner_text number walks.now) }
{
    append_numbered(alloc, text, b"scanner ", number)?;
    text.append(b" ")?;
    text.append(mode_word(number))?;
    text.append(b"\n")?;
    append_walk(alloc, text, &walks.beside)
}

/// Appends what it gave at the end.
fn append_final(
    alloc: Global,
    text: &mut ByteText,
    number: u64,
    walks: &ScannerWalks,
) -> Result<(), NoMemory>
    ensures { OnOk result (text.new ≡ text.old ++ final_text number walks.now) }
{
    append_numbered(alloc, text, b"final ", number)?;
    text.append(b"\n")?;
    append_walk(alloc, text, &walks.last)
}

/// Appends what scanners gave beside the loader.
fn append_beside(alloc: Global, text: &mut ByteText, walks: &[ScannerWalks]) -> Result<(), NoMemory>
    ensures { OnOk result (text.new ≡ text.old ++ numbered_text scanner_text 1 walks.now) }
{
    let mut number = 1u64;
    for walk in walks {
        append_scanner(alloc, text, number, walk)?;
        number += 1;
    }
    Ok(())
}

/// Appends what they gave at the end.
fn append_last(alloc: Global, text: &mut ByteText, walks: &[ScannerWalks]) -> Result<(), NoMemory>
    ensures { OnOk result (text.new ≡ text.old ++ numbered_text final_text 1 walks.now) }
{
    let mut number = 1u64;
    for walk in walks {
        append_final(alloc, text, number, walk)?;
        number += 1;
    }
    Ok(())
}

/// The text of a run of a script with lines of these kinds. It takes memory.
pub fn text_of_run(alloc: Global, kinds: &[LineKind], run: &LiveRun) -> Result<ByteText, NoMemory>
    ensures { IfOk result (λ text. text ≡ lines_text kinds.now (map model_answer_of run.now.answers) ++ log_line run.now.status.log ++ numbered_text scanner_text 1 run.now.walks.items ++ numbered_text final_text 1 run.now.walks.items
        ++ memory_line run.now.status.memory ++ frozen_line run.now.status.frozen ++ count_lines run.now.status.files) }
{
    let mut text = ByteText::new(alloc);
    append_lines(alloc, &mut text, kinds, run.answers.as_slice())?;
    append_log(alloc, &mut text, run.status.log)?;
    append_beside(alloc, &mut text, run.walks.as_slice())?;
    append_last(alloc, &mut text, run.walks.as_slice())?;
    append_memory(alloc, &mut text, run.status.memory)?;
    append_frozen(alloc, &mut text, run.status.frozen)?;
    append_files(alloc, &mut text, run.status.files.as_slice())?;
    Ok(text)
}
