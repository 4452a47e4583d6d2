//! The lines of answers.
use cell_key::{ByteText, EntryRef, FileIds, KeyRef, NoMemory, Part};
use ingest::Refused;
use script_text::{
    append_at, append_closed, append_count, append_dropped, append_end, append_entry, append_file,
    append_frozen, append_job, append_log, append_memory, append_opened, append_renewed,
    append_rest, entry_text,
};
use std::alloc::Global;
use tablet_steps::{Answer, LineRefusal, StepRefusal};

fn live() -> EntryRef<'static> {
    let key = KeyRef {
        row: b"r 1",
        family: b"a",
        qualifier: b"x:y",
        visibility: b"(v)",
        time: -12,
        deleted: false,
    };
    EntryRef {
        key,
        value: b"1=\n\xff",
    }
}

fn marker() -> EntryRef<'static> {
    let key = KeyRef {
        row: b"r2",
        family: b"",
        qualifier: b"",
        visibility: b"",
        time: i64::MIN,
        deleted: true,
    };
    EntryRef { key, value: b"" }
}

#[test]
fn an_entry_is_written(rt: HostRuntime) -> Result<(), NoMemory> {
    let text = entry_text(rt.alloc(), live())?;
    assert!(rt;
        text.bytes() == b"r\\x201 a:x\\x3ay:\\x28v\\x29 @-12 =1\\x3d\\x0a\\xff\n".as_slice()
    );
    Ok(())
}

fn append_lines(alloc: Global, text: &mut ByteText) -> Result<(), NoMemory> {
    append_at(alloc, text, u64::MAX)?;
    append_entry(alloc, text, marker())?;
    append_end(alloc, text, 0)?;
    append_count(alloc, text, 12)
}

#[test]
fn lines_are_written(rt: HostRuntime) -> Result<(), NoMemory> {
    let mut text = ByteText::new(rt.alloc());
    append_lines(rt.alloc(), &mut text)?;
    let want = b"at 18446744073709551615\nr2 :: @-9223372036854775808 -\nend 0\nentries 12\n";
    assert!(rt; text.bytes() == want.as_slice());
    Ok(())
}

fn is_answer(alloc: Global, answer: &Answer, want: &str) -> Result<bool, NoMemory> {
    let mut text = ByteText::new(alloc);
    answer.append(alloc, &mut text)?;
    Ok(text.bytes() == want.as_bytes())
}

/// Answers to steps and their lines.
const ANSWERS: [(Answer, &str); 15] = [
    (Answer::Applied(1), "m 1\n"),
    (Answer::Frozen(2), "freeze 2\n"),
    (Answer::Flushed { file: 1, count: 3 }, "flushed f1 3\n"),
    (
        Answer::Started {
            job: 4,
            full: false,
        },
        "compact j4 part\n",
    ),
    (Answer::Started { job: 5, full: true }, "compact j5 full\n"),
    (
        Answer::Finished {
            job: 4,
            file: 2,
            count: 6,
        },
        "finish j4 f2 6\n",
    ),
    (Answer::Refused(StepRefusal::NothingInMemory), "no empty\n"),
    (
        Answer::Refused(StepRefusal::FrozenThere),
        "no frozen-there\n",
    ),
    (
        Answer::Refused(StepRefusal::NothingFrozen),
        "no not-frozen\n",
    ),
    (
        Answer::Refused(StepRefusal::TooManyFiles),
        "no too-many-files\n",
    ),
    (
        Answer::Refused(StepRefusal::JobExists(1)),
        "no job-exists j1\n",
    ),
    (Answer::Refused(StepRefusal::NoFiles), "no files\n"),
    (Answer::Refused(StepRefusal::NoSuchFile(7)), "no file f7\n"),
    (
        Answer::Refused(StepRefusal::InJob { file: 1, job: 2 }),
        "no in-job f1 j2\n",
    ),
    (Answer::Refused(StepRefusal::NoSuchJob(9)), "no job j9\n"),
];

#[test]
fn answers_are_written(rt: HostRuntime) -> Result<(), NoMemory> {
    for (i, (answer, want)) in ANSWERS.iter().enumerate() {
        assert!(rt; is_answer(rt.alloc(), answer, want)?, "{i}");
    }
    Ok(())
}

/// Refusals of mutations and their lines.
const REFUSED: [(Refused, &str); 10] = [
    (
        Refused::Bound {
            at: 0,
            part: Part::Row,
        },
        "no bound row\n",
    ),
    (
        Refused::Bound {
            at: 0,
            part: Part::Updates,
        },
        "no bound updates\n",
    ),
    (
        Refused::Bound {
            at: 7,
            part: Part::Family,
        },
        "no bound family\n",
    ),
    (
        Refused::Bound {
            at: 7,
            part: Part::Qualifier,
        },
        "no bound qualifier\n",
    ),
    (
        Refused::Bound {
            at: 7,
            part: Part::Visibility,
        },
        "no bound visibility\n",
    ),
    (
        Refused::Bound {
            at: 7,
            part: Part::Value,
        },
        "no bound value\n",
    ),
    (Refused::Duplicate { at: 2 }, "no duplicate\n"),
    (Refused::DeleteHere { at: 1 }, "no delete\n"),
    (Refused::Value { at: 1 }, "no value\n"),
    (Refused::Full, "no full\n"),
];

#[test]
fn refused_mutations_are_written(rt: HostRuntime) -> Result<(), NoMemory> {
    for (i, (refused, want)) in REFUSED.iter().enumerate() {
        let answer = Answer::Refused(StepRefusal::Mutation(*refused));
        assert!(rt; is_answer(rt.alloc(), &answer, want)?, "{i}");
    }
    Ok(())
}

fn append_refusals(alloc: Global, text: &mut ByteText) -> Result<(), NoMemory> {
    LineRefusal::Syntax.append(alloc, text)?;
    LineRefusal::SessionOpen(64).append(alloc, text)?;
    LineRefusal::NoSession(3).append(alloc, text)
}

#[test]
fn refusals_are_written(rt: HostRuntime) -> Result<(), NoMemory> {
    let mut text = ByteText::new(rt.alloc());
    append_refusals(rt.alloc(), &mut text)?;
    let want = b"no syntax\nno session-open s64\nno session s3\n";
    assert!(rt; text.bytes() == want.as_slice());
    Ok(())
}

fn append_two_files(alloc: Global, text: &mut ByteText) -> Result<(), NoMemory> {
    let mut files = FileIds::new(alloc);
    files.push(1)?;
    files.push(9_999_999_999)?;
    append_job(alloc, text, 6, true, &files)
}

fn append_status(alloc: Global, text: &mut ByteText) -> Result<(), NoMemory> {
    append_log(alloc, text, 7)?;
    append_memory(alloc, text, 8)?;
    append_frozen(alloc, text, Some(9))?;
    append_frozen(alloc, text, None)?;
    append_file(alloc, text, 3, 10)?;
    append_two_files(alloc, text)
}

#[test]
fn a_status_is_written(rt: HostRuntime) -> Result<(), NoMemory> {
    let mut text = ByteText::new(rt.alloc());
    append_status(rt.alloc(), &mut text)?;
    let want = b"log 7\nmemory 8\nfrozen 9\nfrozen none\nfile f3 10\njob j6 full f1 f9999999999\n";
    assert!(rt; text.bytes() == want.as_slice());
    Ok(())
}

fn append_sessions(alloc: Global, text: &mut ByteText) -> Result<(), NoMemory> {
    append_opened(alloc, text, 1, 11)?;
    append_renewed(alloc, text, 2, 12)?;
    append_dropped(alloc, text, 3)?;
    append_closed(alloc, text, 64)?;
    append_rest(alloc, text, Some(13))?;
    append_rest(alloc, text, None)
}

#[test]
fn sessions_are_written(rt: HostRuntime) -> Result<(), NoMemory> {
    let mut text = ByteText::new(rt.alloc());
    append_sessions(rt.alloc(), &mut text)?;
    let want = b"open s1 11\nrenew s2 12\ndrop s3\nclose s64\nend 13\nmore\n";
    assert!(rt; text.bytes() == want.as_slice());
    Ok(())
}
