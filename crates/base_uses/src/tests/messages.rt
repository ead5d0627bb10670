//! The messages of errors.
use pk_outside::{Failed, ReadNo};
use script_text::{Cause, ScriptNo};
use session_words::WordsNo;
use std::test::Fail;

#[test]
fn a_bad_script_has_its_message(rt: HostRuntime) -> Result<(), Fail> {
    let alloc = rt.alloc();
    for (cause, name) in [
        (Cause::TooManyLines, "TooManyLines"),
        (Cause::LongLine, "LongLine"),
        (Cause::BadByte, "BadByte"),
        (Cause::NoSession, "NoSession"),
        (Cause::NoThread, "NoThread"),
        (Cause::TooManyThreads, "TooManyThreads"),
        (Cause::Unended, "Unended"),
        (Cause::UnknownCommand, "UnknownCommand"),
        (Cause::WordCount, "WordCount"),
        (Cause::BadNumber, "BadNumber"),
        (Cause::BadName, "BadName"),
        (Cause::BadSession, "BadSession"),
    ] {
        let no = ScriptNo::Bad { line: 3, cause };
        let message = format!(in alloc; "line 3: {name}")?;
        assert_eq!(rt; format!(in alloc; "{no}")?.as_str(), message.as_str());
    }
    let no = ScriptNo::NoMemory;
    assert_eq!(rt; format!(in alloc; "{no}")?.as_str(), "no memory");
    Ok(())
}

#[test]
fn bad_words_have_their_message(rt: HostRuntime) -> Result<(), Fail> {
    let alloc = rt.alloc();
    for (no, message) in [
        (WordsNo::Bad, "bad words"),
        (WordsNo::NoMemory, "no memory"),
    ] {
        assert_eq!(rt; format!(in alloc; "{no}")?.as_str(), message);
    }
    Ok(())
}

#[test]
fn a_failed_read_has_its_message(rt: HostRuntime) -> Result<(), Fail> {
    let alloc = rt.alloc();
    let failed = format!(in alloc; "{Failed}")?;
    assert_eq!(rt; failed.as_str(), "a read or a write failed");
    for (no, message) in [
        (ReadNo::TooLong, "the input has more than 4194304 bytes"),
        (ReadNo::Fault, "a read failed"),
        (ReadNo::NoMemory, "no memory"),
    ] {
        assert_eq!(rt; format!(in alloc; "{no}")?.as_str(), message);
    }
    Ok(())
}
