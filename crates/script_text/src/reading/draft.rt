//! What was read of a script so far.
ghost use Rattle.std.specs.Prelude.{◌≡◌, ◌≤◌, Ok, IsOk, []};
ghost use Rattle.script_text.specs.Form.{after_header, after_line, after_schedule, after_thread, at_line, blank_draft, by_stage, by_words, finished as finished_by, inside, outside, session_of, thread_ended, turn_of, turns_after, with_order as with_order_by};
ghost use Rattle.script_text.specs.Reading.{draft_now, words_now, Gives, Reads, Takes};

use super::fault::{LineFault, ScriptNo};
use super::lines::{is_comment, is_text, words};
use super::orders::{order, small_or_bad};
use crate::{
    Cause, LineList, MOST_LINE_BYTES, MOST_LINES, MOST_PARTITIONS, MOST_THREADS, Order, Script,
    ScriptLine, ThreadList, TurnList,
};
use pk_base::LAST_BLOCK;
use std::alloc::Global;

/// Which line comes next.
#[derive(Clone, Copy, Debug, PartialEq, Eq)]
pub(crate) enum Stage {
    /// The header.
    Header,
    /// The schedule, or the first thread.
    Schedule,
    /// A thread.
    Thread,
    /// A line of a thread.
    Line,
}

/// What was read so far: the header's numbers and the turns, the threads that have ended, and the
/// lines of the one that has not.
#[derive(Debug, Drop)]
pub(crate) struct Draft {
    stage: Stage,
    n: u32,
    last: u32,
    schedule: TurnList,
    threads: Vec<LineList>,
    lines: Vec<ScriptLine>,
}

impl Draft {
    /// Nothing was read.
    pub(crate) fn new(alloc: Global) -> Draft
        ensures { draft_now result ≡ blank_draft }
    {
        Draft {
            stage: Stage::Header,
            n: 0,
            last: 0,
            schedule: TurnList::of(Vec::new(alloc)),
            threads: Vec::new(alloc),
            lines: Vec::new(alloc),
        }
    }

    /// Reads the line of this number.
    pub(crate) fn take(self, alloc: Global, number: u32, line: &[u8]) -> Result<Draft, ScriptNo>
        ensures draft { Reads draft_now result
            (at_line number (after_line number (draft_now self) line.now)) }
        ensures within { IsOk result → number ≤ MOST_LINES }
    {
        match self.take_line(alloc, number, line) {
            Ok(draft) => Ok(draft),
            Err(fault) => Err(fault.at(number)),
        }
    }

    #[tactic(auto, unfolding(crate::specs::Form::after_line))]
    fn take_line(self, alloc: Global, number: u32, line: &[u8]) -> Result<Draft, LineFault>
        ensures draft { Takes draft_now result (after_line number (draft_now self) line.now) }
        ensures within { IsOk result → number ≤ MOST_LINES }
    {
        if number > MOST_LINES {
            return Err(Cause::TooManyLines.into());
        }
        if line.len() > MOST_LINE_BYTES {
            return Err(Cause::LongLine.into());
        }
        let words = words(alloc, line)?;
        if is_comment(words.as_slice()) {
            return Ok(self);
        }
        if !is_text(line) {
            return Err(Cause::BadByte.into());
        }
        self.take_words(alloc, number, words.as_slice())
    }

    /// Reads the words of a line. A line of blanks alone is skipped.
    fn take_words(self, alloc: Global, number: u32, words: &[&[u8]]) -> Result<Draft, LineFault>
        ensures { Takes draft_now result (by_words number (draft_now self) (words_now words.now)) }
    {
        match words.split_first() {
            None => Ok(self),
            Some((first, words)) => self.take_first(alloc, number, first, words),
        }
    }

    /// Reads a line by its first word and those after it, as its stage asks.
    fn take_first(
        self,
        alloc: Global,
        number: u32,
        first: &[u8],
        words: &[&[u8]],
    ) -> Result<Draft, LineFault>
        ensures { let d = draft_now self in
            Takes draft_now result (by_stage d.stage number d first.now (words_now words.now)) }
    {
        match self.stage {
            Stage::Header => {
                if first == b"session".as_slice() {
                    Ok(self.take_header(words)?)
                } else {
                    Err(Cause::NoSession.into())
                }
            }
            Stage::Schedule => {
                if first == b"schedule".as_slice() {
                    self.take_schedule(alloc, words)
                } else {
                    Ok(self.take_outside(first, words)?)
                }
            }
            Stage::Thread => Ok(self.take_outside(first, words)?),
            Stage::Line => self.take_inside(alloc, number, first, words),
        }
    }

    /// `session n last`
    fn take_header(self, words: &[&[u8]]) -> Result<Draft, Cause>
        ensures { Gives draft_now result (after_header (draft_now self) (words_now words.now)) }
    {
        let (n, words) = words.split_first().ok_or(Cause::WordCount)?;
        let (last, words) = words.split_first().ok_or(Cause::WordCount)?;
        match words.first() {
            None => self.with_session(small_or_bad(n)?, small_or_bad(last)?),
            Some(_) => Err(Cause::WordCount),
        }
    }

    fn with_session(self, n: u32, last: u32) -> Result<Draft, Cause>
        ensures { Gives draft_now result (session_of (draft_now self) n last) }
    {
        if 1 <= n && n <= MOST_PARTITIONS && n <= last && last <= LAST_BLOCK {
            Ok(Draft {
                stage: Stage::Schedule,
                n,
                last,
                ..self
            })
        } else {
            Err(Cause::BadSession)
        }
    }

    /// `schedule` and its turns
    fn take_schedule(self, alloc: Global, words: &[&[u8]]) -> Result<Draft, LineFault>
        ensures { Takes draft_now result (after_schedule (draft_now self) (words_now words.now)) }
    {
        let schedule = turns(alloc, words)?;
        Ok(Draft {
            stage: Stage::Thread,
            schedule,
            ..self
        })
    }

    /// A line between the scripts of threads.
    fn take_outside(self, first: &[u8], words: &[&[u8]]) -> Result<Draft, Cause>
        ensures { Gives draft_now result
            (outside (draft_now self) first.now (words_now words.now)) }
    {
        if first == b"thread".as_slice() {
            self.take_thread(words)
        } else {
            Err(Cause::NoThread)
        }
    }

    /// `thread`, where there may be one more
    fn take_thread(self, words: &[&[u8]]) -> Result<Draft, Cause>
        ensures { Gives draft_now result (after_thread (draft_now self) (words_now words.now)) }
    {
        if self.threads.len() >= MOST_THREADS as usize {
            return Err(Cause::TooManyThreads);
        }
        if !words.is_empty() {
            return Err(Cause::WordCount);
        }
        Ok(Draft {
            stage: Stage::Line,
            ..self
        })
    }

    /// A line within the script of a thread.
    fn take_inside(
        self,
        alloc: Global,
        number: u32,
        first: &[u8],
        words: &[&[u8]],
    ) -> Result<Draft, LineFault>
        ensures { Takes draft_now result
            (inside number (draft_now self) first.now (words_now words.now)) }
    {
        let order = order(alloc, first, words)?;
        self.with_order(alloc, number, order)
    }

    /// One line more of the thread; `end` is its last.
    fn with_order(mut self, alloc: Global, number: u32, order: Order) -> Result<Draft, LineFault>
        ensures { Takes draft_now result (Ok (with_order_by number (draft_now self) order)) }
    {
        let is_end = matches!(order, Order::End);
        self.lines.push(ScriptLine { number, order })?;
        if is_end { self.ended(alloc) } else { Ok(self) }
    }

    /// The thread has ended with the lines that it has.
    fn ended(mut self, alloc: Global) -> Result<Draft, LineFault>
        ensures { Takes draft_now result (Ok (thread_ended (draft_now self))) }
    {
        let lines = LineList::of(self.lines);
        self.threads.push(lines)?;
        Ok(Draft {
            stage: Stage::Thread,
            lines: Vec::new(alloc),
            ..self
        })
    }

    /// The script, once the input has ended before the line of this number.
    pub(crate) fn finish(self, number: u32) -> Result<Script, ScriptNo>
        ensures { Reads (λ script. script) result (at_line number (finished_by (draft_now self))) }
    {
        match self.finished() {
            Ok(script) => Ok(script),
            Err(cause) => Err(LineFault::Bad(cause).at(number)),
        }
    }

    fn finished(self) -> Result<Script, Cause>
        ensures { result ≡ finished_by (draft_now self) }
    {
        match self.stage {
            Stage::Header => Err(Cause::NoSession),
            Stage::Schedule => Err(Cause::NoThread),
            Stage::Thread if self.threads.is_empty() => Err(Cause::NoThread),
            Stage::Thread => Ok(Script {
                n: self.n,
                last: self.last,
                schedule: self.schedule,
                threads: ThreadList::of(self.threads),
            }),
            Stage::Line => Err(Cause::Unended),
        }
    }
}

/// The turns that the words are.
fn turns(alloc: Global, words: &[&[u8]]) -> Result<TurnList, LineFault>
    ensures { Takes (λ turns. turns) result (turns_after [] (words_now words.now)) }
{
    let mut turns = Vec::new(alloc);
    for word in words {
        turns.push(turn(word)?)?;
    }
    Ok(TurnList::of(turns))
}

/// A number from 1 to the most threads.
fn turn(word: &[u8]) -> Result<u32, Cause>
    ensures { result ≡ turn_of word.now }
{
    let turn = small_or_bad(word)?;
    if 1 <= turn && turn <= MOST_THREADS {
        Ok(turn)
    } else {
        Err(Cause::BadNumber)
    }
}
