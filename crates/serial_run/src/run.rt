//! Turns, rounds and the whole run.
ghost use Rattle.std.specs.Prelude.{◌≡◌, ◌<◌, ◌≤◌, IfOk, OnOk, length, map, replicate};
ghost use Rattle.std.specs.List.{AllByRecursion, range_with_len};
ghost use Rattle.pk_model.specs.Apart.{Apart};
ghost use Rattle.world_core.specs.Session.{IsSession};
ghost use Rattle.partition.specs.Partition.{PartitionView};
ghost use Rattle.script_text.specs.LegalReport.{LegalReport};
ghost use Rattle.script_thread.specs.Thread.{ThreadState, fresh_thread};
ghost use Rattle.serial_run.specs.Serial.{line_count, report_of as the_report_of, rounds, serial, turn, turns};
ghost use Rattle.script_thread.specs.WellFormed.{IsWellFormed};
ghost use Rattle.serial_run.specs.Reached.{IsHeldBy, IsReached};
ghost use Rattle.serial_run.specs.Orders.{HasFewOperands, IsCarriedOut, IsTurnIn, ended_by, have_ended, run_state};

use crate::orders::{Turn, obey};
use entity_store::{Modeller, Steps};
use partition::Partition;
use pk_base::{Items, NoMemory};
use script_text::{EntryList, JournalList, LineList, Report, Script, ScriptLine, TranscriptList};
use script_thread::ScriptThread;
use std::alloc::Global;
use std::marker::Brand;
use std::sync::ledger::{Blank, Ledger};
use world_core::World;

/// Carries a script out: its threads take turns, each of which carries one line out. The turns are
/// those of the schedule, and then go round from thread 1 to the last until all threads have ended.
/// `kind` carries the calls on solids out.
///
/// The report is exactly that of the script (`serial`), and a legal one of it, in which no tag
/// names two entities. `NoMemory` comes where memory ran out.
pub fn run_by_turns<K: Modeller>(
    alloc: Global,
    script: &Script,
    kind: K,
) -> Result<Report, NoMemory>
    requires { IsWellFormed script.now }
    ensures serial { IfOk result (λ r. r ≡ serial K.modelling script.now) }
    ensures legal { IfOk result (LegalReport K.modelling script.now) }
    ensures apart { IfOk result (λ r. Apart K.modelling r.journals) }
{
    run_with::<K, Brand>(alloc, script, kind, Blank::new(1))
}

fn run_with<K: Modeller, L: Ledger>(
    alloc: Global,
    script: &Script,
    kind: K,
    blank: Blank,
) -> Result<Report, NoMemory>
    requires form { IsWellFormed script.now }
    requires name { blank.name ≡ L.name }
    requires parts { blank.parts ≡ L.parts }
    requires some { 0 < blank.parts }
    ensures serial { IfOk result (λ r. r ≡ serial K.modelling script.now) }
    ensures legal { IfOk result (LegalReport K.modelling script.now) }
    ensures apart { IfOk result (λ r. Apart K.modelling r.journals) }
{
    let mut steps = Steps::<L>::new(blank);
    let count = script.threads.as_slice().len() as u32;
    let mut world = World::begin(alloc, script.n, script.last, count, kind)?;
    let mut threads = begin_all(alloc, count)?;
    give_turns(alloc, script, &mut world, &mut threads, &mut steps)?;
    give_rounds(alloc, script, &mut world, &mut threads, &mut steps)?;
    report_of(alloc, script, world, threads)
}

/// So many threads before their first lines.
fn begin_all(alloc: Global, count: u32) -> Result<Vec<ScriptThread>, NoMemory>
    ensures { IfOk result (λ all. all.items ≡ replicate count fresh_thread) }
{
    let mut all = Vec::new(alloc);
    for _ in 0..count {
        all.push(ScriptThread::new(alloc))?;
    }
    Ok(all)
}

/// The turns of the schedule.
fn give_turns<K: Modeller, L: Ledger>(
    alloc: Global,
    script: &Script,
    world: &mut World<K>,
    threads: &mut Vec<ScriptThread>,
    steps: &mut Steps<L>,
) -> Result<(), NoMemory>
    requires form { IsWellFormed script.now }
    requires reached { IsReached K.modelling script.now (run_state world.old threads.old.items) }
    ensures turns { OnOk result (run_state world.new threads.new.items
        ≡ turns K.modelling script.now.threads (run_state world.old threads.old.items)
        script.now.schedule) }
    ensures reached { OnOk result
        (IsReached K.modelling script.now (run_state world.new threads.new.items)) }
{
    for thread in script.schedule.as_slice() {
        give_turn(alloc, script, world, threads, *thread, steps)?;
    }
    Ok(())
}

/// A round for each line that there is.
fn give_rounds<K: Modeller, L: Ledger>(
    alloc: Global,
    script: &Script,
    world: &mut World<K>,
    threads: &mut Vec<ScriptThread>,
    steps: &mut Steps<L>,
) -> Result<(), NoMemory>
    requires form { IsWellFormed script.now }
    requires reached { IsReached K.modelling script.now (run_state world.old threads.old.items) }
    ensures rounds { OnOk result (run_state world.new threads.new.items
        ≡ rounds K.modelling script.now.threads (run_state world.old threads.old.items)
        (line_count script.now.threads)) }
{
    for lines in script.threads.as_slice() {
        give_some_rounds(alloc, script, world, threads, lines.as_slice().len(), steps)?;
    }
    Ok(())
}

/// So many rounds. Once all threads have ended, a round would change nothing.
fn give_some_rounds<K: Modeller, L: Ledger>(
    alloc: Global,
    script: &Script,
    world: &mut World<K>,
    threads: &mut Vec<ScriptThread>,
    count: usize,
    steps: &mut Steps<L>,
) -> Result<(), NoMemory>
    requires form { IsWellFormed script.now }
    requires reached { IsReached K.modelling script.now (run_state world.old threads.old.items) }
    ensures rounds { OnOk result (run_state world.new threads.new.items
        ≡ rounds K.modelling script.now.threads (run_state world.old threads.old.items) count) }
    ensures reached { OnOk result
        (IsReached K.modelling script.now (run_state world.new threads.new.items)) }
{
    for _ in 0..count {
        if have_ended(script.threads.as_slice(), threads) {
            break;
        }
        give_round(alloc, script, world, threads, steps)?;
    }
    Ok(())
}

/// A turn of each thread, from thread 1 on.
fn give_round<K: Modeller, L: Ledger>(
    alloc: Global,
    script: &Script,
    world: &mut World<K>,
    threads: &mut Vec<ScriptThread>,
    steps: &mut Steps<L>,
) -> Result<(), NoMemory>
    requires form { IsWellFormed script.now }
    requires reached { IsReached K.modelling script.now (run_state world.old threads.old.items) }
    ensures turns { OnOk result (run_state world.new threads.new.items
        ≡ turns K.modelling script.now.threads (run_state world.old threads.old.items)
        (range_with_len 1 (length script.now.threads))) }
    ensures reached { OnOk result
        (IsReached K.modelling script.now (run_state world.new threads.new.items)) }
{
    let count = script.threads.as_slice().len() as u32;
    for thread in 1..count + 1 {
        give_turn(alloc, script, world, threads, thread, steps)?;
    }
    Ok(())
}

/// A turn of a thread, if there is one of this number: its next line is carried out, if there is
/// one.
fn give_turn<K: Modeller, L: Ledger>(
    alloc: Global,
    script: &Script,
    world: &mut World<K>,
    threads: &mut Vec<ScriptThread>,
    thread: u32,
    steps: &mut Steps<L>,
) -> Result<(), NoMemory>
    requires form { IsWellFormed script.now }
    requires reached { IsReached K.modelling script.now (run_state world.old threads.old.items) }
    ensures turn { OnOk result (run_state world.new threads.new.items
        ≡ turn K.modelling script.now.threads (run_state world.old threads.old.items) thread) }
    ensures reached { OnOk result
        (IsReached K.modelling script.now (run_state world.new threads.new.items)) }
{
    let all = script.threads.as_slice();
    if thread < 1 || thread as usize > all.len() {
        return Ok(());
    }
    let place = thread as usize - 1;
    let turn = Turn {
        alloc,
        number: thread,
        partitions: script.n,
    };
    carry_out(
        world,
        &mut threads[place],
        all[place].as_slice(),
        turn,
        steps,
    )
}

/// Carries the next of the thread's lines out, if there is one.
fn carry_out<K: Modeller, L: Ledger>(
    world: &mut World<K>,
    thread: &mut ScriptThread,
    lines: &[ScriptLine],
    turn: Turn,
    steps: &mut Steps<L>,
) -> Result<(), NoMemory>
    requires session { IsSession K.modelling world.old }
    requires turn { IsTurnIn world.old turn }
    requires held { AllByRecursion (IsHeldBy world.old turn.number) thread.old.held }
    requires few { AllByRecursion HasFewOperands lines.now }
    ensures { OnOk result (IsCarriedOut K.modelling lines.now turn.number
        world.old thread.old world.new thread.new) }
{
    if let Some(line) = lines.get(thread.said().len()) {
        if let Some(said) = obey(world, thread, turn, &line.order, steps)? {
            thread.tell(line.number, said)?;
        }
    }
    Ok(())
}

/// Whether each thread has been told all its lines.
fn have_ended(lines: &[LineList], threads: &[ScriptThread]) -> bool
    ensures { result ≡ have_ended lines.now threads.now }
{
    for (place, own) in lines.iter().enumerate() {
        if !has_ended(own.as_slice(), threads.get(place)) {
            return false;
        }
    }
    true
}

/// Whether the thread, if there is one, has been told all its lines.
fn has_ended(own: &[ScriptLine], thread: Option<&ScriptThread>) -> bool
    ensures { result ≡ ended_by own.now thread.entry }
{
    match thread {
        Some(thread) => thread.said().len() >= own.len(),
        None => true,
    }
}

/// The report of a run.
fn report_of<K: Modeller>(
    alloc: Global,
    script: &Script,
    world: World<K>,
    threads: Vec<ScriptThread>,
) -> Result<Report, NoMemory>
    ensures report { IfOk result (λ r. r
        ≡ the_report_of script.now.n script.now.last (run_state world threads.items)) }
    ensures apart { IfOk result (λ r. Apart K.modelling r.journals) }
{
    Ok(Report {
        n: script.n,
        last: script.last,
        threads: transcripts(alloc, threads)?,
        journals: journals(alloc, world.into_partitions())?,
    })
}

/// What was said to each thread.
fn transcripts(alloc: Global, threads: Vec<ScriptThread>) -> Result<TranscriptList, NoMemory>
    ensures { IfOk result (λ all. all
        ≡ map (λ (s : ThreadState). s.said) threads.items) }
{
    let mut all = Vec::new(alloc);
    for thread in threads {
        all.push(thread.into_transcript())?;
    }
    Ok(Items::of(all))
}

/// The journal of each partition.
fn journals<K: Modeller>(
    alloc: Global,
    partitions: Vec<Partition<K>>,
) -> Result<JournalList, NoMemory>
    ensures { IfOk result (λ all. all ≡ map (λ (v : PartitionView). v.journal) partitions.items) }
{
    let mut all = Vec::new(alloc);
    for partition in partitions {
        all.push(EntryList::of(partition.into_journal()))?;
    }
    Ok(Items::of(all))
}
