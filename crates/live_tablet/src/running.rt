//! A whole run: a loader, and scanners that read beside it.
ghost use Rattle.std.specs.Prelude.{◌≡◌, ℕ, ◌≤◌, ◌++◌, ◌∷◌, [], Some, All, length, map, take, IfOk, OnOk};
ghost use Rattle.std.specs.Arc.{arc_value};
ghost use denote.Param.Send.{IsSync};
ghost use Rattle.cell_key.specs.Mutations.{row_change_of};
ghost use Rattle.iter_config.specs.RulesOf.{rules_of};
ghost use Rattle.tablet_steps.specs.ModelSteps.{model_answer_of};
ghost use Rattle.tablet_view.specs.Extending.{Extends};
ghost use Rattle.tablet_core.specs.State.{CoreState, state_of};
ghost use Rattle.tablet_core.specs.Status.{IsStatusOf};
ghost use Rattle.tablet_loader.specs.Loads.{after_chunks, after_jobs, after_plan, answers_to, chunks_of, empty_load, log_with_all};
ghost use Rattle.live_tablet.specs.Runs.{AreNumberedWalks, AreOfTablet, AreWalksOf};
ghost use Rattle.scan_session.specs.ScanCalls.{all_pieces};
ghost use Rattle.scan_session.specs.Takes.{mode_of};
ghost use Rattle.live_tablet.specs.Reading.{AreSame};
ghost use Rattle.live_tablet.specs.Scans.{IsScanOver};
ghost use Rattle.live_tablet.specs.States.{load_in, rules_of_loader};

use crate::loader::Loader;
use crate::opening::{Readers, open};
use crate::reader::LiveReader;
use crate::reading::{Reading, read_all};
use crate::scanner::Scanner;
use crate::walk::{Walk, WalkShape, walk_from};
use cell_key::{Mutation, NoMemory};
use iter_config::Config;
use std::alloc::Global;
use std::sync::{Arc, Wait};
use std::thread::{Threads, join_mut};
use tablet_core::StoreStatus;
use tablet_io::Gate;
use tablet_loader::Answers;
use tablet_view::View;

/// How a run is made: with how many scanners, with how many mutations a chunk, and with how many entries a fetch.
#[derive(Clone, Copy, Debug, PartialEq, Eq)]
pub struct LiveShape {
    /// From 1 to 8.
    pub scanners: u32,
    /// From 1 on.
    pub chunk: u32,
    /// From 1 on.
    pub batch: u32,
}

/// What a scanner gave: beside the loader, and once more when all was loaded.
#[derive(Drop)]
pub struct ScannerWalks {
    pub beside: Walk,
    pub last: Walk,
}

/// What a run came to: the answers to the mutations, what each scanner gave, and what the store has at the end.
#[derive(Drop)]
pub struct LiveRun {
    pub answers: Answers,
    pub walks: Vec<ScannerWalks>,
    pub status: StoreStatus,
}

/// The scanner of a number, whose reader has learnt a note of the last publish, where it allows it. It takes memory.
fn scanner_of(
    alloc: Global,
    loader: &mut Loader,
    number: u32,
    reader: LiveReader,
    batch: u32,
) -> Result<Scanner, NoMemory>
    requires batch { 1 ≤ batch }
    requires tablet { reader.tablet ≡ loader.old.tablet }
    ensures loader { loader.new ≡ loader.old }
    ensures tablet { IfOk result (λ scanner. scanner.reader.tablet ≡ loader.old.tablet) }
{
    let mut reader = reader;
    let note = loader.tell(alloc)?;
    if reader.allows(&note) {
        reader.learn(note);
    }
    Scanner::open(alloc, number, reader, batch)
}

fn add<T: Drop>(list: &mut Vec<T>, item: T) -> Result<(), NoMemory>
    ensures { OnOk result (list.new.items ≡ list.old.items ++ item ∷ []) }
{
    Ok(list.push(item)?)
}

/// A scanner for each reader, numbered from 1 on. It takes memory.
fn scanners_of(
    alloc: Global,
    loader: &mut Loader,
    readers: Readers,
    batch: u32,
) -> Result<Vec<Scanner>, NoMemory>
    requires batch { 1 ≤ batch }
    requires readers { All (λ reader. reader.tablet ≡ loader.old.tablet) readers }
    ensures loader { loader.new ≡ loader.old }
    ensures tablets { IfOk result (λ scanners. AreOfTablet loader.old.tablet scanners.items) }
    ensures each { IfOk result (λ scanners. length scanners.items ≡ length readers) }
{
    let mut readers = readers;
    let mut scanners = Vec::new(alloc);
    let mut number = 0u32;
    while let Some(reader) = readers.take() {
        number = number.saturating_add(1);
        let scanner = scanner_of(alloc, loader, number, reader, batch)?;
        add(&mut scanners, scanner)?;
    }
    Ok(scanners)
}

/// Mutations come in, and the jobs of the last chunk are ended, while readers read.
fn load_beside<R: Threads + Wait + Sync, G: Gate + Sync, S: Reading<G> + Send>(
    rt: &R,
    alloc: Global,
    loader: &mut Loader,
    mutations: &[Mutation],
    chunk: u32,
    answers: &mut Answers,
    readers: &mut [S],
    gate: &G,
) -> Result<(), NoMemory>
    requires chunk { 1 ≤ chunk }
    requires shown { loader.old.published ≡ loader.old.core.view }
    ensures load { OnOk result (load_in loader.new
        ≡ after_jobs (rules_of_loader loader.old) (after_chunks (rules_of_loader loader.old) (load_in loader.old) (chunks_of chunk (map row_change_of mutations.now)))) }
    ensures log { OnOk result (loader.new.core.view.log ≡ log_with_all (rules_of_loader loader.old) loader.old.core.view.log (map row_change_of mutations.now)) }
    ensures answers { OnOk result (map model_answer_of answers.new
        ≡ map model_answer_of answers.old ++ map (λ a. Some a) (answers_to (rules_of_loader loader.old) loader.old.core.view.log (map row_change_of mutations.now))) }
    ensures extends { OnOk result (Extends loader.new.core.view loader.old.core.view) }
    ensures tablet { OnOk result (loader.new.tablet ≡ loader.old.tablet) }
    ensures readers { AreSame S.same readers.new readers.old }
{
    let loader = &mut *loader;
    let mutations = &*mutations;
    let answers = &mut *answers;
    let readers = &mut *readers;
    let ((), loaded) = join_mut(
        rt,
        &mut ||
            requires { IsSync R.row × IsSync G.row }
            ensures { AreSame S.same readers.exit.now readers.entry.now }
        { read_all(rt, alloc, readers, gate) },
        &mut || -> Result<(), NoMemory>
            requires { IsSync R.row × IsSync G.row × (1 ≤ chunk) × (loader.now.published ≡ loader.now.core.view) }
            ensures load { OnOk result (load_in loader.exit.now
                ≡ after_jobs (rules_of_loader loader.entry.now) (after_chunks (rules_of_loader loader.entry.now) (load_in loader.entry.now) (chunks_of chunk (map row_change_of mutations.entry.now)))) }
            ensures log { OnOk result (loader.exit.now.core.view.log ≡ log_with_all (rules_of_loader loader.entry.now) loader.entry.now.core.view.log (map row_change_of mutations.entry.now)) }
            ensures answers { OnOk result (map model_answer_of answers.exit.now
                ≡ map model_answer_of answers.entry.now ++ map (λ a. Some a) (answers_to (rules_of_loader loader.entry.now) loader.entry.now.core.view.log (map row_change_of mutations.entry.now))) }
            ensures extends { OnOk result (Extends loader.exit.now.core.view loader.entry.now.core.view) }
            ensures tablet { OnOk result (loader.exit.now.tablet ≡ loader.entry.now.tablet) }
        { loader.load_rest(rt, alloc, mutations, chunk, answers, gate) },
    );
    loaded
}

/// What a scanner gave beside the loader, and what it gives once more over what was loaded: its reader has learnt a note of the last
/// publish, where it allows it. Where one of these is no whole scan over the mutations of this view, such a scan stands in its place.
/// It takes memory.
fn walks_of<G: Gate>(
    alloc: Global,
    loader: &mut Loader,
    whole: &Arc<View>,
    scanner: Scanner,
    shape: WalkShape,
    gate: &G,
) -> Result<ScannerWalks, NoMemory>
    requires batch { 1 ≤ shape.batch }
    requires tablet { scanner.reader.tablet ≡ loader.old.tablet }
    ensures loader { loader.new ≡ loader.old }
    ensures beside { IfOk result (λ walks. IsScanOver (arc_value whole.now).config (arc_value whole.now).log (mode_of shape.isolated) shape.batch shape.least
        (all_pieces walks.beside.fetches) walks.beside.end) }
    ensures last { IfOk result (λ walks. IsScanOver (arc_value whole.now).config (arc_value whole.now).log (mode_of shape.isolated) shape.batch
        (length (arc_value whole.now).log) (all_pieces walks.last.fetches) walks.last.end) }
{
    let mut scanner = scanner;
    scanner.learn(loader.tell(alloc)?);
    let beside = scanner.start_again(alloc)?;
    scanner.run(alloc, gate);
    let beside = walk_from(alloc, beside, whole, shape)?;
    let least = whole.mutations();
    let last = walk_from(
        alloc,
        scanner.into_scan(),
        whole,
        WalkShape { least, ..shape },
    )?;
    Ok(ScannerWalks { beside, last })
}

/// What each scanner gave and gives, numbered from 1 on. It takes memory.
fn all_walks<G: Gate>(
    alloc: Global,
    loader: &mut Loader,
    whole: &Arc<View>,
    scanners: Vec<Scanner>,
    batch: u32,
    least: u64,
    gate: &G,
) -> Result<Vec<ScannerWalks>, NoMemory>
    requires batch { 1 ≤ batch }
    requires tablets { AreOfTablet loader.old.tablet scanners.items }
    requires few { length scanners.items ≤ 8 }
    ensures loader { loader.new ≡ loader.old }
    ensures walks { IfOk result (λ walks. AreNumberedWalks (arc_value whole.now).config (arc_value whole.now).log least batch 1 walks.items) }
    ensures each { IfOk result (λ walks. length walks.items ≡ length scanners.items) }
{
    let mut scanners = scanners;
    scanners.reverse();
    let mut walks = Vec::new(alloc);
    let mut number = 0u32;
    while let Some(scanner) = scanners.pop() {
        number += 1;
        let shape = WalkShape {
            isolated: number % 2 == 0,
            batch,
            least,
        };
        let given = walks_of(alloc, loader, whole, scanner, shape, gate)?;
        add(&mut walks, given)?;
    }
    Ok(walks)
}

/// The first chunk comes in, if there is one. It takes memory, and may wait for readers.
fn load_first<R: Threads + Wait + Sync, G: Gate>(
    rt: &R,
    alloc: Global,
    loader: &mut Loader,
    first: &[Mutation],
    answers: &mut Answers,
    gate: &G,
) -> Result<(), NoMemory>
    requires shown { loader.old.published ≡ loader.old.core.view }
    ensures load { (chunk : ℕ) → length first.now ≤ chunk
        → OnOk result (load_in loader.new ≡ after_chunks (rules_of_loader loader.old) (load_in loader.old) (chunks_of chunk (map row_change_of first.now))) }
    ensures log { OnOk result (loader.new.core.view.log ≡ log_with_all (rules_of_loader loader.old) loader.old.core.view.log (map row_change_of first.now)) }
    ensures answers { OnOk result (map model_answer_of answers.new
        ≡ map model_answer_of answers.old ++ map (λ a. Some a) (answers_to (rules_of_loader loader.old) loader.old.core.view.log (map row_change_of first.now))) }
    ensures extends { OnOk result (Extends loader.new.core.view loader.old.core.view) }
    ensures published { OnOk result (loader.new.published ≡ loader.new.core.view) }
    ensures tablet { OnOk result (loader.new.tablet ≡ loader.old.tablet) }
{
    if first.is_empty() {
        return Ok(());
    }
    loader.load_chunk(rt, alloc, first, answers, gate)
}

/// A run of a tablet that was just opened. It takes memory, and may wait for readers.
fn run_open<R: Threads + Wait + Sync, G: Gate + Sync>(
    rt: &R,
    alloc: Global,
    loader: &mut Loader,
    readers: Readers,
    mutations: &[Mutation],
    shape: LiveShape,
    gate: &G,
) -> Result<LiveRun, NoMemory>
    requires shape { (1 ≤ shape.chunk) × (1 ≤ shape.batch) }
    requires empty { (load_in loader.old ≡ empty_load) × (loader.old.core.view.log ≡ []) }
    requires shown { loader.old.published ≡ loader.old.core.view }
    requires readers { All (λ reader. reader.tablet ≡ loader.old.tablet) readers × (length readers ≤ 8) }
    ensures answers { IfOk result (λ run. map model_answer_of run.answers ≡ map (λ a. Some a) (answers_to (rules_of_loader loader.old) [] (map row_change_of mutations.now))) }
    ensures walks { IfOk result (λ run. AreNumberedWalks loader.old.core.view.config (log_with_all (rules_of_loader loader.old) [] (map row_change_of mutations.now))
        (length (log_with_all (rules_of_loader loader.old) [] (take shape.chunk (map row_change_of mutations.now)))) shape.batch 1 run.walks.items) }
    ensures each { IfOk result (λ run. length run.walks.items ≡ length readers) }
    ensures status { IfOk result (λ run. (k : CoreState) × (state_of k ≡ (after_plan (rules_of_loader loader.old) shape.chunk (map row_change_of mutations.now)).store)
        × (k.view.log ≡ log_with_all (rules_of_loader loader.old) [] (map row_change_of mutations.now)) × IsStatusOf k run.status) }
{
    let (first, rest) = mutations.split_at(mutations.len().min(shape.chunk as usize));
    let mut answers = Answers::new(alloc);
    load_first(rt, alloc, loader, first, &mut answers, gate)?;
    let least = loader.view().mutations();
    let mut scanners = scanners_of(alloc, loader, readers, shape.batch)?;
    let beside = scanners.as_mut_slice();
    load_beside(
        rt,
        alloc,
        loader,
        rest,
        shape.chunk,
        &mut answers,
        beside,
        gate,
    )?;
    let whole = Arc::try_clone(loader.view())?;
    let walks = all_walks(alloc, loader, &whole, scanners, shape.batch, least, gate)?;
    let status = loader.status(alloc)?;
    Ok(LiveRun {
        answers,
        walks,
        status,
    })
}

/// Loads mutations into a new tablet while scanners read it, and has each scanner read once more what was loaded. The mutations come in
/// in chunks, each of them beside the jobs that wait and the scanners, and each is published. It takes memory, and may wait for
/// readers. That threads run beside each other is no part of the contract.
pub fn run_mutations<R: Threads + Wait + Sync, G: Gate + Sync>(
    rt: &R,
    alloc: Global,
    config: Arc<Config>,
    mutations: &[Mutation],
    shape: LiveShape,
    gate: &G,
) -> Result<LiveRun, NoMemory>
    requires scanners { (1 ≤ shape.scanners) × (shape.scanners ≤ 8) }
    requires sizes { (1 ≤ shape.chunk) × (1 ≤ shape.batch) }
    ensures answers { IfOk result (λ run. map model_answer_of run.answers ≡ map (λ a. Some a) (answers_to (rules_of (arc_value config)) [] (map row_change_of mutations.now))) }
    ensures walks { IfOk result (λ run. AreNumberedWalks (arc_value config) (log_with_all (rules_of (arc_value config)) [] (map row_change_of mutations.now))
        (length (log_with_all (rules_of (arc_value config)) [] (take shape.chunk (map row_change_of mutations.now)))) shape.batch 1 run.walks.items) }
    ensures each { IfOk result (λ run. length run.walks.items ≡ shape.scanners) }
    ensures status { IfOk result (λ run. (k : CoreState) × (state_of k ≡ (after_plan (rules_of (arc_value config)) shape.chunk (map row_change_of mutations.now)).store)
        × (k.view.log ≡ log_with_all (rules_of (arc_value config)) [] (map row_change_of mutations.now)) × IsStatusOf k run.status) }
{
    let (mut loader, readers) = open(rt, alloc, config, shape.scanners)?;
    let run = run_open(rt, alloc, &mut loader, readers, mutations, shape, gate);
    loader.close(rt);
    run
}
