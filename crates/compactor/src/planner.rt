//! Which files the next compaction takes.
ghost use Rattle.std.specs.Prelude.{◌≡◌, ◌≤◌, [], length, map};
ghost use Rattle.cell_key.specs.FileNumbers.{with_numbers};
ghost use Rattle.compactor.specs.Plans.{by_size, choice, even_set, is_even, last_of_many, set_of, size_cmp, total};

use crate::file_sets::{FileCount, Plan};
use arrayvec::ArrayVec;
use std::cmp::Ordering;

/// With more files than this some are compacted whatever they have.
const MANY_FILES: usize = 15;

/// How many files are compacted then.
const LAST_FILES: usize = 8;

/// The greatest first, and by number where counts are equal.
fn compare(a: &FileCount, b: &FileCount) -> Ordering
    ensures { result ≡ size_cmp a.now b.now }
{
    b.count.cmp(&a.count).then(a.id.cmp(&b.id))
}

fn by_size(files: &[FileCount]) -> ArrayVec<FileCount, 64>
    requires { length files.now ≤ 64 }
    ensures { result.items ≡ by_size files.now }
{
    let mut order = ArrayVec::new();
    for file in files {
        order.push(*file);
    }
    order.as_mut_slice().sort_unstable_by(compare);
    order
}

fn total(files: &[FileCount]) -> u128
    requires { length files.now ≤ 64 }
    ensures { result ≡ total files.now }
{
    let mut sum: u128 = 0;
    for file in files {
        sum += u128::from(file.count);
    }
    sum
}

/// Whether there are two files, of which the first has at most a third of all entries.
fn is_even(files: &[FileCount]) -> bool
    requires { length files.now ≤ 64 }
    ensures { result ≡ is_even files.now }
{
    match files {
        [first, _, ..] => 3 * u128::from(first.count) <= total(files),
        _ => false,
    }
}

/// The first set of a file and all behind it that is even, and no files where there is none.
#[tactic(auto, unfolding(crate::specs::Plans::even_set))]
fn even_set(files: &[FileCount]) -> &[FileCount]
    requires { length files.now ≤ 64 }
    ensures { result.now ≡ even_set files.now }
{
    for i in 0..files.len() {
        if is_even(&files[i..]) {
            return &files[i..];
        }
    }
    &files[files.len()..]
}

fn last_of_many(files: &[FileCount]) -> &[FileCount]
    ensures { result.now ≡ last_of_many files.now }
{
    if files.len() > MANY_FILES {
        &files[files.len() - LAST_FILES..]
    } else {
        &files[files.len()..]
    }
}

fn set_of(files: &[FileCount]) -> &[FileCount]
    requires { length files.now ≤ 64 }
    ensures { result.now ≡ set_of (even_set files.now) files.now }
{
    let set = even_set(files);
    if set.is_empty() {
        last_of_many(files)
    } else {
        set
    }
}

fn numbers(set: &[FileCount]) -> ArrayVec<u64, 64>
    requires { length set.now ≤ 64 }
    ensures { result.items ≡ with_numbers (map (λ f. f.id) set.now) [] }
{
    let mut ids = ArrayVec::new();
    for file in set {
        if let Err(place) = ids.as_slice().binary_search(&file.id) {
            ids.insert(place, file.id);
        }
    }
    ids
}

/// The files that the next compaction takes, if it is worth one. It takes no memory.
///
/// The files are ordered by their counts, the greatest first. The first set of a file and all behind it is taken that has two files
/// at least, and whose first has at most a third of its entries. Where there is none and there are more than 15 files, the last
/// eight are taken.
pub fn plan(files: &[FileCount]) -> Option<Plan>
    requires { length files.now ≤ 64 }
    ensures { result ≡ choice files.now }
{
    let order = by_size(files);
    let set = set_of(order.as_slice());
    if set.is_empty() {
        return None;
    }
    Some(Plan { ids: numbers(set) })
}
