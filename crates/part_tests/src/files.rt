//! Images and cursors over files.
ghost use Rattle.std.specs.Prelude.{◌≡◌, ◌≤◌, true, false, length, option_map};
ghost use Rattle.cell_key.specs.Views.{cell_of};
ghost use Rattle.iter_contract.specs.Following.{is_out_of_order};
ghost use Rattle.sorted_file.specs.Lists.{longest_value};

use crate::fixtures::{key, leaves, range};
use cell_key::{Bound, ByteText, EntryRef, KeyRef, NoMemory, compare_entries};
use iter_contract::SortedSource;
use sorted_file::{FileBuilder, FileCursor, ImageCause, OpenError, SortedFile};
use std::alloc::Global;
use std::sync::Arc;

/// The image of no entries, in version 1.
const NONE: [u8; 19] = *b"ITSF\x01\0\0\0\0\0\0\0\0\0\0FSTI";

/// The image of no entries, in version 2.
const NEW_NONE: [u8; 18] = *b"ITSF\x02\xff\0\0\0\0\0\0\0\0FSTI";

/// The image of the entry `r1 a:x: @1 =1`, in version 1.
const ONE: [u8; 53] =
    *b"ITSF\x01\0\x02r1\0\x01a\0\x01x\0\0\0\0\0\0\0\0\0\x01\0\0\0\0\x011\0\0\0\0\0\0\0\0\0\x05\0\0\0\0\0\0\0\x01FSTI";

/// The image of that entry, in version 2.
const NEW_ONE: [u8; 53] =
    *b"ITSF\x02\0\0\x02r1\0\x01a\0\x01x\0\0\0\0\0\0\0\0\0\x01\0\0\0\0\x011\xff\0\0\0\0\0\0\0\x05\0\0\0\0\0\0\0\x01FSTI";

fn first() -> KeyRef<'static> {
    key(b"r1", b"a", b"x", 1)
}

fn second() -> KeyRef<'static> {
    key(b"r2", b"b", b"x", 2)
}

/// The entries `r1 a:x: @1 =1` and `r2 b:x: @2 =2`.
fn two_entries() -> [EntryRef<'static>; 2] {
    [
        EntryRef {
            key: first(),
            value: b"1",
        },
        EntryRef {
            key: second(),
            value: b"2",
        },
    ]
}

/// Whether a file may have an entry behind another one, or as its first.
#[tactic(auto, unfolding(tablet_model::specs::Order::above))]
fn may_follow(before: Option<EntryRef<'_>>, entry: EntryRef<'_>) -> bool
    ensures order { result ≡ true → is_out_of_order (option_map cell_of before.entry) (cell_of entry.entry) ≡ false }
    ensures value { result ≡ true → length entry.entry.value.now ≤ longest_value entry.entry.key.deleted }
{
    let longest = if entry.key.deleted { 0 } else { 65536 };
    if entry.value.len() > longest {
        return false;
    }
    match before {
        None => true,
        Some(before) => compare_entries(before, entry).is_le(),
    }
}

/// The file of these entries, without those that it may not have.
fn file_of(alloc: Global, entries: &[EntryRef<'_>]) -> Result<SortedFile, NoMemory> {
    let mut builder = FileBuilder::new(alloc)?;
    let mut before = None;
    for entry in entries {
        if may_follow(before, *entry) {
            builder.push(*entry)?;
            before = Some(*entry);
        }
    }
    builder.finish()
}

/// Whether bytes are opened, as a file of a version and of so many entries.
fn is_opened(alloc: Global, image: &[u8], version: u8, count: u64) -> Result<bool, OpenError> {
    let file = SortedFile::open(alloc, ByteText::of(alloc, image)?)?;
    Ok(file.version() == version && file.count() == count && file.bytes() == image)
}

#[test]
fn images_are_opened(rt: HostRuntime) -> Result<(), OpenError> {
    assert!(rt; is_opened(rt.alloc(), &NONE, 1, 0)?);
    assert!(rt; is_opened(rt.alloc(), &ONE, 1, 1)?);
    assert!(rt; is_opened(rt.alloc(), &NEW_NONE, 2, 0)?);
    assert!(rt; is_opened(rt.alloc(), &NEW_ONE, 2, 1)?);
    Ok(())
}

/// Whether an image is upgraded to another one.
fn is_upgraded(alloc: Global, image: &[u8], newest: &[u8]) -> Result<bool, OpenError> {
    let file = SortedFile::open(alloc, ByteText::of(alloc, image)?)?;
    let upgraded = file.upgrade(alloc)?;
    Ok(upgraded.version() == 2 && upgraded.bytes() == newest)
}

#[test]
fn images_are_upgraded(rt: HostRuntime) -> Result<(), OpenError> {
    assert!(rt; is_upgraded(rt.alloc(), &NONE, &NEW_NONE)?);
    assert!(rt; is_upgraded(rt.alloc(), &ONE, &NEW_ONE)?);
    assert!(rt; is_upgraded(rt.alloc(), &NEW_ONE, &NEW_ONE)?);
    Ok(())
}

/// Whether bytes are refused, with this first fault.
fn is_refused(alloc: Global, bytes: &[u8], place: u64, why: ImageCause) -> Result<bool, NoMemory> {
    let bytes = ByteText::of(alloc, bytes)?;
    match SortedFile::open(alloc, bytes) {
        Err(OpenError::Image { at, cause }) => Ok(at == place && cause == why),
        _ => Ok(false),
    }
}

/// Whether the image of one entry is refused with another byte at a place.
fn is_damaged(
    alloc: Global,
    place: usize,
    byte: u8,
    at: u64,
    cause: ImageCause,
) -> Result<bool, NoMemory> {
    let mut image = ONE;
    image[place % 53] = byte;
    is_refused(alloc, &image, at, cause)
}

#[test]
fn damaged_images_are_refused(rt: HostRuntime) -> Result<(), NoMemory> {
    let damages = [
        (0, 0, 0, ImageCause::Magic),
        (4, 9, 4, ImageCause::Version),
        (5, 5, 5, ImageCause::Bound),
        (6, 0, 7, ImageCause::Tail),
        (25, 2, 25, ImageCause::Bound),
        (26, 2, 26, ImageCause::Bound),
        (40, 6, 33, ImageCause::Index),
        (48, 2, 41, ImageCause::Tail),
        (49, 0, 49, ImageCause::Tail),
    ];
    for (i, (place, byte, at, cause)) in damages.iter().enumerate() {
        assert!(rt; is_damaged(rt.alloc(), *place, *byte, *at, *cause)?, "{i}");
    }
    Ok(())
}

/// Whether the image of one entry in version 2 is refused with another byte at a place.
fn is_new_damaged(
    alloc: Global,
    place: usize,
    byte: u8,
    at: u64,
    cause: ImageCause,
) -> Result<bool, NoMemory> {
    let mut image = NEW_ONE;
    image[place % 53] = byte;
    is_refused(alloc, &image, at, cause)
}

#[test]
fn damaged_numbers_of_shared_parts_are_refused(rt: HostRuntime) -> Result<(), NoMemory> {
    let damages = [
        (4, 3, 4, ImageCause::Version),
        (5, 1, 5, ImageCause::Bound),
        (5, 5, 5, ImageCause::Bound),
        (5, 254, 5, ImageCause::Bound),
        (5, 255, 6, ImageCause::Tail),
        (32, 5, 32, ImageCause::Bound),
    ];
    for (i, (place, byte, at, cause)) in damages.iter().enumerate() {
        assert!(rt;
            is_new_damaged(rt.alloc(), *place, *byte, *at, *cause)?,
            "{i}"
        );
    }
    Ok(())
}

/// For a cut of the image in version 1 after so many bytes, the place of the first field that it lacks.
const LACKS: [u64; 53] = [
    0, 0, 0, 0, 4, 5, 5, 7, 7, 9, 9, 11, 12, 12, 14, 15, 15, 17, 17, 17, 17, 17, 17, 17, 17, 25,
    26, 26, 26, 26, 30, 31, 31, 33, 33, 33, 33, 33, 33, 33, 33, 41, 41, 41, 41, 41, 41, 41, 41, 49,
    49, 49, 49,
];

/// The same of the image in version 2.
const NEW_LACKS: [u64; 53] = [
    0, 0, 0, 0, 4, 5, 6, 6, 8, 8, 10, 10, 12, 13, 13, 15, 16, 16, 18, 18, 18, 18, 18, 18, 18, 18,
    26, 27, 27, 27, 27, 31, 32, 33, 33, 33, 33, 33, 33, 33, 33, 41, 41, 41, 41, 41, 41, 41, 41, 49,
    49, 49, 49,
];

#[test]
fn cut_images_are_refused(rt: HostRuntime) -> Result<(), NoMemory> {
    for (image, lacks) in [(&ONE, &LACKS), (&NEW_ONE, &NEW_LACKS)] {
        for (length, at) in lacks.iter().enumerate() {
            let cut = &image[..length];
            assert!(rt;
                is_refused(rt.alloc(), cut, *at, ImageCause::Length)?,
                "{length}"
            );
        }
    }
    Ok(())
}

/// Whether an image that goes on behind its end is refused.
fn longer_is_refused(alloc: Global) -> Result<bool, NoMemory> {
    let mut longer = ByteText::of(alloc, &ONE)?;
    longer.push(0)?;
    is_refused(alloc, longer.bytes(), 53, ImageCause::Tail)
}

/// Whether an image is refused whose first entry has a greater row than its second.
fn disorder_is_refused(alloc: Global) -> Result<bool, NoMemory> {
    let mut later = ONE;
    later[8] = b'2';
    let mut disordered = ByteText::of(alloc, &later[..31])?;
    disordered.append(&ONE[5..])?;
    is_refused(alloc, disordered.bytes(), 31, ImageCause::Order)
}

#[test]
fn other_images_are_refused(rt: HostRuntime) -> Result<(), NoMemory> {
    assert!(rt; longer_is_refused(rt.alloc())?);
    assert!(rt; disorder_is_refused(rt.alloc())?);
    Ok(())
}

/// Whether the file of these entries has this image.
fn is_image(alloc: Global, entries: &[EntryRef<'_>], image: &[u8]) -> Result<bool, NoMemory> {
    let file = file_of(alloc, entries)?;
    Ok(file.bytes() == image)
}

fn cursor(alloc: Global) -> Result<FileCursor, NoMemory> {
    let file = file_of(alloc, &two_entries())?;
    let file = Arc::new(alloc, file)?;
    SortedFile::cursor(alloc, &file)
}

#[test]
fn a_file_is_built(rt: HostRuntime) -> Result<(), NoMemory> {
    assert!(rt; is_image(rt.alloc(), &two_entries()[..1], &NEW_ONE)?);
    Ok(())
}

#[test]
fn a_file_is_sought(rt: HostRuntime) -> Result<(), NoMemory> {
    let ranges: [(Bound<'_>, Bound<'_>, &[u8]); 7] = [
        (Bound::Open, Bound::Open, b"r1a=1 r2b=2 "),
        (Bound::At(first()), Bound::At(second()), b"r1a=1 "),
        (Bound::Past(first()), Bound::Past(second()), b"r2b=2 "),
        (Bound::Row(b"r2"), Bound::PastRow(b"r2"), b"r2b=2 "),
        (Bound::PastRow(b"r1"), Bound::Open, b"r2b=2 "),
        (Bound::Open, Bound::Row(b"r2"), b"r1a=1 "),
        (Bound::At(second()), Bound::At(first()), b""),
    ];
    let cursor = cursor(rt.alloc())?;
    for (i, (start, end, want)) in ranges.iter().enumerate() {
        assert!(rt;
            leaves(rt.alloc(), &cursor, &range(*start, *end), want)?,
            "{i}"
        );
    }
    assert!(rt; cursor.top().is_none());
    Ok(())
}

/// Whether a file of so many equal entries has so many bytes, and is opened.
fn has_size(alloc: Global, count: usize, size: usize) -> Result<bool, OpenError>
    requires { count ≤ 65 }
{
    let entry = EntryRef {
        key: first(),
        value: b"1",
    };
    let file = file_of(alloc, &[entry; 65][..count])?;
    let count = count as u64;
    Ok(
        file.count() == count
            && file.bytes().len() == size
            && is_opened(alloc, file.bytes(), 2, count)?,
    )
}

#[test]
fn blocks_have_64_entries(rt: HostRuntime) -> Result<(), OpenError> {
    // A block's first entry has 27 bytes, each other one, which shares all four parts, 15, an index field 8, and all else 18.
    assert!(rt; has_size(rt.alloc(), 64, 18 + 8 + 27 + 63 * 15)?);
    assert!(rt; has_size(rt.alloc(), 65, 18 + 2 * 8 + 2 * 27 + 63 * 15)?);
    Ok(())
}
