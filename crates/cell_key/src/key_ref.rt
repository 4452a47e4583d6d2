//! Borrowed keys and entries.
// Alone in its file, since a struct with ghost fields imports whatever its file does.
ghost use Rattle.tablet_model.specs.Bounds.{KeyBounds, IsTime};

/// A borrowed key: a row of 1 to 1,024 bytes, and a family, a qualifier and a visibility of at most 1,024.
#[derive(Clone, Copy)]
pub struct KeyRef<'a> {
    pub row: &'a [u8],
    pub family: &'a [u8],
    pub qualifier: &'a [u8],
    pub visibility: &'a [u8],
    /// The timestamp.
    pub time: i64,
    /// Whether the entry is a delete marker.
    pub deleted: bool,
    pub ghost bounds: { KeyBounds row.now family.now qualifier.now visibility.now },
    pub ghost in_time: { IsTime time },
}

/// A borrowed entry: a key and the bytes of its value.
#[derive(Clone, Copy)]
pub struct EntryRef<'a> {
    pub key: KeyRef<'a>,
    pub value: &'a [u8],
}
