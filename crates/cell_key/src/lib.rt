//! Keys, entries and mutations in code, their order, ranges of keys, lists of these, and escaped bytes.
#![tactic(auto)]

mod column_buf;
mod column_name;
mod cuts;
mod entries;
mod entry;
mod escape_laws;
mod escaping;
mod families;
mod file_ids;
mod items;
mod key;
mod key_ref;
mod mutation;
mod no_memory;
mod order;
mod range;
mod range_buf;
mod unescaping;

pub use column_buf::ColumnBuf;
pub use column_name::{ColumnName, Columns};
pub use cuts::{lies_before, lies_behind};
pub use entries::Entries;
pub use entry::Entry;
pub use escape_laws::unescape_escape;
pub use escaping::{append_escape, escape};
pub use families::{Families, Names};
pub use file_ids::FileIds;
pub use items::{ByteText, Items};
pub use key::{Key, KeyError, MAX_KEY_PART, Part};
pub use key_ref::{EntryRef, KeyRef};
pub use mutation::{Mutation, Mutations, Update, Updates};
pub use no_memory::NoMemory;
pub use order::{compare, compare_entries, same_column};
pub use range::{Bound, Position, Range};
pub use range_buf::RangeBuf;
pub use unescaping::{TextError, unescape};
