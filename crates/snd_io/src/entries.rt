ghost use Rattle.std.specs.Prelude.{◌≡◌, ◌<◌, [], OnOk, OnErr, Some};
ghost use Rattle.std.specs.Option.{option_copied};
ghost use Rattle.std.specs.VecDeque.{deque_len};
ghost use Rattle.std.specs.FinMap.{get};
ghost use Rattle.snd_io.specs.Files.{put_file, extend_file};
ghost use Rattle.snd_io.specs.Fakes.{files_of, first_name, ExtendsFirst};

use plain_data::OutOfMemory;
use std::alloc::Global;
use std::collections::VecDeque;

/// A file in memory. Of two entries of one name the one that stands first counts.
#[derive(Debug, Drop)]
pub(crate) struct Entry {
    pub(crate) name: String,
    pub(crate) bytes: Vec<u8>,
}

/// The bytes under a name.
pub(crate) fn find_bytes<'a>(entries: &'a VecDeque<Entry>, name: &str) -> Option<&'a [u8]>
    ensures { option_copied result ≡ get (files_of entries.now.items) name.now }
{
    for entry in entries {
        if entry.name.as_str() == name {
            return Some(entry.bytes.as_slice());
        }
    }
    None
}

/// Sets a name to these bytes, as the first entry.
pub(crate) fn put_bytes(
    alloc: Global,
    entries: &mut VecDeque<Entry>,
    name: &str,
    bytes: &[u8],
) -> Result<(), OutOfMemory>
    ensures files { OnOk result (files_of entries.new.items ≡ put_file name.now bytes.now (files_of entries.old.items)) }
    ensures first { OnOk result (first_name entries.new.items ≡ Some name.now) }
    ensures err { OnErr result (entries.new.items ≡ entries.old.items) }
{
    let name = String::from_str(alloc, name)?;
    let bytes = Vec::from_slice(alloc, bytes)?;
    entries.push_front(Entry { name, bytes })?;
    Ok(())
}

/// Appends to the bytes of the first entry.
pub(crate) fn extend_first(entries: &mut VecDeque<Entry>, bytes: &[u8]) -> Result<(), OutOfMemory>
    requires { 0 < deque_len entries.old }
    ensures files { OnOk result (ExtendsFirst bytes.now entries.old.items entries.new.items) }
    ensures first { first_name entries.new.items ≡ first_name entries.old.items }
    ensures err { OnErr result (ExtendsFirst [] entries.old.items entries.new.items) }
{
    match entries.pop_front() {
        Some(mut entry) => {
            let extended = entry.bytes.extend_from_slice(bytes);
            entries.push_front_reserved(entry);
            match extended {
                Ok(()) => Ok(()),
                Err(_) => Err(OutOfMemory),
            }
        }
        None => unreachable!(),
    }
}
