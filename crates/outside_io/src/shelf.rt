// The files of a desk in memory, in a map by their names.
ghost use Rattle.std.specs.Prelude.{◌≡◌, ◌<◌, ◌≤◌, ◌↔◌, ℕ, [], length, OnOk, OnErr, IsErrOf, option_map};
ghost use Rattle.std.specs.FinMap.{get, insert};
ghost use Rattle.outside_io.specs.Shelf.{files_of};

use crate::FetchFault;
use grid_base::NoMemory;
use std::alloc::Global;
use std::collections::BTreeMap;

// Sets the file of a name.
pub(crate) fn insert_file(
    alloc: Global,
    files: &mut BTreeMap<String, Vec<u8>>,
    name: &str,
    bytes: &[u8],
) -> Result<(), NoMemory>
    ensures ok { OnOk result (files_of files.new ≡ insert (files_of files.old) name.now bytes.now) }
    ensures err { OnErr result (files_of files.new ≡ files_of files.old) }
{
    let name = String::from_str(alloc, name)?;
    let bytes = Vec::from_slice(alloc, bytes)?;
    files.insert(name, bytes)?;
    Ok(())
}

// The bytes of the file of a name.
pub(crate) fn look_up<'a>(files: &'a BTreeMap<String, Vec<u8>>, name: &str) -> Option<&'a [u8]>
    ensures { option_map (λ bytes. bytes.now) result ≡ get (files_of files.now) name.now }
{
    match files.get(name) {
        Some(bytes) => Some(bytes),
        None => None,
    }
}

// Copies bytes into an empty `Vec`, where they are within the limit.
pub(crate) fn copy_into(bytes: &[u8], limit: usize, into: &mut Vec<u8>) -> Result<(), FetchFault>
    requires { into.old.items ≡ [] }
    ensures found { OnOk result (into.new.items ≡ bytes.now) }
    ensures within { OnOk result (length bytes.now ≤ limit) }
    ensures refused { OnErr result (into.new.items ≡ []) }
    ensures long { (seen : ℕ) → IsErrOf result (FetchFault.TooLong seen) ↔
        ((seen ≡ length bytes.now) × (limit < length bytes.now)) }
    ensures failed { IsErrOf result FetchFault.Failed → ⊥ }
    ensures missing { IsErrOf result FetchFault.Missing → ⊥ }
{
    if bytes.len() > limit {
        return Err(FetchFault::TooLong {
            seen: bytes.len() as u64,
        });
    }
    match into.extend_from_slice(bytes) {
        Ok(()) => Ok(()),
        Err(_) => Err(FetchFault::NoMemory),
    }
}
