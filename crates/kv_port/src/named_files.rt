ghost use Rattle.std.specs.Prelude.{◌≡◌, ◌<◌, ◌≤◌, [], true, false, None, Some, IsSome, take, length, MatchOption, IfSome, IfOk, OnOk, OnErr};
ghost use Rattle.std.specs.FinMap.{get, insert};
ghost use Rattle.std.specs.Io.KnownBytes.{Consumes, IsAtEnd};
ghost use Rattle.kv_port.specs.MemFiles.{folder_of, left_of, HasNone, IsFirst, AppendsTo};

use kv_base::{Bytes, Copied, NoMemory, Sequence};
use std::alloc::Global;

/// A file in memory.
#[derive(Debug, Drop)]
pub struct NamedFile {
    pub name: Bytes,
    pub content: Bytes,
}

/// Files in memory. Where two have one name, the first counts.
pub type NamedFiles = Sequence<NamedFile>;

impl Copied for NamedFile {
    fn copy(&self, alloc: Global) -> Result<NamedFile, NoMemory> {
        let name = self.name.copy(alloc)?;
        let content = self.content.copy(alloc)?;
        Ok(NamedFile { name, content })
    }
}

/// Where the reading stands: before the byte at this offset of the file with this index.
#[derive(Clone, Copy, Debug, PartialEq, Eq)]
pub(crate) struct Place {
    pub(crate) file: usize,
    pub(crate) offset: usize,
}

// The index of the first file of a name.
/// The number of the first file of a name.
fn find(files: &[NamedFile], name: &[u8]) -> Option<usize>
    ensures place { MatchOption result (HasNone name.now files.now) (λ at. IsFirst name.now files.now at) }
    ensures inside { IfSome result (λ at. at < length files.now) }
{
    for (at, file) in files.iter().enumerate() {
        if file.name.as_slice() == name {
            return Some(at);
        }
    }
    None
}

// What the file of a name holds.
/// The bytes of the file of a name.
pub(crate) fn content<'a>(files: &'a [NamedFile], name: &[u8]) -> Option<&'a [u8]>
    ensures { MatchOption result (get (folder_of files.now) name.now ≡ None)
        (λ bytes. get (folder_of files.now) name.now ≡ Some bytes.now) }
{
    match find(files, name) {
        Some(at) => Some(files[at].content.as_slice()),
        None => None,
    }
}

// Where the reading of the file of a name begins.
/// The place at the beginning of the file of a name.
pub(crate) fn begin(files: &[NamedFile], name: &[u8]) -> Option<Place>
    ensures place { MatchOption result (get (folder_of files.now) name.now ≡ None)
        (λ place. (left_of files.now (Some place) ≡ get (folder_of files.now) name.now) × IsSome (left_of files.now (Some place))) }
    ensures inside { IfSome result (λ place. place.file < length files.now) }
{
    match find(files, name) {
        Some(file) => Some(Place { file, offset: 0 }),
        None => None,
    }
}

// Reads on from a place: at most a given number of bytes, and one or more unless the file ends there.
/// Reads from a place on, at most this many bytes.
pub(crate) fn read_on(files: &[NamedFile], place: &mut Place, most: usize, buf: &mut [u8]) -> usize
    requires there { place.old.file < length files.now }
    requires some { 0 < most }
    ensures bound { (result ≤ length buf.new) × (result ≤ most) }
    ensures bytes { Consumes (left_of files.now (Some place.old)) (left_of files.now (Some place.new)) (take result buf.new) }
    ensures end { result ≡ 0 → 0 < length buf.new → IsAtEnd (left_of files.now (Some place.new)) }
    ensures there { place.new.file ≡ place.old.file }
{
    let content = files[place.file].content.as_slice();
    let start = place.offset.min(content.len());
    let count = buf.len().min(most).min(content.len() - start);
    let (_, rest) = content.split_at(start);
    let (piece, _) = rest.split_at(count);
    buf[..count].copy_from_slice(piece);
    place.offset = start + count;
    count
}

// Puts an empty file of a name into the folder.
/// Puts an empty file of a name into the list, in place of one that is there.
fn put_empty(alloc: Global, files: &mut Vec<NamedFile>, name: Bytes) -> Result<(), NoMemory>
    ensures ok { OnOk result (folder_of files.new.items ≡ insert (folder_of files.old.items) name []) }
    ensures err { OnErr result (files.new.items ≡ files.old.items) }
    ensures length { length files.old.items ≤ length files.new.items }
{
    match find(files, name.as_slice()) {
        Some(at) => {
            files[at] = NamedFile {
                name,
                content: Sequence::new(alloc),
            };
            Ok(())
        }
        None => {
            let made = NamedFile {
                name,
                content: Sequence::new(alloc),
            };
            files.push(made)?;
            Ok(())
        }
    }
}

// Puts an empty file of a name into the folder, and gives the name to keep.
/// Creates an empty file, and gives its name back.
pub(crate) fn create(
    alloc: Global,
    files: &mut Vec<NamedFile>,
    name: &[u8],
) -> Result<Bytes, NoMemory>
    ensures name { IfOk result (λ kept. kept ≡ name.now) }
    ensures ok { OnOk result (folder_of files.new.items ≡ insert (folder_of files.old.items) name.now []) }
    ensures err { OnErr result (files.new.items ≡ files.old.items) }
    ensures length { length files.old.items ≤ length files.new.items }
{
    let kept = Sequence::from_slice(alloc, name)?;
    let made = Sequence::from_slice(alloc, name)?;
    put_empty(alloc, files, made)?;
    Ok(kept)
}

// Appends bytes to the file of a name. False: the file isn't there, or memory ran out.
/// Appends bytes to the file of a name, and says whether memory was there.
pub(crate) fn append(files: &mut Vec<NamedFile>, name: &[u8], bytes: &[u8]) -> bool
    ensures ok { result ≡ true → AppendsTo (folder_of files.old.items) name.now bytes.now (folder_of files.new.items) }
    ensures err { result ≡ false → files.new.items ≡ files.old.items }
    ensures length { length files.new.items ≡ length files.old.items }
{
    match find(files, name) {
        Some(at) => {
            let file = &mut files[at];
            file.content.extend_from_slice(bytes).is_ok()
        }
        None => false,
    }
}
