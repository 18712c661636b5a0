ghost use Rattle.std.specs.Prelude.{◌≡◌, ◌<◌, [], false, Some, None, is_some, length, MatchOption};
ghost use Rattle.std.specs.Option.{ForSome, ForNone};

use crate::calls::Calls;
use crate::causes::raise;
use crate::named_files::{Place, append, begin, content, create, read_on};
use crate::{Call, Failures, Fault, Files, NamedFile, NamedFiles};
use kv_base::{Bytes, Sequence};
use std::alloc::Global;

/// A folder in memory, which tells its files.
#[derive(Drop)]
pub struct MemFiles {
    alloc: Global,
    files: Vec<NamedFile>,
    // the byte that each file is without end
    endless: Option<u8>,
    // the most bytes that a read gives
    piece: usize,
    calls: Calls,
    reading: Option<Place>,
    writing: Option<Bytes>,
    faults: u64,
    ghost some_bytes: { 0 < piece },
    ghost reading_there: { ForSome reading (λ place. ForNone endless (place.file < length files.items)) },
}

impl MemFiles {
    ghost use Rattle.std.specs.FinMap.{get};
    ghost use Rattle.kv_port.specs.MemFiles.{folder_of, told_of, failing_of, piece_of, endless_of};

    /// A folder of these files, in which these calls fail.
    pub fn new(alloc: Global, files: NamedFiles, failing: Failures) -> MemFiles
        ensures told { ⟦<MemFiles as Files>⟧.told result ≡ Some (folder_of files) }
        ensures is_open { ⟦<MemFiles as Files>⟧.is_open result ≡ false }
        ensures is_created { ⟦<MemFiles as Files>⟧.is_created result ≡ false }
        ensures faults { ⟦<MemFiles as Files>⟧.faults result ≡ 0 }
        ensures failing { failing_of result ≡ failing }
        ensures piece { piece_of result ≡ usize.MAX }
    {
        MemFiles::holding(alloc, files, None, usize::MAX, failing)
    }

    /// A folder of these files, which gives at most n bytes at each read.
    pub fn in_pieces(alloc: Global, files: NamedFiles, n: usize) -> MemFiles
        requires { 0 < n }
        ensures told { ⟦<MemFiles as Files>⟧.told result ≡ Some (folder_of files) }
        ensures is_open { ⟦<MemFiles as Files>⟧.is_open result ≡ false }
        ensures is_created { ⟦<MemFiles as Files>⟧.is_created result ≡ false }
        ensures faults { ⟦<MemFiles as Files>⟧.faults result ≡ 0 }
        ensures piece { piece_of result ≡ n }
        ensures failing { failing_of result ≡ [] }
    {
        MemFiles::holding(alloc, files, None, n, Sequence::new(alloc))
    }

    /// A folder that has each name, and in each file this byte without end. It tells no bytes.
    pub fn endless(alloc: Global, byte: u8) -> MemFiles
        ensures told { ⟦<MemFiles as Files>⟧.told result ≡ None }
        ensures is_open { ⟦<MemFiles as Files>⟧.is_open result ≡ false }
        ensures is_created { ⟦<MemFiles as Files>⟧.is_created result ≡ false }
        ensures faults { ⟦<MemFiles as Files>⟧.faults result ≡ 0 }
        ensures byte { endless_of result ≡ Some byte }
        ensures failing { failing_of result ≡ [] }
    {
        let (files, failing) = (Sequence::new(alloc), Sequence::new(alloc));
        MemFiles::holding(alloc, files, Some(byte), usize::MAX, failing)
    }

    /// What the file of a name holds, where the files are told.
    pub fn content(&self, name: &str) -> Option<&[u8]>
        ensures { ForSome (⟦<MemFiles as Files>⟧.told self.now) (λ m. MatchOption result (get m name.now ≡ None)
            (λ bytes. get m name.now ≡ Some bytes.now)) }
    {
        content(&self.files, name.as_bytes())
    }

    // A folder in which nothing was done.
    /// Files in memory of which none is open or created.
    fn holding(
        alloc: Global,
        files: NamedFiles,
        endless: Option<u8>,
        piece: usize,
        failing: Failures,
    ) -> MemFiles
        requires { 0 < piece }
        ensures told { ⟦<MemFiles as Files>⟧.told result ≡ told_of endless files }
        ensures is_open { ⟦<MemFiles as Files>⟧.is_open result ≡ false }
        ensures is_created { ⟦<MemFiles as Files>⟧.is_created result ≡ false }
        ensures faults { ⟦<MemFiles as Files>⟧.faults result ≡ 0 }
        ensures endless { endless_of result ≡ endless }
        ensures piece { piece_of result ≡ piece }
        ensures failing { failing_of result ≡ failing }
    {
        MemFiles {
            alloc,
            files: files.into_vec(),
            endless,
            piece,
            calls: Calls::new(failing),
            reading: None,
            writing: None,
            faults: 0,
        }
    }
}

impl Files for MemFiles {
    ghost use Rattle.kv_port.specs.MemFiles.{told_of, told_left};

    ghost told = { λ m. told_of m.endless m.files.items };

    ghost left = { λ m. told_left m.endless m.files.items m.reading };

    ghost written = { λ m. m.writing };

    ghost is_open = { λ m. is_some m.reading };

    ghost is_created = { λ m. is_some m.writing };

    ghost faults = { λ m. m.faults };

    fn open(&mut self, name: &str) -> Result<bool, Fault> {
        self.reading = None;
        if self.calls.fails(Call::Open) {
            return Err(raise(&mut self.faults));
        }
        self.reading = match self.endless {
            Some(_) => Some(Place { file: 0, offset: 0 }),
            None => begin(&self.files, name.as_bytes()),
        };
        Ok(self.reading.is_some())
    }

    fn read(&mut self, buf: &mut [u8]) -> Result<usize, Fault> {
        if self.calls.fails(Call::Read) {
            return Err(raise(&mut self.faults));
        }
        if let Some(byte) = self.endless {
            buf.fill(byte);
            return Ok(buf.len());
        }
        match self.reading {
            None => unreachable!(),
            Some(mut place) => {
                let count = read_on(&self.files, &mut place, self.piece, buf);
                self.reading = Some(place);
                Ok(count)
            }
        }
    }

    fn create(&mut self, name: &str) -> Result<(), Fault> {
        if self.calls.fails(Call::Create) {
            return Err(raise(&mut self.faults));
        }
        match create(self.alloc, &mut self.files, name.as_bytes()) {
            Ok(kept) => {
                self.writing = Some(kept);
                Ok(())
            }
            Err(_) => Err(raise(&mut self.faults)),
        }
    }

    fn write(&mut self, bytes: &[u8]) -> Result<usize, Fault> {
        if self.calls.fails(Call::Write) {
            return Err(raise(&mut self.faults));
        }
        match &self.writing {
            None => unreachable!(),
            Some(name) => {
                if append(&mut self.files, name.as_slice(), bytes) {
                    return Ok(bytes.len());
                }
                Err(raise(&mut self.faults))
            }
        }
    }
}
