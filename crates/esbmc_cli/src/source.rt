//! The named file, read whole.

ghost use Rattle.std.specs.Prelude.{◌≡◌, ◌<◌, ◌≤◌, length, true, IfOk, IsSome, Err};
ghost use Rattle.std.specs.Option.{ForSome};
ghost use Rattle.std.specs.FinMap.{get};
ghost use Rattle.kv_port.specs.Causes.{Rose};
ghost use Rattle.kv_port.specs.Folder.{Lacks};
ghost use Rattle.esbmc_cli.specs.Source.{Holds, HasFile};

use c_tokens::MAX_BYTES;
use kv_port::Files;
use std::alloc::Global;

/// How many bytes are asked for at a time.
const PIECE: usize = 4_096;

/// Why a file isn't read.
#[derive(Clone, Copy, Debug, PartialEq, Eq)]
pub enum FileFault {
    /// The folder has no such name.
    Missing,
    /// A call of the folder failed.
    Fault,
    /// The file has more bytes than are read.
    TooLong,
    /// Memory was refused.
    NoMemory,
}

// The bytes of the open file, up to one past the longest.
/// Reads the file that is open, up to one byte more than a source may have.
fn read_open<F: Files>(alloc: Global, files: &mut F) -> Result<Vec<u8>, FileFault>
    requires { F.is_open files.old ≡ true }
    ensures content { IfOk result (λ bytes. ForSome (F.left files.old) (λ left. left ≡ bytes.items)) }
    ensures size { IfOk result (λ bytes. length bytes.items ≤ MAX_BYTES) }
    ensures folder { F.told files.new ≡ F.told files.old }
    ensures later { F.faults files.old ≤ F.faults files.new }
    ensures fault { result ≡ Err FileFault.Fault → Rose (F.faults files.old) (F.faults files.new) }
    ensures found { result ≡ Err FileFault.Missing → ⊥ }
    ensures too_long { result ≡ Err FileFault.TooLong → ForSome (F.left files.old) (λ left. MAX_BYTES < length left) }
{
    let mut bytes = Vec::new(alloc);
    let mut buffer = [0u8; PIECE];
    'pieces: while bytes.len() <= MAX_BYTES {
        let room = PIECE.min(MAX_BYTES + 1 - bytes.len());
        match files.read(&mut buffer[..room]) {
            Err(_) => return Err(FileFault::Fault),
            Ok(0) => return Ok(bytes),
            Ok(count) => {
                if bytes.extend_from_slice(&buffer[..count]).is_err() {
                    return Err(FileFault::NoMemory);
                }
            }
        }
    }
    Err(FileFault::TooLong)
}

/// The bytes of the named file.
pub fn read_file<F: Files>(alloc: Global, files: &mut F, name: &str) -> Result<Vec<u8>, FileFault>
    ensures content { IfOk result (λ bytes. Holds (F.told files.old) name.now bytes.items) }
    ensures size { IfOk result (λ bytes. length bytes.items ≤ MAX_BYTES) }
    ensures folder { F.told files.new ≡ F.told files.old }
    ensures later { F.faults files.old ≤ F.faults files.new }
    ensures fault { result ≡ Err FileFault.Fault → Rose (F.faults files.old) (F.faults files.new) }
    ensures missing { result ≡ Err FileFault.Missing → Lacks (F.told files.old) name.now }
    ensures too_long { result ≡ Err FileFault.TooLong → HasFile (F.told files.old) name.now (λ source. MAX_BYTES < length source) }
{
    match files.open(name) {
        Err(_) => Err(FileFault::Fault),
        Ok(false) => Err(FileFault::Missing),
        Ok(true) => read_open(alloc, files),
    }
}
