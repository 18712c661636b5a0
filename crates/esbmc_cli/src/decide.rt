//! What is found of a named file, before anything is printed.

ghost use Rattle.std.specs.Prelude.{◌≡◌, ◌≤◌, ℕ, List, Some};
ghost use Rattle.std.specs.FinMap.{get};
ghost use Rattle.kv_port.specs.Causes.{Rose};
ghost use Rattle.kv_port.specs.Folder.{Folder};
ghost use Rattle.c_straight_model.specs.declared.program.Program.{Program};
ghost use Rattle.c_source.specs.declared.refusal.Refusal.{Refusal};
ghost use Rattle.c_source.specs.Sources.{SpellsStraight, Refuses};
ghost use Rattle.esbmc_cli.specs.Decided.{IsRight, IsRightOf, MayRefuse, MayVerify};

use crate::source::{self, read_file};
use c_replay::{RunEnd, replay};
use c_source::{Refusal, Unread, read_source, spells_or_refuses};
use c_straight_model::CheckKind;
use kv_port::Files;
use std::alloc::Global;

/// What is found of a named file.
#[derive(Clone, Copy, Debug, PartialEq, Eq)]
pub enum Decided {
    /// A straight program that no inputs break.
    Successful,
    /// A straight program that breaks this check at this line.
    Failed { check: CheckKind, line: u32 },
    /// A source that is refused.
    Refused { refusal: Refusal },
    /// There is no such file.
    Missing,
    /// A call of the folder failed.
    ReadFault,
    /// Memory was refused.
    NoMemory,
}

/// What is found of the bytes.
fn decide_bytes(alloc: Global, bytes: &[u8]) -> Decided
    ensures { IsRightOf bytes.now result }
{
    let program = match read_source(alloc, bytes) {
        Ok(program) => program,
        Err(Unread::Refused { refusal }) => return Decided::Refused { refusal },
        Err(Unread::NoMemory) => return Decided::NoMemory,
    };
    match replay(alloc, &program, &[]) {
        Ok(RunEnd::Ended) => Decided::Successful,
        Ok(RunEnd::Broken { check, line }) => Decided::Failed { check, line },
        Err(_) => Decided::NoMemory,
    }
}

/// Reads the named file, and finds whether it is refused, or what its one execution does.
fn decide_file<F: Files>(alloc: Global, files: &mut F, name: &str) -> Decided
    ensures right { IsRight (F.told files.old) name.now (Rose (F.faults files.old) (F.faults files.new)) result }
    ensures folder { F.told files.new ≡ F.told files.old }
    ensures later { F.faults files.old ≤ F.faults files.new }
{
    match read_file(alloc, files, name) {
        Ok(bytes) => decide_bytes(alloc, &bytes),
        Err(source::FileFault::Missing) => Decided::Missing,
        Err(source::FileFault::Fault) => Decided::ReadFault,
        Err(source::FileFault::TooLong) => Decided::Refused {
            refusal: Refusal::TooLong,
        },
        Err(source::FileFault::NoMemory) => Decided::NoMemory,
    }
}

/// What is found of the named file. A told file that is refused is refused, and one that spells a straight program is
/// verified, unless a call of the folder fails or memory runs out.
#[tactic(auto, using(crate::proofs::Found::refused_is_refused, crate::proofs::Found::early_is_verified))]
pub fn decide<F: Files>(alloc: Global, files: &mut F, name: &str) -> Decided
    ensures right { IsRight (F.told files.old) name.now (Rose (F.faults files.old) (F.faults files.new)) result }
    ensures is_refused { (m : Folder) (source : List ℕ) (refusal : Refusal) → F.told files.old ≡ Some m → get m name.now ≡ Some source
        → Refuses source refusal → MayRefuse result }
    ensures is_verified { (m : Folder) (source : List ℕ) (program : Program) → F.told files.old ≡ Some m → get m name.now ≡ Some source
        → SpellsStraight source program → MayVerify result }
    ensures folder { F.told files.new ≡ F.told files.old }
    ensures later { F.faults files.old ≤ F.faults files.new }
{
    spells_or_refuses();
    decide_file(alloc, files, name)
}
