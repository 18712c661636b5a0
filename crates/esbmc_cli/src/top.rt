ghost use Rattle.std.specs.Prelude.{◌≡◌, ◌≤◌, ℕ, List, ◌∷◌, [], map, string_bytes, Some, None};
ghost use Rattle.std.specs.FinMap.{get};
ghost use Rattle.std.specs.Io.KnownBytes.{Keeps};
ghost use Rattle.std.specs.Option.{option_map};
ghost use Rattle.kv_port.specs.Causes.{Rose};
ghost use Rattle.kv_port.specs.Folder.{Folder};
ghost use Rattle.c_straight_model.specs.declared.program.Program.{Program};
ghost use Rattle.c_source.specs.declared.refusal.Refusal.{Refusal};
ghost use Rattle.c_source.specs.Sources.{SpellsStraight, Refuses};
ghost use Rattle.esbmc_cli.specs.Answers.{file_of, OneOf, HasStatus, Prints, IsSuccessful, IsFailed, IsUsage, IsRefused, IsReadFault, IsMissing};

use crate::decide::{Decided, decide};
use crate::print::answer;
use crate::{Outcome, texts};
use kv_port::{Files, Sink};
use std::alloc::Global;

// The one word that names a file.
/// The file that a command line names, if it names exactly one.
fn named(words: &[String]) -> Option<&str>
    ensures { option_map (λ name. name.now) result ≡ file_of (map string_bytes words.now) }
{
    match words {
        [word] => {
            let name = word.as_str();
            if let [b'-', ..] = name.as_bytes() {
                return None;
            }
            Some(name)
        }
        _ => None,
    }
}

// A call that prints nothing.
/// The end of a run in which memory ran out: nothing is written.
fn silent() -> Outcome
    ensures { result ≡ record { status = 8; meant = 8 } }
{
    Outcome {
        status: 8,
        meant: 8,
    }
}

/// Does all that the program does, on one thread: reads the file that the words name, runs its one execution
/// and writes the text of the answer. It waits for nobody and always returns.
pub fn run_alone<F: Files, W: Sink>(
    alloc: Global,
    words: &[String],
    files: &mut F,
    out: &mut W,
) -> Outcome
    // Which statuses there are, and what stands in their place after a write fault.
    ensures meant { OneOf (0 ∷ 1 ∷ 4 ∷ 5 ∷ 6 ∷ 8 ∷ 12 ∷ []) result.meant }
    ensures status { HasStatus (W.faults out.old) (W.faults out.new) result }

    // 0 and 1, the verdicts.
    ensures successful { result.meant ≡ 0 → IsSuccessful (file_of (map string_bytes words.now)) (F.told files.old)
        (Prints result.status (W.told out.old) (W.told out.new)) }
    ensures failed { result.meant ≡ 1 → IsFailed (file_of (map string_bytes words.now)) (F.told files.old)
        (Prints result.status (W.told out.old) (W.told out.new)) }

    // One of them, exactly where a told file spells a straight program, unless a read fails or memory runs out.
    ensures is_verified { (m : Folder) (name source : List ℕ) (program : Program) → file_of (map string_bytes words.now) ≡ Some name
        → F.told files.old ≡ Some m → get m name ≡ Some source → SpellsStraight source program → OneOf (0 ∷ 1 ∷ 6 ∷ 8 ∷ []) result.meant }

    // 4, exactly where the words name no file, unless memory runs out.
    ensures usage { result.meant ≡ 4 → IsUsage (file_of (map string_bytes words.now))
        (Prints result.status (W.told out.old) (W.told out.new)) }
    ensures is_usage { file_of (map string_bytes words.now) ≡ None → OneOf (4 ∷ 8 ∷ []) result.meant }

    // 5, exactly where a told file is refused, for the printed cause, unless a read fails or memory runs out.
    ensures refused { result.meant ≡ 5 → IsRefused (file_of (map string_bytes words.now)) (F.told files.old)
        (Prints result.status (W.told out.old) (W.told out.new)) }
    ensures is_refused { (m : Folder) (name source : List ℕ) (refusal : Refusal) → file_of (map string_bytes words.now) ≡ Some name
        → F.told files.old ≡ Some m → get m name ≡ Some source → Refuses source refusal → OneOf (5 ∷ 6 ∷ 8 ∷ []) result.meant }

    // 6, a read fault.
    ensures read_fault { result.meant ≡ 6 → IsReadFault (file_of (map string_bytes words.now))
        (Rose (F.faults files.old) (F.faults files.new)) (Prints result.status (W.told out.old) (W.told out.new)) }

    // 12, exactly where a told folder lacks the file, unless a read fails or memory runs out.
    ensures missing { result.meant ≡ 12 → IsMissing (file_of (map string_bytes words.now)) (F.told files.old)
        (Prints result.status (W.told out.old) (W.told out.new)) }
    ensures is_missing { (m : Folder) (name : List ℕ) → file_of (map string_bytes words.now) ≡ Some name → F.told files.old ≡ Some m
        → get m name ≡ None → OneOf (12 ∷ 6 ∷ 8 ∷ []) result.meant }

    // 8, no memory: nothing is written.
    ensures no_memory { result.meant ≡ 8 → Keeps (W.told out.old) (W.told out.new) }

    // The folder is as it was, and the count of its faults hasn't fallen.
    ensures folder { F.told files.new ≡ F.told files.old }
    ensures later { F.faults files.old ≤ F.faults files.new }
{
    let Some(name) = named(words) else {
        return answer(out, 4, texts::usage());
    };
    match decide(alloc, files, name) {
        Decided::Successful => answer(out, 0, texts::successful()),
        Decided::Failed { check, line } => match texts::failed(alloc, check, line) {
            Ok(text) => answer(out, 1, text.as_bytes()),
            Err(_) => silent(),
        },
        Decided::Refused { refusal } => match texts::refused(alloc, refusal) {
            Ok(text) => answer(out, 5, text.as_bytes()),
            Err(_) => silent(),
        },
        Decided::ReadFault => answer(out, 6, texts::read_fault()),
        Decided::Missing => answer(out, 12, texts::missing()),
        Decided::NoMemory => silent(),
    }
}
