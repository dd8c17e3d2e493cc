// From the arguments of a process to its status.
ghost use Rattle.std.specs.Prelude.{◌≡◌, ◌≢◌, [], All, IsTrue, IfSome, IsNone, IfOk, IfErr, IsErr, IsOk, OnErr, drop};
ghost use Rattle.std.specs.IoError.{error_kind};
ghost use Rattle.std.specs.Process.{exit_status};
ghost use Rattle.std.specs.Vec.Iter.{into_iter_items};
ghost use Rattle.tss_outside.specs.Real.{counted_names};
ghost use Rattle.tss_command.specs.declared.statuses.TheConstants.{NO_MEMORY};
ghost use Rattle.tss_command.specs.Words.{words_of};
ghost use Rattle.tss_command.specs.Call.{called};
ghost use Rattle.tss_command.specs.RunStates.{IsProgramCall};

use crate::answering::tss_main;
use crate::statuses::NO_MEMORY;
use std::alloc::Global;
use std::env::Args;
use std::io;
use std::io::ErrorKind;
use std::process::ExitCode;
use tss_base::NoMemory;
use tss_outside::{Files, Sink};

/// All that is left of arguments.
fn rest(alloc: Global, args: Args) -> Result<Vec<String>, NoMemory>
    ensures { IfOk result (λ words. words.items ≡ into_iter_items args) }
{
    let mut args = args;
    let mut words = Vec::new(alloc);
    while let Some(word) = args.next() {
        words.push(word)?;
    }
    Ok(words)
}

/// The words after the program's name, which is the first argument. There are none where one of them isn't UTF-8.
pub fn words(alloc: Global, args: io::Result<Args>) -> Result<Vec<String>, NoMemory>
    ensures given { IfOk args (λ all. IfOk result (λ words. words.items ≡ drop 1 (into_iter_items all))) }
    ensures no_text { IfErr args (λ e. error_kind e ≡ ErrorKind.InvalidData →
        IsOk result × IfOk result (λ words. words.items ≡ [])) }
    ensures no_memory { IfErr args (λ e. error_kind e ≢ ErrorKind.InvalidData → IsErr result) }
{
    match args {
        Ok(mut all) => {
            let _name = all.next();
            rest(alloc, all)
        }
        Err(e) => {
            if e.kind() == ErrorKind::InvalidData {
                Ok(Vec::new(alloc))
            } else {
                Err(NoMemory)
            }
        }
    }
}

/// What the process ends with: the program's answer to its words, or the status of memory that ran out, with nothing
/// printed, where they can't be had.
pub fn exit_code<F: Files, K: Sink>(
    alloc: Global,
    words: Option<&[String]>,
    files: &mut F,
    out: &mut K,
) -> ExitCode
    requires { IfSome words (λ w. All (λ name. IsTrue (F.knows files.old name)) (counted_names (words_of w.now))) }
    ensures answer { IfSome words.entry (λ w.
        IsProgramCall (called F.Files K.Sink w.now files.old out.old files.new out.new (exit_status result))) }
    ensures no_words { IsNone words.entry → (exit_status result ≡ NO_MEMORY) × (files.new ≡ files.old) × (out.new ≡ out.old) }
{
    match words {
        Some(words) => ExitCode::from(tss_main(alloc, words, files, out)),
        None => ExitCode::from(NO_MEMORY),
    }
}
