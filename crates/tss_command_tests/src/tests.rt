// What the program answers, through its top call.
ghost use Rattle.std.specs.Prelude.{All, IsTrue};
ghost use Rattle.tss_outside.specs.MemFiles.{is_known};
ghost use Rattle.tss_outside.specs.Real.{counted_names};
ghost use Rattle.tss_command.specs.Words.{words_of};

mod images;
mod machines;
mod migration;
mod numbers;
mod outside;
mod process;
mod programs;
mod runs;
mod seeds;
mod states;
mod texts;
mod usage;
mod workloads;

use std::alloc::{AllocError, Global};
use std::fmt::Debug;
use std::process::Abort;
use std::test::Fail;
use tss_asm::AsmFault;
use tss_base::Key;
use tss_command::tss_main;
use tss_outside::{MemFiles, MemSink};
use tss_programs::{Source, description};

/// Checks that two values are equal. A call has fewer steps than `assert_eq!`, so a test of many is proved sooner.
fn check_eq<T: PartialEq + Debug + Copy>(rt: &impl Abort, left: T, right: T) {
    assert_eq!(rt; left, right);
}

/// The forms of the words.
const USAGE: &[u8] =
    b"usage: run IMAGE MACHINE seed N [log FILE] | run IMAGE MACHINE given FILE | state IMAGE MACHINE given FILE | inorder IMAGE MACHINE | self N | migrate FILE NEW | self N mul\n";

const IN_ORDER: &[&str] = &["inorder", "image", "machine"];

const SEEDED: &[&str] = &["run", "image", "machine", "seed", "0"];

const LOGGED: &[&str] = &["run", "image", "machine", "seed", "3", "log", "out"];

const GIVEN: &[&str] = &["run", "image", "machine", "given", "schedule"];

const STATE: &[&str] = &["state", "image", "machine", "given", "schedule"];

/// The words of a command.
fn words(alloc: Global, texts: &[&str]) -> Result<Vec<String>, AllocError> {
    let mut words = Vec::new(alloc);
    for text in texts {
        words.push(String::from_str(alloc, text)?)?;
    }
    Ok(words)
}

/// Whether the files know each word, as the top call asks.
fn knows_words(files: &MemFiles, words: &[String]) -> bool
    ensures { IsTrue result → All (λ w. IsTrue (is_known files.now w)) (counted_names (words_of words.now)) }
{
    for word in words {
        if !files.knows(word.as_str()) {
            return false;
        }
    }
    true
}

/// The status that words come to over files in memory, which are made to know each word. No file is made by that.
fn answer(
    rt: &impl Abort,
    alloc: Global,
    files: &mut MemFiles,
    texts: &[&str],
    out: &mut MemSink,
) -> Result<u8, Fail> {
    for text in texts {
        files.room(text, 0)?;
    }
    let texts = words(alloc, texts)?;
    let words = texts.as_slice();
    let known = knows_words(files, words);
    assert!(rt; known);
    Ok(tss_main(alloc, words, files, out))
}

/// What words write, which has this status.
fn text(
    rt: &impl Abort,
    alloc: Global,
    files: &mut MemFiles,
    texts: &[&str],
    status: u8,
) -> Result<MemSink, Fail> {
    let mut out = MemSink::new(alloc, 65_536)?;
    let answered = answer(rt, alloc, files, texts, &mut out)?;
    check_eq(rt, answered, status);
    Ok(out)
}

/// Checks the status and the whole text.
fn expect(
    rt: &impl Abort,
    alloc: Global,
    files: &mut MemFiles,
    texts: &[&str],
    status: u8,
    whole: &[u8],
) -> Result<(), Fail> {
    let out = text(rt, alloc, files, texts, status)?;
    assert!(rt; out.bytes() == whole);
    Ok(())
}

/// Files with an image, the description of a machine, and a schedule. A log has room under `out`.
fn files_of(
    alloc: Global,
    image: &[u8],
    machine: &[u8],
    schedule: &[u8],
) -> Result<MemFiles, Fail> {
    let mut files = MemFiles::new(alloc);
    files.put("image", image)?;
    files.put("machine", machine)?;
    files.put("schedule", schedule)?;
    files.room("out", 262_144)?;
    Ok(files)
}

/// The same on the small machine with some changes.
fn files_with(
    alloc: Global,
    image: &[u8],
    changes: &[(Key, &str)],
    schedule: &[u8],
) -> Result<MemFiles, Fail> {
    let machine = description(alloc, changes)?;
    files_of(alloc, image, machine.as_str().as_bytes(), schedule)
}

/// Checks what `inorder` answers where its files have these bytes, and that `run` answers it too, with the two events of an
/// exit after a report.
fn expect_program(
    rt: &impl Abort,
    alloc: Global,
    machine: &[u8],
    image: &[u8],
    status: u8,
    whole: &[u8],
) -> Result<(), Fail> {
    let mut files = files_of(alloc, image, machine, b"")?;
    expect(rt, alloc, &mut files, IN_ORDER, status, whole)?;
    let run = text(rt, alloc, &mut files, SEEDED, status)?;
    let rest = run.bytes().strip_prefix(whole).unwrap_or(b"?");
    if status == 0 {
        assert!(rt; rest.starts_with(b"events 2\n"));
    } else {
        assert!(rt; rest.is_empty());
    }
    Ok(())
}

/// Main prints a page of zeros and exits.
fn page(alloc: Global) -> Result<Vec<u8>, AsmFault> {
    let mut main = Source::open(alloc)?;
    main.print(0x20000, 4096)?;
    main.exit(0)?;
    main.image()
}

/// Where a part stands first in a text, and all that follows it. Nothing where it doesn't.
fn from<'a>(text: &'a [u8], part: &[u8]) -> &'a [u8] {
    for at in 0..text.len() {
        if text[at..].starts_with(part) {
            return &text[at..];
        }
    }
    &[]
}
