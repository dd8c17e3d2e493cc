// The workload that comes with the program, by `self`, and as an image that is run. Tasks, digests and numbers of events
// are those of a plain evaluation of the workload by another program.
ghost use Rattle.std.specs.Prelude.{None, true};

use super::{check_eq, files_of, from, text, words};
use std::alloc::Global;
use std::test::Fail;
use tss_command::tss_main;
use tss_gen::workload;
use tss_outside::{Failed, FileFault, Files, HonestSink, MemFiles};

/// The description of the machine on which `self` runs.
const SELF_MACHINE: &[u8] = b"main_budget = 1_000_000
task_budget = 10_000
max_tasks = 16_384
max_operands = 4
object_bytes = 64
epoch_objects = 1_024
output_bytes = 1_024
stations = 2
slots = 8
workers = 4
banks = 4
entries = 16
versions = 32
buffers = 8
quantum = 64
window = 1
";

const SEED: &[&str] = &["run", "image", "machine", "seed", "12", "log", "out"];

/// Files with the workload of twelve blocks a side as an image, its machine, and room for a log.
fn files_of_twelve(alloc: Global) -> Result<MemFiles, Fail> {
    let image = workload(alloc, 12)?;
    files_of(alloc, image.as_slice(), SELF_MACHINE, b"")
}

#[test]
fn workloads_are_told_by_their_digests(rt: HostRuntime) -> Result<(), Fail> {
    let alloc = rt.alloc();
    let mut files = MemFiles::new(alloc);
    for (texts, begin) in [
        (
            ["self", "1"].as_slice(),
            b"self 1\nend exit 0\ntasks 2\noutput 0\n\n\
              digest 4188c57dfc2c6402e5479bc78166a211ccd35d15dbfe315160ba0f2f23bf19b3\nevents 42\npeak "
                .as_slice(),
        ),
        (
            &["self", "1", "mul"],
            b"self 1 mul\nend exit 0\ntasks 2\noutput 0\n\n\
              digest 9db4da9df374f19c1f7be21432e974765defba8b0ec2761d0f2909f2c69bfd28\nevents 42\npeak ",
        ),
        (
            &["self", "12", "mul"],
            b"self 12 mul\nend exit 0\ntasks 376\noutput 0\n\n\
              digest 9f89640da74933703fd1b95616852c5b74dacf90dc6bdb4816fc8077f555cb7b\nevents ",
        ),
        (
            &["self", "40"],
            b"self 40\nend exit 0\ntasks 11520\noutput 0\n\n\
              digest afedd5b07aeb9baef62b4893a9526177db5aafef17a8728e46ed5b0fa1ec7f30\nevents 367353\npeak ",
        ),
        (
            &["self", "40", "mul"],
            b"self 40 mul\nend exit 0\ntasks 11520\noutput 0\n\n\
              digest f44f76301ea19cd225e4a2367a6055a190ea75cb2da47a994030bd8d07a03681\nevents ",
        ),
    ] {
        let out = text(&rt, alloc, &mut files, texts, 0)?;
        assert!(rt; out.bytes().starts_with(begin));
    }
    Ok(())
}

#[test]
fn a_workload_runs_from_its_image_too(rt: HostRuntime) -> Result<(), Fail> {
    let alloc = rt.alloc();
    let mut files = files_of_twelve(alloc)?;
    let own = text(&rt, alloc, &mut files, &["self", "12"], 0)?;
    let begin = b"self 12\nend exit 0\ntasks 376\noutput 0\n\n\
        digest 3517d375ae0ee6414ed90dffc42850aac57dc00e50c8c286e77d00cdcea6d937\nevents 10973\npeak ";
    assert!(rt; own.bytes().starts_with(begin));
    let again = text(&rt, alloc, &mut files, &["self", "12"], 0)?;
    assert!(rt; again.bytes() == own.bytes());

    // Its image, run by the same seed, has the same events, and its log gives them again.
    let logged = text(&rt, alloc, &mut files, SEED, 0)?;
    assert!(rt;
        logged
            .bytes()
            .starts_with(b"end exit 0\ntasks 376\noutput 0\n\nrow ")
    );
    let peaks = from(own.bytes(), b"\nevents ");
    assert!(rt; from(logged.bytes(), b"\nevents ") == peaks);
    let again = ["run", "image", "machine", "given", "out"];
    let given = text(&rt, alloc, &mut files, &again, 0)?;
    assert!(rt; given.bytes() == logged.bytes());
    Ok(())
}

/// Files that tell nothing: an image and its machine, and whether each piece that was appended has 4,096 bytes at most
/// and ends with a line's end.
#[derive(Drop)]
struct Pieces<'a> {
    image: &'a [u8],
    pieces: u32,
    are_whole: bool,
}

impl<'a> Files for Pieces<'a> {
    ghost held = { λ s. None };

    ghost knows = { λ s n. true };

    ghost read_faults = { λ s n. 0 };

    ghost append_faults = { λ s n. 0 };

    fn read(&mut self, alloc: Global, name: &str, limit: u64) -> Result<Vec<u8>, FileFault> {
        let bytes = if name == "image" {
            self.image
        } else {
            SELF_MACHINE
        };
        let len = bytes.len() as u64;
        if len > limit {
            return Err(FileFault::TooLong(len));
        }
        match Vec::from_slice(alloc, bytes) {
            Ok(bytes) => Ok(bytes),
            Err(_) => Err(FileFault::NoMemory),
        }
    }

    fn append(&mut self, _name: &str, bytes: &[u8]) -> Result<(), Failed> {
        self.pieces = self.pieces.saturating_add(1);
        self.are_whole = self.are_whole && bytes.len() <= 4096 && bytes.ends_with(b"\n");
        Ok(())
    }

    ghost use Rattle.std.proofs.Common.{refl};

    ghost shared_read_faults = { λ s n m p q. refl };

    ghost shared_append_faults = { λ s n m p q. refl };
}

#[test]
fn a_log_is_appended_in_pieces(rt: HostRuntime) -> Result<(), Fail> {
    let alloc = rt.alloc();
    let image = workload(alloc, 12)?;
    let mut pieces = Pieces {
        image: image.as_slice(),
        pieces: 0,
        are_whole: true,
    };
    let words = words(alloc, SEED)?;
    let mut out = HonestSink::new();
    check_eq(
        &rt,
        tss_main(alloc, words.as_slice(), &mut pieces, &mut out),
        0,
    );
    assert!(rt; pieces.are_whole);
    assert!(rt; pieces.pieces > 1);
    Ok(())
}

#[test]
fn a_log_has_the_first_piece_where_the_second_fails(rt: HostRuntime) -> Result<(), Fail> {
    let alloc = rt.alloc();
    let mut whole = files_of_twelve(alloc)?;
    let _report = text(&rt, alloc, &mut whole, SEED, 0)?;
    let log = whole.bytes("out");
    let mut files = files_of_twelve(alloc)?;
    files.fail_append(2)?;
    let told = text(&rt, alloc, &mut files, SEED, 8)?;
    assert!(rt; told.bytes() == b"write log\n".as_slice());

    // The lines of the log that fit into 4,096 bytes, and so not the next one.
    let part = files.bytes("out");
    assert!(rt; log.starts_with(part));
    assert!(rt; part.ends_with(b"\n"));
    assert!(rt; part.len() <= 4096 && log.len() > 4096);
    assert!(rt; !log[part.len()..4096].contains(&b'\n'));
    Ok(())
}
