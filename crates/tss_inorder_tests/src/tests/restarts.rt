// A machine that goes on where another of the same image stands at a barrier.
ghost use Rattle.std.specs.Prelude.{◌≡◌};
ghost use Rattle.tss_base.specs.Image.{ImageState};
ghost use Rattle.tss_inorder.specs.Order.{Follows};

use super::{X, check_eq};
use std::alloc::Global;
use std::process::Abort;
use std::test::Fail;
use tss_asm::AsmFault;
use tss_base::calls::BARRIER;
use tss_base::{Ending, Image};
use tss_elf::read_image;
use tss_inorder::{Did, Flat};
use tss_programs::Code::W;
use tss_programs::{M0, Source, inout, output};

/// Another object.
const Y: u32 = X + 4;

/// Main spawns a task on each of two words, and waits for each and prints it.
fn program(alloc: Global) -> Result<Vec<u8>, AsmFault> {
    let mut main = Source::open(alloc)?;
    two_words(&mut main)?;
    main.image()
}

fn two_words(main: &mut Source) -> Result<(), AsmFault> {
    main.spawn(W, &[inout(X, 4)], 0x3F21_6948)?;
    main.barrier()?;
    main.print(X, 4)?;
    main.spawn(W, &[output(Y, 4)], 0x61)?;
    main.barrier()?;
    main.print(Y, 1)?;
    main.print(X, 2)?;
    main.exit(7)
}

/// So many events of main.
fn go_on(flat: &mut Flat, events: u32)
    ensures limits { flat.new.limits ≡ flat.old.limits }
    ensures follows { (i : ImageState) → Follows i flat.old → Follows i flat.new }
{
    for _ in 0..events {
        flat.stretch(100);
    }
}

/// Restarts a machine at the barrier where another of the same image stands.
fn restart(rt: &impl Abort, image: &Image, flat: &mut Flat, at: &Flat)
    requires follows { Follows image.now flat.old }
    requires at { Follows image.now at.now }
    requires limits { flat.old.limits ≡ at.now.limits }
{
    let Some(number) = at.next_call() else {
        panic!(rt; "main is at no call");
    };
    assert!(rt; number == BARRIER);
    flat.restart(at.main(), at.tasks(), at.output(), at.space());
}

/// At the second barrier a word has been printed, and the other has been written. Both machines then come to the same.
#[test]
fn restarted_machine_goes_on_alike(rt: HostRuntime) -> Result<(), Fail> {
    let alloc = rt.alloc();
    let image = read_image(alloc, program(alloc)?.as_slice())?;
    let mut first = Flat::open(alloc, &image, &M0.limits)?;
    go_on(&mut first, 9);
    let mut second = Flat::open(alloc, &image, &M0.limits)?;
    restart(&rt, &image, &mut second, &first);
    check_eq(&rt, second.tasks(), 2);
    check_eq(&rt, second.output(), b"Hi!?".as_slice());
    check_eq(&rt, first.stretch(100), Did::Barrier);
    check_eq(&rt, second.main().pc(), first.main().pc());
    go_on(&mut first, 5);
    go_on(&mut second, 5);
    check_eq(&rt, first.stretch(100), Did::Over(Ending::Exit(7)));
    check_eq(&rt, second.stretch(100), Did::Over(Ending::Exit(7)));
    check_eq(&rt, second.output(), b"Hi!?aHi".as_slice());
    check_eq(&rt, first.output(), second.output());
    Ok(())
}

/// The machine that is restarted may have gone further itself: what it had is gone.
#[test]
fn machine_that_is_over_is_restarted(rt: HostRuntime) -> Result<(), Fail> {
    let alloc = rt.alloc();
    let image = read_image(alloc, program(alloc)?.as_slice())?;
    let mut first = Flat::open(alloc, &image, &M0.limits)?;
    go_on(&mut first, 3);
    let mut second = Flat::open(alloc, &image, &M0.limits)?;
    go_on(&mut second, 20);
    check_eq(&rt, second.stretch(100), Did::Over(Ending::Exit(7)));
    restart(&rt, &image, &mut second, &first);
    check_eq(&rt, second.tasks(), 1);
    check_eq(&rt, second.output(), b"".as_slice());
    go_on(&mut second, 20);
    check_eq(&rt, second.output(), b"Hi!?aHi".as_slice());
    check_eq(&rt, second.tasks(), 2);
    check_eq(&rt, second.stretch(100), Did::Over(Ending::Exit(7)));
    Ok(())
}
