// What no clause says: that memory is found, and what the reports are. Their tasks and digests are those of a plain
// evaluation of the workload by another program.
ghost use Rattle.std.specs.Prelude.{◌≤◌};

use crate::{Form, SelfRun};
use std::alloc::Global;
use std::process::Abort;
use std::test::Fail;
use tss_base::Ending;
use tss_outside::MemSink;

/// The report of a workload that runs to its exit.
fn report(rt: &impl Abort, alloc: Global, n: u32, form: Form) -> Result<MemSink, Fail>
    requires low { 1 ≤ n }
    requires high { n ≤ 40 }
{
    let mut out = MemSink::new(alloc, 1024)?;
    let run = SelfRun::new(alloc, n, form)?;
    let ending = run.ending();
    let put = run.write(&mut out);
    run.close();
    assert!(rt; ending == Ending::Exit(0));
    assert!(rt; put.is_ok());
    Ok(out)
}

/// Checks how the report of a workload begins.
fn expect(rt: &impl Abort, alloc: Global, n: u32, form: Form, text: &[u8]) -> Result<(), Fail>
    requires low { 1 ≤ n }
    requires high { n ≤ 40 }
{
    let out = report(rt, alloc, n, form)?;
    assert!(rt; out.bytes().starts_with(text));
    Ok(())
}

#[test]
fn one_block_has_two_tasks(rt: HostRuntime) -> Result<(), Fail> {
    let alloc = rt.alloc();
    expect(
        &rt,
        alloc,
        1,
        Form::Shifts,
        b"self 1\nend exit 0\ntasks 2\noutput 0\n\ndigest 4188c57dfc2c6402e5479bc78166a211ccd35d15dbfe315160ba0f2f23bf19b3\nevents 42\npeak messages ",
    )?;

    // Both blocks hold twice their first words.
    expect(
        &rt,
        alloc,
        1,
        Form::Products,
        b"self 1 mul\nend exit 0\ntasks 2\noutput 0\n\ndigest 9db4da9df374f19c1f7be21432e974765defba8b0ec2761d0f2909f2c69bfd28\nevents 42\npeak messages ",
    )
}

#[test]
fn three_blocks_have_six_tasks(rt: HostRuntime) -> Result<(), Fail> {
    let alloc = rt.alloc();
    expect(
        &rt,
        alloc,
        2,
        Form::Shifts,
        b"self 2\nend exit 0\ntasks 6\noutput 0\n\ndigest 031b482eff103db036e3ca7c1e6cbe11211b7855809a69dfc719ffb0d0fbfa8d\nevents 123\npeak messages ",
    )?;
    expect(
        &rt,
        alloc,
        2,
        Form::Products,
        b"self 2 mul\nend exit 0\ntasks 6\noutput 0\n\ndigest d928e8afc309d2318650ec384bd76e404899bc186cc5c64da0322505ed340613\nevents 123\npeak messages ",
    )
}

#[test]
fn twelve_blocks_a_side(rt: HostRuntime) -> Result<(), Fail> {
    let alloc = rt.alloc();
    let first = report(&rt, alloc, 12, Form::Shifts)?;
    assert!(rt;
        first.bytes().starts_with(
            b"self 12\nend exit 0\ntasks 376\noutput 0\n\ndigest 3517d375ae0ee6414ed90dffc42850aac57dc00e50c8c286e77d00cdcea6d937\nevents "
        )
    );

    // A second run has the same text.
    let second = report(&rt, alloc, 12, Form::Shifts)?;
    assert!(rt; second.bytes() == first.bytes());
    expect(
        &rt,
        alloc,
        12,
        Form::Products,
        b"self 12 mul\nend exit 0\ntasks 376\noutput 0\n\ndigest 9f89640da74933703fd1b95616852c5b74dacf90dc6bdb4816fc8077f555cb7b\nevents ",
    )
}

#[test]
fn failed_write_is_told(rt: HostRuntime) -> Result<(), Fail> {
    let alloc = rt.alloc();
    let mut out = MemSink::new(alloc, 1024)?;
    out.fail_write(1)?;
    let run = SelfRun::new(alloc, 1, Form::Shifts)?;
    let put = run.write(&mut out);
    run.close();
    assert!(rt; put.is_err());
    assert!(rt; out.bytes().is_empty());
    Ok(())
}
