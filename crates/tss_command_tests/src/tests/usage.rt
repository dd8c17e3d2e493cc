// Words that are no command.
use super::{USAGE, expect};
use std::test::Fail;
use tss_outside::MemFiles;

#[test]
fn other_words_show_the_usage(rt: HostRuntime) -> Result<(), Fail> {
    let alloc = rt.alloc();
    for texts in [
        [].as_slice(),
        &["--help"],
        &["inorder"],
        &["inorder", "image"],
        &["inorder", "image", "machine", "more"],
        &["Inorder", "image", "machine"],
        &["migrate", "log"],
        &["migrate", "log", "new", "more"],
        &["run", "image", "machine", "seed"],
        &["run", "image", "machine", "given", "log", "log", "more"],
        &["state", "image", "machine", "seed", "7"],
        &["self", "0"],
        &["self", "41"],
        &["self", "01"],
        &["self", "1", "div"],
    ] {
        expect(&rt, alloc, &mut MemFiles::new(alloc), texts, 6, USAGE)?;
    }
    Ok(())
}

#[test]
fn a_seed_has_one_spelling(rt: HostRuntime) -> Result<(), Fail> {
    let alloc = rt.alloc();
    for seed in ["18446744073709551616", "07", "+7", "-1", "", "7 "] {
        let texts = ["run", "image", "machine", "seed", seed];
        expect(&rt, alloc, &mut MemFiles::new(alloc), &texts, 6, USAGE)?;
    }
    Ok(())
}
