// What no clause says: that memory is found, and what the workloads compute. Their results in program order are compared
// with a plain evaluation.
use std::alloc::{AllocError, Global};
use std::fmt::Debug;
use std::process::Abort;
use std::test::Fail;
use tss_base::{Ending, Limits, Range};
use tss_elf::read_image;
use tss_gen::{workload, workload_mul};
use tss_inorder::run_in_order;

/// Checks that two values are equal. A call has fewer steps than `assert_eq!`, so a test of many is proved sooner.
fn check_eq<T: PartialEq + Debug + Copy>(rt: &impl Abort, left: T, right: T) {
    assert_eq!(rt; left, right);
}

/// Limits that suffice for each workload.
const LIMITS: Limits = Limits {
    main_budget: 1_000_000,
    task_budget: 10_000,
    max_tasks: 16_384,
    max_operands: 4,
    object_bytes: 64,
    epoch_objects: 1_024,
    output_bytes: 1_024,
};

/// The words of all blocks, T last.
#[derive(Drop)]
struct Blocks {
    words: Vec<u32>,
    last: usize,
    products: bool,
}

/// The place of a block's word.
fn place(i: usize, j: usize, w: usize) -> usize {
    let rows = i.wrapping_mul(i.wrapping_add(1)) / 2;
    rows.wrapping_add(j).wrapping_mul(16).wrapping_add(w)
}

impl Blocks {
    /// The blocks at first.
    fn new(alloc: Global, n: usize, products: bool) -> Result<Blocks, AllocError> {
        let last = place(n, 0, 0);
        let mut words = Vec::new(alloc);
        for word in 1..last.wrapping_add(17) {
            words.push(u32::try_from(word).unwrap_or(0))?;
        }
        Ok(Blocks {
            words,
            last,
            products,
        })
    }

    fn at(&self, place: usize) -> u32 {
        self.words.get(place).copied().unwrap_or(0)
    }

    fn put(&mut self, place: usize, value: u32) {
        if let Some(word) = self.words.get_mut(place) {
            *word = value;
        }
    }

    /// D on a word.
    fn diagonal(&mut self, at: usize, k: u32) {
        let b = self.at(at);
        let more = if self.products {
            b / k.saturating_add(1).max(1)
        } else {
            b.wrapping_mul(8).wrapping_add(k)
        };
        self.put(at, b.wrapping_add(more));
    }

    /// C on a word.
    fn column(&mut self, at: usize, t: u32, k: u32) {
        let c = self.at(at);
        let value = if self.products {
            c.wrapping_mul(t).wrapping_add(k)
        } else {
            c.wrapping_add(t ^ k)
        };
        self.put(at, value);
    }

    /// U on a word.
    fn update(&mut self, at: usize, a: u32, b: u32) {
        let c = self.at(at);
        let value = if self.products {
            c.wrapping_sub(a.wrapping_mul(b))
        } else {
            c ^ a.wrapping_add(b / 2)
        };
        self.put(at, value);
    }

    /// All tasks of one k, on the words of one place in their blocks.
    fn step(&mut self, n: usize, k: usize, w: usize) {
        let argument = u32::try_from(k).unwrap_or(0);
        self.diagonal(place(k, k, w), argument);
        let t = self.at(place(k, k, w)).wrapping_add(argument);
        self.put(self.last.wrapping_add(w), t);
        for i in k.wrapping_add(1)..n {
            self.column(place(i, k, w), t, argument);
        }
        for i in k.wrapping_add(1)..n {
            for j in k.wrapping_add(1)..i.wrapping_add(1) {
                let a = self.at(place(i, k, w));
                let b = self.at(place(j, k, w));
                self.update(place(i, j, w), a, b);
            }
        }
    }
}

/// The bytes of all blocks after a workload.
fn evaluated(alloc: Global, n: usize, products: bool) -> Result<Vec<u8>, Fail> {
    let mut blocks = Blocks::new(alloc, n, products)?;
    for k in 0..n {
        for w in 0..16 {
            blocks.step(n, k, w);
        }
    }
    let mut bytes = Vec::new(alloc);
    for word in &blocks.words {
        bytes.extend_from_slice(&word.to_le_bytes())?;
    }
    Ok(bytes)
}

/// Runs a workload in program order, and checks its tasks and its blocks.
fn expect(
    rt: &impl Abort,
    alloc: Global,
    image: &[u8],
    tasks: u32,
    blocks: &[u8],
) -> Result<(), Fail> {
    let image = read_image(alloc, image)?;
    let reference = run_in_order(alloc, &image, &LIMITS)?;
    check_eq(rt, reference.ending(), Ending::Exit(0));
    check_eq(rt, reference.tasks(), tasks);
    assert!(rt; blocks.len() < 100_000);
    let all = Range {
        base: 0x100_0000,
        len: blocks.len() as u32,
    };
    assert!(rt; reference.space().range_of(&all).is_some());
    assert!(rt; reference.space().bytes(&all) == blocks);
    Ok(())
}

#[test]
fn workloads_compute_their_blocks(rt: HostRuntime) -> Result<(), Fail> {
    let alloc = rt.alloc();
    expect(
        &rt,
        alloc,
        &workload(alloc, 1)?,
        2,
        &evaluated(alloc, 1, false)?,
    )?;
    expect(
        &rt,
        alloc,
        &workload(alloc, 2)?,
        6,
        &evaluated(alloc, 2, false)?,
    )?;
    expect(
        &rt,
        alloc,
        &workload(alloc, 12)?,
        376,
        &evaluated(alloc, 12, false)?,
    )
}

#[test]
fn products_compute_their_blocks(rt: HostRuntime) -> Result<(), Fail> {
    let alloc = rt.alloc();
    expect(
        &rt,
        alloc,
        &workload_mul(alloc, 1)?,
        2,
        &evaluated(alloc, 1, true)?,
    )?;
    expect(
        &rt,
        alloc,
        &workload_mul(alloc, 2)?,
        6,
        &evaluated(alloc, 2, true)?,
    )?;
    expect(
        &rt,
        alloc,
        &workload_mul(alloc, 12)?,
        376,
        &evaluated(alloc, 12, true)?,
    )
}

#[test]
fn the_largest_workload_is_an_image(rt: HostRuntime) -> Result<(), Fail> {
    let alloc = rt.alloc();
    let image = read_image(alloc, &workload(alloc, 40)?)?;
    check_eq(&rt, image.count(), 2);
    Ok(())
}
