// What a worker's task sees.
ghost use Rattle.tss_workers.specs.Spots.{AreWorkable};

use crate::accesses::{fixed_number, fixed_place, number_in, put_in};
use crate::spots::{Spot, spot_in, spot_with, writes};
use tss_base::Range;
use tss_base::addresses::SCRATCH;
use tss_buffers::Buffers;
use tss_core::{Deny, View};
use tss_isa::Instr;
use tss_memory::{Code, Space};
use tss_steps::{Scratch, TaskView};

/// What a task sees: home and the buffers of its operands, the code, and its scratch. The range of memory at the place
/// `near` and the spot at the place `last` are tried first.
#[derive(Drop)]
pub(crate) struct WorkerTask<'a> {
    pub(crate) space: &'a mut Space,
    pub(crate) buffers: &'a mut Buffers,
    pub(crate) spots: &'a [Spot],
    pub(crate) code: &'a Code,
    pub(crate) scratch: &'a mut Scratch,
    pub(crate) near: u32,
    pub(crate) last: usize,
    ghost workable: { AreWorkable space.now.ranges buffers.now spots.now },
}

impl View for WorkerTask<'_> {
    ghost use Rattle.std.specs.Prelude.{refl};
    ghost use Rattle.tss_steps.specs.Seen.{task_sight};
    ghost use Rattle.tss_workers.specs.Working.{TaskLeaves, beyond_of, terms_of};

    ghost sight = { λ v. task_sight (terms_of v) v.scratch.now (beyond_of v) };

    ghost Leaves = { TaskLeaves };

    ghost stays = { λ v. record {
      left = record { terms = refl; scratch = refl; beyond = refl };
      same = record {
        ranges = refl;
        sizes = record { banks = refl; each = refl; bytes = refl };
        reference = refl;
        buffers_reference = refl;
        scratch_reference = refl;
      };
    } };

    #[inline(always)]
    fn fetch(&self, pc: u32) -> Option<u32> {
        self.code.fetch(pc)
    }

    #[inline(always)]
    fn kept(&self, pc: u32) -> Option<Instr> {
        self.code.kept(pc)
    }

    #[inline(always)]
    fn load(&mut self, at: u32, width: u32) -> Result<u32, Deny> {
        let r = Range {
            base: at,
            len: width,
        };
        if SCRATCH.contains(&r) {
            return Ok(self.scratch.number(&r));
        }
        match spot_with(self.spots, &r, self.last) {
            Some(i) => {
                self.last = i;
                let (number, near) = number_in(
                    self.space,
                    self.buffers,
                    self.spots,
                    i,
                    &r,
                    self.near,
                );
                self.near = near;
                Ok(number)
            }
            None => match fixed_place(self.space, &r, self.near) {
                Some(found) => {
                    self.near = found.index;
                    Ok(fixed_number(self.space, self.buffers, self.spots, found, &r))
                }
                None => Err(Deny::Denied),
            },
        }
    }

    #[inline(always)]
    fn store(&mut self, at: u32, width: u32, value: u32) -> Result<(), Deny> {
        let r = Range {
            base: at,
            len: width,
        };
        if SCRATCH.contains(&r) {
            self.scratch.put(&r, value);
            return Ok(());
        }
        match spot_with(self.spots, &r, self.last) {
            Some(i) => {
                if !writes(spot_in(self.spots, i, &r).mode) {
                    return Err(Deny::Denied);
                }
                self.last = i;
                self.near = put_in(
                    self.space,
                    self.buffers,
                    self.spots,
                    i,
                    &r,
                    self.near,
                    value,
                );
                Ok(())
            }
            None => Err(Deny::Denied),
        }
    }
}

impl TaskView for WorkerTask<'_> {
    ghost use Rattle.std.proofs.Common.{◌∙◌};
    ghost use Rattle.tss_protocol.specs.Workers.{Stores};
    ghost use Rattle.tss_steps.specs.Seen.{task_sight};
    ghost use Rattle.tss_workers.specs.Working.{IsSameTask, beyond_of, terms_of};

    ghost Beyond = { Stores };

    ghost beyond = { beyond_of };

    ghost scratch = { λ v. v.scratch.now };

    ghost terms = { terms_of };

    ghost Keeps = { IsSameTask };

    ghost sees = { λ v i. task_sight (terms_of v) v.scratch.now (beyond_of v) };

    ghost left = { λ v w x l. l.left };

    ghost kept = { λ u v w x l k. record {
      ranges = l.same.ranges ∙ k.ranges;
      sizes = record {
        banks = l.same.sizes.banks ∙ k.sizes.banks;
        each = l.same.sizes.each ∙ k.sizes.each;
        bytes = l.same.sizes.bytes ∙ k.sizes.bytes;
      };
      reference = l.same.reference ∙ k.reference;
      buffers_reference = l.same.buffers_reference ∙ k.buffers_reference;
      scratch_reference = l.same.scratch_reference ∙ k.scratch_reference;
    } };
}
