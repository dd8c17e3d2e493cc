// What a task of the flat machine sees.
ghost use Rattle.tss_steps.specs.Placing.{IsGround};

use tss_base::addresses::SCRATCH;
use tss_base::{Operand, Range};
use tss_core::{Deny, Purpose, View};
use tss_isa::Instr;
use tss_memory::{Code, Space};
use tss_steps::{Scratch, TaskView, task_place};

/// What a task sees: memory, the code, its scratch and its operands. The range of memory at the place `near` is tried
/// first.
#[derive(Drop)]
pub(crate) struct HomeTask<'a> {
    pub(crate) space: &'a mut Space,
    pub(crate) code: &'a Code,
    pub(crate) scratch: &'a mut Scratch,
    pub(crate) operands: &'a [Operand],
    pub(crate) near: u32,
    ghost ground: { IsGround space.now.ranges operands.now },
}

impl View for HomeTask<'_> {
    ghost use Rattle.std.specs.Prelude.{refl};
    ghost use Rattle.tss_steps.specs.Seen.{task_sight};
    ghost use Rattle.tss_inorder.specs.Home.{home_terms};
    ghost use Rattle.tss_inorder.specs.Left.{TaskLeaves};

    ghost sight = { λ v. task_sight (home_terms v.code.now v.space.now.ranges v.operands.now) v.scratch.now v.space.now };

    ghost Leaves = { TaskLeaves };

    ghost stays = { λ v. record {
      left = record { terms = refl; scratch = refl; beyond = refl };
      same = record { ranges = refl; reference = refl; scratch_reference = refl };
    } };

    #[inline(always)]
    fn fetch(&self, pc: u32) -> Option<u32> {
        self.code.fetch(pc)
    }

    #[inline(always)]
    fn kept(&self, pc: u32) -> Option<Instr> {
        self.code.kept(pc)
    }

    #[inline(always)]
    fn load(&mut self, at: u32, width: u32) -> Result<u32, Deny> {
        let r = Range {
            base: at,
            len: width,
        };
        if SCRATCH.contains(&r) {
            return Ok(self.scratch.number(&r));
        }
        let found = task_place(self.space, self.operands, Purpose::Loads, &r, self.near)?;
        self.near = found.index;
        Ok(self.space.number(found, &r))
    }

    #[inline(always)]
    fn store(&mut self, at: u32, width: u32, value: u32) -> Result<(), Deny> {
        let r = Range {
            base: at,
            len: width,
        };
        if SCRATCH.contains(&r) {
            self.scratch.put(&r, value);
            return Ok(());
        }
        let found = task_place(self.space, self.operands, Purpose::Stores, &r, self.near)?;
        self.near = found.index;
        self.space.set_number(found, &r, value);
        Ok(())
    }
}

impl TaskView for HomeTask<'_> {
    ghost use Rattle.std.proofs.Common.{◌∙◌};
    ghost use Rattle.tss_model.specs.Memory.{Memory};
    ghost use Rattle.tss_steps.specs.Seen.{task_sight};
    ghost use Rattle.tss_inorder.specs.Home.{home_terms};
    ghost use Rattle.tss_inorder.specs.Left.{IsSameTask};

    ghost Beyond = { Memory };

    ghost beyond = { λ v. v.space.now };

    ghost scratch = { λ v. v.scratch.now };

    ghost terms = { λ v. home_terms v.code.now v.space.now.ranges v.operands.now };

    ghost Keeps = { IsSameTask };

    ghost sees = { λ v i. task_sight (home_terms v.code.now v.space.now.ranges v.operands.now) v.scratch.now v.space.now };

    ghost left = { λ v w x l. l.left };

    ghost kept = { λ u v w x l k. record {
      ranges = l.same.ranges ∙ k.ranges;
      reference = l.same.reference ∙ k.reference;
      scratch_reference = l.same.scratch_reference ∙ k.scratch_reference;
    } };
}
