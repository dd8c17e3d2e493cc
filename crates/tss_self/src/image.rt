// The workload as an image.
ghost use Rattle.std.specs.Prelude.{◌≡◌, ◌≤◌, IfOk};
ghost use Rattle.tss_gen.specs.Accepted.{IsImage};
ghost use Rattle.tss_gen.specs.Workload.{workload_bytes};
ghost use Rattle.tss_self.specs.SelfAnswer.{self_image};

use std::alloc::Global;
use tss_base::{Image, NoMemory};
use tss_elf::{ImageFault, read_image};
use tss_gen::{Form, workload, workload_mul};

/// The bytes of the workload in a form.
fn workload_in(alloc: Global, n: u32, form: Form) -> Result<Vec<u8>, NoMemory>
    requires low { 1 ≤ n }
    requires high { n ≤ 40 }
    ensures exact { IfOk result (λ bytes. bytes.items ≡ workload_bytes form n) }
    ensures accepted { IfOk result (λ bytes. IsImage bytes.items) }
{
    match form {
        Form::Shifts => workload(alloc, n),
        Form::Products => workload_mul(alloc, n),
    }
}

/// The image of the workload in a form. It always passes the checks of images.
pub(crate) fn workload_image(alloc: Global, n: u32, form: Form) -> Result<Image, NoMemory>
    requires low { 1 ≤ n }
    requires high { n ≤ 40 }
    ensures { IfOk result (λ image. image ≡ self_image form n) }
{
    let bytes = workload_in(alloc, n, form)?;
    match read_image(alloc, bytes.as_slice()) {
        Ok(image) => Ok(image),
        Err(ImageFault::NoMemory) => Err(NoMemory),
        Err(ImageFault::Check(_)) => unreachable!(),
    }
}
