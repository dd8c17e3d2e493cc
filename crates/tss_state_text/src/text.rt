// The whole text, part by part.
ghost use Rattle.std.specs.Prelude.{◌≡◌};
ghost use Rattle.tss_model.specs.Memory.{loaded};
ghost use Rattle.tss_text.specs.Pieces.{Emits, Writes};
ghost use Rattle.tss_state_text.specs.StateText.{part_text, state_text};

use crate::items::{item_count, put_item};
use crate::part::{ALL_PARTS, Part};
use tss_base::Image;
use tss_outside::{Failed, Sink};
use tss_pipeline::Pipeline;
use tss_text::PieceWriter;

/// Puts a part of the text, item by item.
fn put_part<K: Sink>(
    to: &mut PieceWriter<'_, K>,
    p: &Pipeline,
    image: &Image,
    part: Part,
) -> Result<(), Failed>
    requires { p.now.state.home.ranges ≡ (loaded image.now).ranges }
    ensures { Emits K.Sink to.old to.new result (part_text (loaded image.now) p.now.machine p.now.state part) }
{
    for i in 0..item_count(p, part) {
        put_item(to, p, image, part, i)?;
    }
    Ok(())
}

/// Puts the parts in order.
fn put_parts<K: Sink>(
    to: &mut PieceWriter<'_, K>,
    p: &Pipeline,
    image: &Image,
) -> Result<(), Failed>
    requires { p.now.state.home.ranges ≡ (loaded image.now).ranges }
    ensures text { Emits K.Sink to.old to.new result (state_text (loaded image.now) p.now.machine p.now.state) }
    ensures same_sink { to.new.out.ghost_name ≡ to.old.out.ghost_name }
{
    for part in ALL_PARTS.iter() {
        put_part(to, p, image, *part)?;
    }
    Ok(())
}

/// Writes all that is in a state of the unit machine, in pieces of 4,096 bytes and a last shorter one. The image is the
/// one that the pipeline was opened with: rows of memory are written where they differ from it as loaded.
pub fn write_state<K: Sink>(out: &mut K, p: &Pipeline, image: &Image) -> Result<(), Failed>
    requires { p.now.state.home.ranges ≡ (loaded image.now).ranges }
    ensures { Writes K.Sink out.old out.new result (state_text (loaded image.now) p.now.machine p.now.state) }
{
    let mut to = PieceWriter::new(out);
    put_parts(&mut to, p, image)?;
    to.flush()
}
