// The versions of all banks, by name.
ghost use Rattle.std.specs.Prelude.{◌≡◌, option_map};
ghost use Rattle.std.specs.FinMap.{entries};
ghost use Rattle.std.specs.List.{flat_map};
ghost use Rattle.tss_pipeline.specs.BankParts.{versions_at};
ghost use Rattle.tss_text.specs.Pieces.{Emits};
ghost use Rattle.tss_state_lines.specs.Lines.{version_line};
ghost use Rattle.tss_state_text.specs.Versions.{earlier as earlier_of, next_entry, shown};

use tss_base::OpName;
use tss_outside::{Failed, Sink};
use tss_pipeline::Pipeline;
use tss_state_lines::put_version;
use tss_text::PieceWriter;
use tss_versions::VersionView;

/// The first version of a bank above a name, or the first of all where there is no name.
fn next_in(p: &Pipeline, bank: u32, last: Option<OpName>) -> Option<VersionView>
    ensures { option_map shown result
        ≡ next_entry (versions_at p.now.machine.sizes bank p.now.state.versions) last }
{
    match last {
        None => p.version_at(bank, 0),
        Some(last) => match p.version_after(bank, last) {
            Some(v) => p.version(bank, v),
            None => None,
        },
    }
}

/// The earlier of two versions by name, where there are any.
fn earlier(a: Option<VersionView>, b: Option<VersionView>) -> Option<VersionView>
    ensures { result ≡ earlier_of a b }
{
    match (a, b) {
        (None, other) => other,
        (Some(a), None) => Some(a),
        (Some(a), Some(b)) => Some(if b.name < a.name { b } else { a }),
    }
}

/// The first version of all banks above a name, or the first of all where there is no name.
fn next_version(p: &Pipeline, last: Option<OpName>) -> Option<VersionView>
    ensures { option_map shown result ≡ next_entry p.now.state.versions last }
{
    p.reached();
    let mut first = None;
    for bank in 0..p.machine().sizes.banks {
        first = earlier(first, next_in(p, bank, last));
    }
    first
}

/// Puts the lines of all versions, by name.
pub(crate) fn put_versions<K: Sink>(to: &mut PieceWriter<'_, K>, p: &Pipeline) -> Result<(), Failed>
    ensures { Emits K.Sink to.old to.new result
        (flat_map (λ e. version_line e.0 e.1) (entries p.now.state.versions)) }
{
    let mut next = next_version(p, None);
    while let Some(version) = next {
        put_version(to, &version)?;
        next = next_version(p, Some(version.name));
    }
    Ok(())
}
