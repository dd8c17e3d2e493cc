// The words of marks, and of what may be there.
ghost use Rattle.std.specs.Prelude.{◌≡◌, ◌∷◌, [], decimal, option_map};
ghost use Rattle.tss_events.specs.Events.{storage_name};
ghost use Rattle.tss_protocol.specs.Text.{name_text};
ghost use Rattle.tss_stations.specs.Views.{source_by};
ghost use Rattle.tss_state_lines.specs.Words as words;

use crate::word::Word;
use tss_base::{Farewell, Follow, How, LinkState, Mode, OpName, Stage, Storage};

/// How a task uses an object.
pub(crate) fn mode_word(mode: Mode) -> Word
    ensures { result ≡ words.mode_word mode }
{
    match mode {
        Mode::Input => Word::of(b"input"),
        Mode::Output => Word::of(b"output"),
        Mode::Inout => Word::of(b"inout"),
    }
}

/// Where a value lies.
pub(crate) fn storage_word(storage: Storage) -> Word
    ensures { result ≡ words.storage_word (storage_name storage) }
{
    match storage {
        Storage::Home => Word::of(b"home"),
        Storage::Buffer(_, name) => Word::name(name),
    }
}

/// Where a value lies, if it is there.
pub(crate) fn optional_storage(storage: Option<Storage>) -> Word
    ensures { result ≡ words.optional words.storage_word (option_map storage_name storage) }
{
    match storage {
        None => Word::of(b"-"),
        Some(storage) => storage_word(storage),
    }
}

/// A name, if there is one.
pub(crate) fn optional_name(name: Option<OpName>) -> Word
    ensures { result ≡ words.optional name_text name }
{
    match name {
        None => Word::of(b"-"),
        Some(name) => Word::name(name),
    }
}

/// A number, if there is one.
pub(crate) fn optional_number(number: Option<u32>) -> Word
    ensures { result ≡ words.optional decimal number }
{
    match number {
        None => Word::of(b"-"),
        Some(number) => Word::number(u64::from(number)),
    }
}

/// How far a task is.
pub(crate) fn stage_word(stage: Stage) -> Word
    ensures { result ≡ words.stage_word stage }
{
    match stage {
        Stage::Waiting => Word::of(b"waiting"),
        Stage::Queued => Word::of(b"queued"),
        Stage::Running => Word::of(b"running"),
        Stage::Finished => Word::of(b"finished"),
    }
}

/// The next operand while a link is held, or that the link has passed.
pub(crate) fn link_word(link: LinkState) -> Word
    ensures { result ≡ words.link_word link }
{
    match link {
        LinkState::Nothing => Word::of(b"-"),
        LinkState::Held(next) => Word::name(next),
        LinkState::Passed => Word::of(b"passed"),
    }
}

/// How far a farewell is.
pub(crate) fn farewell_word(farewell: Farewell) -> Word
    ensures { result ≡ words.farewell_word farewell }
{
    match farewell {
        Farewell::Nothing => Word::of(b"-"),
        Farewell::Promised => Word::of(b"promised"),
        Farewell::Left => Word::of(b"left"),
    }
}

/// The other version of a link between versions, if there is one.
pub(crate) fn followed_word(follow: Option<Follow>) -> Word
    ensures { result ≡ words.optional (λ f. name_text f.version) follow }
{
    match follow {
        None => Word::of(b"-"),
        Some(follow) => Word::name(follow.version),
    }
}

/// How the later of two versions follows the earlier, if there is such a link.
pub(crate) fn how_word(follow: Option<Follow>) -> Word
    ensures { result ≡ words.optional (λ f. words.how_word f.how) follow }
{
    match follow {
        None => Word::of(b"-"),
        Some(follow) => match follow.how {
            How::Beside => Word::of(b"beside"),
            How::Over => Word::of(b"over"),
        },
    }
}

/// The final number of the earlier version's uses, if there is such a link.
pub(crate) fn final_word(follow: Option<Follow>) -> Word
    ensures { result ≡ words.optional (λ f. decimal f.last) follow }
{
    match follow {
        None => Word::of(b"-"),
        Some(follow) => Word::number(u64::from(follow.last)),
    }
}

/// The version and the storage of its value, where an operand was told both.
pub(crate) fn source_words(version: Option<OpName>, storage: Option<Storage>) -> (Word, Word)
    ensures { (result.0 ∷ result.1 ∷ []) ≡ words.source_words (source_by version storage) }
{
    match (version, storage) {
        (Some(version), Some(storage)) => (Word::name(version), storage_word(storage)),
        _ => (Word::of(b"-"), Word::of(b"-")),
    }
}

/// Whether main has ended.
pub(crate) fn ended_word(ended: bool) -> Word
    ensures { result ≡ words.ended_word ended }
{
    if ended {
        Word::of(b"ended")
    } else {
        Word::of(b"runs")
    }
}

/// Whether a version is produced.
pub(crate) fn produced_word(produced: bool) -> Word
    ensures { result ≡ words.produced_word produced }
{
    if produced {
        Word::of(b"produced")
    } else {
        Word::of(b"open")
    }
}

/// Whether an entry's object is about to leave the tables.
pub(crate) fn retiring_word(retiring: bool) -> Word
    ensures { result ≡ words.retiring_word retiring }
{
    if retiring {
        Word::of(b"retiring")
    } else {
        Word::of(b"live")
    }
}
