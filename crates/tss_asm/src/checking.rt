// The faults of a program.
ghost use Rattle.std.specs.Prelude.{◌≡◌, ◌*◌, ◌<◌, ◌^◌, false, not, IsTrue};
ghost use Rattle.std.specs.List.{list_any};
ghost use Rattle.tss_isa.specs.InstrTable.{is_register, is_within};
ghost use Rattle.tss_asm.specs.Words.{distance};
ghost use Rattle.tss_asm.specs.Faults.{used_label, is_unplaced, some_unplaced, is_far, has_fit_fields, any_from, has_unknown_label, has_far_target, has_bad_immediate, has_bad_layout};

use crate::item::Item;
use crate::label::{Label, Labels};
use crate::program::Program;
use tss_base::Range;
use tss_base::addresses::SEGMENTS_END;
use tss_base::bounds::MAX_IMAGE_BYTES;
use tss_isa::fits;

/// How many bytes a word has.
pub const WORD_LEN: usize = 4;

/// How many words a branch reaches on, and a jump, and one more back.
const BRANCH_REACH: usize = 0x400;

const JUMP_REACH: usize = 0x4_0000;

/// The most words of an image.
const MAX_WORDS: usize = MAX_IMAGE_BYTES as usize / WORD_LEN;

/// Whether a place is fewer than `reach` words after another, or at most so many before it.
fn reaches(from: usize, to: usize, reach: usize) -> bool
    requires { reach < 2 ^ 32 }
    ensures { result ≡ is_within (4 * reach) (distance from to) }
{
    if from <= to {
        to - from < reach
    } else {
        from - to <= reach
    }
}

fn is_register(r: u8) -> bool
    ensures { result ≡ is_register r }
{
    r < 32
}

impl Labels {
    /// Whether a label has no place.
    fn lacks(&self, label: Label) -> bool
        ensures { result ≡ is_unplaced self.now label }
    {
        self.place_of(label).is_none()
    }
}

impl Item {
    /// The label that it uses.
    fn label(&self) -> Option<Label>
        ensures { result ≡ used_label self.now }
    {
        match *self {
            Item::Branch {
                test: _,
                rs1: _,
                rs2: _,
                to,
            }
            | Item::Jump { rd: _, to } => Some(to),
            Item::Upper { rd: _, of } | Item::Lower { rd: _, of } | Item::Address(of) => Some(of),
            Item::Plain(_) | Item::Number(_) => None,
        }
    }

    /// Whether it uses a label that has no place.
    fn is_unplaced(&self, labels: &Labels) -> bool
        ensures { result ≡ some_unplaced labels.now (used_label self.now) }
    {
        match self.label() {
            Some(label) => labels.lacks(label),
            None => false,
        }
    }

    /// Whether it is a branch or a jump that doesn't reach its label from this place.
    fn is_far(&self, at: usize, labels: &Labels) -> bool
        ensures { result ≡ is_far labels.now at self.now }
    {
        match *self {
            Item::Branch {
                test: _,
                rs1: _,
                rs2: _,
                to,
            } => !reaches(at, labels.place_or_start(to), BRANCH_REACH),
            Item::Jump { rd: _, to } => !reaches(at, labels.place_or_start(to), JUMP_REACH),
            _ => false,
        }
    }

    /// Whether each field that it was given is in its range.
    fn fits(&self) -> bool
        ensures { result ≡ has_fit_fields self.now }
    {
        match *self {
            Item::Plain(i) => fits(&i),
            Item::Branch {
                test: _,
                rs1,
                rs2,
                to: _,
            } => is_register(rs1) && is_register(rs2),
            Item::Jump { rd, to: _ } => is_register(rd),
            Item::Upper { rd, of: _ } | Item::Lower { rd, of: _ } => is_register(rd),
            Item::Number(_) | Item::Address(_) => true,
        }
    }
}

/// Whether some item uses a label that has no place.
fn some_unplaced(text: &[Item], labels: &Labels) -> bool
    ensures { result ≡ list_any (λ x. some_unplaced labels.now (used_label x)) text.now }
{
    text.iter().any(|item| item.is_unplaced(labels))
}

/// Whether some branch or jump doesn't reach its label.
fn some_far(text: &[Item], labels: &Labels) -> bool
    ensures { result ≡ any_from (is_far labels.now) 0 text.now }
{
    for (at, item) in text.iter().enumerate() {
        if item.is_far(at, labels) {
            return true;
        }
    }
    false
}

/// Whether some item was given a field that is out of its range.
fn some_unfit(text: &[Item]) -> bool
    ensures { result ≡ list_any (λ x. not (has_fit_fields x)) text.now }
{
    text.iter().any(|item| !item.fits())
}

impl Program {
    /// Whether a label is used, as the entry or by an item, and has no place.
    pub(crate) fn has_unknown_label(&self, entry: Label) -> bool
        ensures { result ≡ has_unknown_label self.now entry }
    {
        self.labels.lacks(entry) || some_unplaced(&self.text, &self.labels)
    }

    /// Whether a branch or a jump doesn't reach its label.
    pub(crate) fn has_far_target(&self) -> bool
        ensures { result ≡ has_far_target self.now }
    {
        some_far(&self.text, &self.labels)
    }

    /// Whether an instruction has a field that is out of its range.
    pub(crate) fn has_bad_immediate(&self) -> bool
        requires { has_far_target self.now ≡ false }
        ensures { result ≡ has_bad_immediate self.now }
    {
        some_unfit(&self.text)
    }

    /// Whether the segments and the entry lie where an image may have them.
    pub(crate) fn is_laid_out(&self, entry: Label) -> bool
        ensures { result ≡ not (has_bad_layout self.now entry) }
    {
        let words = self.text.len();
        let data_words = self.data_words.len();
        let zeros = self.zeros;
        if words > MAX_WORDS || data_words > MAX_WORDS {
            return false;
        }
        let text_len = (WORD_LEN * words) as u32;
        let data_len = (WORD_LEN * data_words) as u64 + u64::from(zeros);
        if u64::from(text_len) + data_len > u64::from(MAX_IMAGE_BYTES) {
            return false;
        }
        let text = Range {
            base: self.text_at,
            len: text_len,
        };
        let data = Range {
            base: self.data_at,
            len: data_len as u32,
        };
        if self.labels.place_or_start(entry) >= words || self.text_at % 4 != 0 {
            return false;
        }
        if text.end() > u64::from(SEGMENTS_END) || data.end() > u64::from(SEGMENTS_END) {
            return false;
        }
        !text.meets(&data)
    }
}
