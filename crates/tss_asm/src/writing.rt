// The bytes of an image.
ghost use Rattle.std.specs.Prelude.{◌≡◌, ℕ, ◌+◌, ◌*◌, ◌%◌, ◌<◌, ◌^◌, ◌++◌, true, false, IfOk, IfErr, OnOk};
ghost use Rattle.tss_isa.specs.InstrTable.{is_within, twos};
ghost use Rattle.tss_elf.specs.Elf.{image_of, Accepted};
ghost use Rattle.tss_asm.specs.declared.fault.AsmFault.TheVariants as fault;
ghost use Rattle.tss_asm.specs.Labels.{label_place};
ghost use Rattle.tss_asm.specs.Words.{distance, upper_part, lower_part, label_address, content, content_word, words_from};
ghost use Rattle.tss_asm.specs.Image.{bytes_of_words, file_header_bytes, image_bytes, built_image};
ghost use Rattle.tss_asm.specs.Faults.{is_far, is_unfit, has_fit_fields, any_from, IsFaultless, first_fault, Answers};

use crate::checking::WORD_LEN;
use crate::fault::AsmFault;
use crate::item::Item;
use crate::label::{Label, Labels};
use crate::program::Program;
use tss_elf::{FILE_HEADER_LEN, HEADER_LEN};
use tss_isa::{ImmOp, Instr, encode};

/// How many bytes stand before the words of the text: a file header and two program headers.
const HEADERS_LEN: u32 = (FILE_HEADER_LEN + 2 * HEADER_LEN) as u32;

/// What the file header has before the entry: the ELF format with 32 bits, the lowest byte first, of version 1; an
/// executable file; for RISC-V; of version 1.
const BEFORE_ENTRY: [u8; 24] = [
    0x7F, 0x45, 0x4C, 0x46, 1, 1, 1, 0, 0, 0, 0, 0, 0, 0, 0, 0, 2, 0, 243, 0, 1, 0, 0, 0,
];

/// What it has after the entry: program headers at 52 and no section headers, no flags, a file header of 52 bytes, two
/// program headers of 32, and no section header.
const AFTER_ENTRY: [u8; 24] = [
    52, 0, 0, 0, 0, 0, 0, 0, 0, 0, 0, 0, 52, 0, 32, 0, 2, 0, 0, 0, 0, 0, 0, 0,
];

/// A program header's type of a segment that is loaded.
const LOADED: u32 = 1;

const READ_AND_EXECUTED: u32 = 5;

const READ_AND_WRITTEN: u32 = 6;

/// What LUI loads of an address: a multiple of 2^12.
pub fn upper_part(address: u32) -> u32
    ensures { result ≡ upper_part address }
{
    let rounded = (u64::from(address) + 0x800) >> 12;
    ((rounded & 0xF_FFFF) as u32) << 12
}

/// What ADDI adds to that, from -2048 to 2047. So the upper part is one more where this is below zero.
pub fn lower_part(address: u32) -> i32
    ensures exact { result ≡ lower_part address }
    ensures sum { (upper_part address + twos result) % 2 ^ 32 ≡ address }
{
    let low = (address & 0xFFF) as i32;
    if low < 0x800 { low } else { low - 0x1000 }
}

/// How many bytes a place is after another, or before it where that is less than zero.
fn distance(from: usize, to: usize) -> i32
    requires { is_within (2 ^ 20) (distance from to) ≡ true }
    ensures { result ≡ distance from to }
{
    if from <= to {
        (WORD_LEN * (to - from)) as i32
    } else {
        -((WORD_LEN * (from - to)) as i32)
    }
}

impl Labels {
    /// The address of a label in a text at an address.
    fn address(&self, text_at: u32, label: Label) -> u32
        requires { label_address text_at self.now label < 2 ^ 32 }
        ensures { result ≡ label_address text_at self.now label }
    {
        text_at + (WORD_LEN * self.place_or_start(label)) as u32
    }
}

impl Item {
    /// Its word at a place of a text at an address.
    fn word(&self, text_at: u32, labels: &Labels, at: usize) -> u32
        requires near { is_far labels.now at self.now ≡ false }
        requires fit { has_fit_fields self.now ≡ true }
        requires small { (label : ℕ) → label_address text_at labels.now label < 2 ^ 32 }
        ensures { result ≡ content_word (content text_at labels.now at self.now) }
    {
        match *self {
            Item::Plain(i) => encode(&i),
            Item::Branch { test, rs1, rs2, to } => {
                let offset = distance(at, labels.place_or_start(to));
                encode(&Instr::Branch {
                    test,
                    rs1,
                    rs2,
                    offset,
                })
            }
            Item::Jump { rd, to } => {
                let offset = distance(at, labels.place_or_start(to));
                encode(&Instr::Jal { rd, offset })
            }
            Item::Upper { rd, of } => {
                let imm = upper_part(labels.address(text_at, of));
                encode(&Instr::Lui { rd, imm })
            }
            Item::Lower { rd, of } => {
                let imm = lower_part(labels.address(text_at, of));
                encode(&Instr::OpImm {
                    op: ImmOp::Addi,
                    rd,
                    rs1: rd,
                    imm,
                })
            }
            Item::Number(n) => n,
            Item::Address(of) => labels.address(text_at, of),
        }
    }
}

/// Puts the bytes of words, one after the other, each with its lowest byte first.
fn put_words(out: &mut Vec<u8>, words: &[u32]) -> Result<(), AsmFault>
    ensures ok { OnOk result (out.new.items ≡ out.old.items ++ bytes_of_words words.now) }
    ensures err { IfErr result (λ e. e ≡ fault.NoMemory) }
{
    for word in words {
        out.extend_from_slice(&word.to_le_bytes())?;
    }
    Ok(())
}

/// Puts a file header.
fn put_file_header(out: &mut Vec<u8>, entry: u32) -> Result<(), AsmFault>
    ensures ok { OnOk result (out.new.items ≡ out.old.items ++ file_header_bytes entry) }
    ensures err { IfErr result (λ e. e ≡ fault.NoMemory) }
{
    out.extend_from_slice(&BEFORE_ENTRY)?;
    out.extend_from_slice(&entry.to_le_bytes())?;
    out.extend_from_slice(&AFTER_ENTRY)?;
    Ok(())
}

/// Puts the words of a text at an address.
fn put_text(out: &mut Vec<u8>, text: &[Item], text_at: u32, labels: &Labels) -> Result<(), AsmFault>
    requires near { any_from (is_far labels.now) 0 text.now ≡ false }
    requires fit { any_from (λ at x. is_unfit (content text_at labels.now at x)) 0 text.now ≡ false }
    requires small { (label : ℕ) → label_address text_at labels.now label < 2 ^ 32 }
    ensures ok { OnOk result (out.new.items ≡ out.old.items ++ bytes_of_words (words_from text_at labels.now 0 text.now)) }
    ensures err { IfErr result (λ e. e ≡ fault.NoMemory) }
{
    for (at, item) in text.iter().enumerate() {
        let word = item.word(text_at, labels, at);
        out.extend_from_slice(&word.to_le_bytes())?;
    }
    Ok(())
}

impl Program {
    /// The bytes of the image of a program without faults.
    fn image(&self, entry: Label) -> Result<Vec<u8>, AsmFault>
        requires { IsFaultless self.now entry }
        ensures ok { IfOk result (λ bytes. bytes.items ≡ image_bytes self.now entry) }
        ensures err { IfErr result (λ e. e ≡ fault.NoMemory) }
    {
        let text_len = (WORD_LEN * self.text.len()) as u32;
        let data_len = (WORD_LEN * self.data_words.len()) as u32;
        let data_offset = if self.data_words.is_empty() {
            0
        } else {
            HEADERS_LEN + text_len
        };
        let text_at = self.text_at;
        let data_at = self.data_at;
        let mut out = Vec::with_capacity(self.alloc, (HEADERS_LEN + text_len + data_len) as usize)?;
        put_file_header(&mut out, self.labels.address(text_at, entry))?;
        put_words(
            &mut out,
            &[
                LOADED,
                HEADERS_LEN,
                text_at,
                text_at,
                text_len,
                text_len,
                READ_AND_EXECUTED,
                4,
            ],
        )?;
        put_words(
            &mut out,
            &[
                LOADED,
                data_offset,
                data_at,
                data_at,
                data_len,
                data_len + self.zeros,
                READ_AND_WRITTEN,
                4,
            ],
        )?;
        put_text(&mut out, &self.text, text_at, &self.labels)?;
        put_words(&mut out, &self.data_words)?;
        Ok(out)
    }

    /// The bytes of the image: a header, two program headers, of the text and of the data, and their words. Its entry is
    /// the place of a label, which counts as used.
    pub fn finish(self, entry: Label) -> Result<Vec<u8>, AsmFault>
        ensures exact { Answers result (first_fault self entry) (λ bytes. bytes.items ≡ image_bytes self entry) }
        // The reader of images accepts it, and it is loaded as the words that were built.
        ensures accepted { IfOk result (λ bytes. image_of bytes.items ≡ Accepted (built_image self entry)) }
    {
        if self.has_unknown_label(entry) {
            return Err(AsmFault::UnknownLabel);
        }
        if self.has_far_target() {
            return Err(AsmFault::FarTarget);
        }
        if self.has_bad_immediate() {
            return Err(AsmFault::BadImmediate);
        }
        if !self.is_laid_out(entry) {
            return Err(AsmFault::BadLayout);
        }
        self.image(entry)
    }
}
