// Programs, item by item.
ghost use Rattle.std.specs.Prelude.{◌≡◌, ◌++◌, ◌∷◌, [], length, None, IfOk, IsOk, OnOk, OnErr};
ghost use Rattle.std.specs.FinMap.{get, insert};
ghost use Rattle.tss_asm.specs.declared.item.Item.TheVariants as items;
ghost use Rattle.tss_asm.specs.Labels.{placed};
ghost use Rattle.tss_asm.specs.Program.{empty_program, with_items};
ghost use Rattle.tss_asm.specs.Words.{loads};

use crate::item::Item;
use crate::label::{Label, Labels};
use crate::writing::{lower_part, upper_part};
use std::alloc::Global;
use std::marker::Model;
use tss_base::NoMemory;
use tss_isa::{ImmOp, Instr, Test};

/// A program that is built: a text of instructions and words in a segment that can be read and executed, and words of
/// data with zeros after them in one that can be read and written. After `NoMemory` all is as before.
#[derive(Drop)]
pub struct Program {
    pub(crate) alloc: Global,
    pub(crate) text_at: u32,
    pub(crate) data_at: u32,
    pub(crate) text: Vec<Item>,
    pub(crate) data_words: Vec<u32>,
    pub(crate) zeros: u32,
    pub(crate) labels: Labels,
}

impl Model for Program {
    ghost use Rattle.std.specs.Prelude.{length};
    ghost use Rattle.tss_asm.specs.Labels.{AreWithin};
    ghost use Rattle.tss_asm.specs.Program.{ProgramState, program_code};

    ghost Value = { ProgramState };

    ghost coded = { program_code };

    ghost view = { λ p. record { text_at = p.text_at; data_at = p.data_at; text = p.text.items; data_words = p.data_words.items; zeros = p.zeros; labels = p.labels } };

    ghost invariant = { λ p. AreWithin p.labels (length p.text.items) };
}

impl Program {
    /// A program without words, whose segments begin at these addresses.
    pub fn open(alloc: Global, text_at: u32, data_at: u32) -> Program
        ensures { result ≡ empty_program text_at data_at }
    {
        Program {
            alloc,
            text_at,
            data_at,
            text: Vec::new(alloc),
            data_words: Vec::new(alloc),
            zeros: 0,
            labels: Labels::new(alloc),
        }
    }

    /// A label that isn't placed yet, under a number that was given to no label before.
    pub fn label(&mut self) -> Result<Label, NoMemory>
        ensures fresh { IfOk result (λ label. get self.old.labels label ≡ None) }
        ensures ok { IfOk result (λ label. self.new ≡ record self.old { labels = insert self.old.labels label None }) }
        ensures unchanged { OnErr result (self.new ≡ self.old) }
    {
        self.labels.give()
    }

    /// Places a label at the end of the text as it is now. A second place replaces the first. A number that wasn't given
    /// changes nothing.
    pub fn place(&mut self, label: Label) -> Result<(), NoMemory>
        ensures always { IsOk result }
        ensures placed { self.new ≡ record self.old { labels = placed self.old.labels label (length self.old.text) } }
    {
        self.labels.place(label, self.text.len());
        Ok(())
    }

    /// Puts an item at the end of the text.
    fn put(&mut self, item: Item) -> Result<(), NoMemory>
        ensures ok { OnOk result (self.new ≡ with_items self.old (item ∷ [])) }
        ensures unchanged { OnErr result (self.new ≡ self.old) }
    {
        self.text.push(item)?;
        Ok(())
    }

    /// Puts an instruction at the end of the text.
    pub fn instr(&mut self, i: Instr) -> Result<(), NoMemory>
        ensures ok { OnOk result (self.new ≡ with_items self.old (items.Plain i ∷ [])) }
        ensures unchanged { OnErr result (self.new ≡ self.old) }
    {
        self.put(Item::Plain(i))
    }

    /// Puts a branch to a label at the end of the text.
    pub fn branch(&mut self, test: Test, rs1: u8, rs2: u8, to: Label) -> Result<(), NoMemory>
        ensures ok { OnOk result (self.new ≡ with_items self.old (items.Branch test rs1 rs2 to ∷ [])) }
        ensures unchanged { OnErr result (self.new ≡ self.old) }
    {
        self.put(Item::Branch { test, rs1, rs2, to })
    }

    /// Puts a jump to a label at the end of the text.
    pub fn jump(&mut self, rd: u8, to: Label) -> Result<(), NoMemory>
        ensures ok { OnOk result (self.new ≡ with_items self.old (items.Jump rd to ∷ [])) }
        ensures unchanged { OnErr result (self.new ≡ self.old) }
    {
        self.put(Item::Jump { rd, to })
    }

    /// Puts two instructions at the end of the text that load a label's address: LUI, and ADDI with what is left.
    pub fn address(&mut self, rd: u8, of: Label) -> Result<(), NoMemory>
        ensures ok { OnOk result (self.new ≡ with_items self.old (items.Upper rd of ∷ items.Lower rd of ∷ [])) }
        ensures unchanged { OnErr result (self.new ≡ self.old) }
    {
        self.text.reserve(2)?;
        self.text.push_reserved(Item::Upper { rd, of });
        self.text.push_reserved(Item::Lower { rd, of });
        Ok(())
    }

    /// Puts two instructions at the end of the text that load a number: LUI, and ADDI with what is left.
    pub fn load(&mut self, rd: u8, value: u32) -> Result<(), NoMemory>
        ensures ok { OnOk result (self.new ≡ with_items self.old (loads rd value)) }
        ensures unchanged { OnErr result (self.new ≡ self.old) }
    {
        self.text.reserve(2)?;
        self.text.push_reserved(Item::Plain(Instr::Lui {
            rd,
            imm: upper_part(value),
        }));
        self.text.push_reserved(Item::Plain(Instr::OpImm {
            op: ImmOp::Addi,
            rd,
            rs1: rd,
            imm: lower_part(value),
        }));
        Ok(())
    }

    /// Puts a number at the end of the text.
    pub fn word(&mut self, value: u32) -> Result<(), NoMemory>
        ensures ok { OnOk result (self.new ≡ with_items self.old (items.Number value ∷ [])) }
        ensures unchanged { OnErr result (self.new ≡ self.old) }
    {
        self.put(Item::Number(value))
    }

    /// Puts a label's address at the end of the text.
    pub fn label_word(&mut self, of: Label) -> Result<(), NoMemory>
        ensures ok { OnOk result (self.new ≡ with_items self.old (items.Address of ∷ [])) }
        ensures unchanged { OnErr result (self.new ≡ self.old) }
    {
        self.put(Item::Address(of))
    }

    /// Puts a number at the end of the data.
    pub fn data_word(&mut self, value: u32) -> Result<(), NoMemory>
        ensures ok { OnOk result (self.new ≡ record self.old { data_words = self.old.data_words ++ value ∷ [] }) }
        ensures unchanged { OnErr result (self.new ≡ self.old) }
    {
        self.data_words.push(value)?;
        Ok(())
    }

    /// Gives the data so many bytes of zeros after its words, which have no place in the file. A second number replaces
    /// the first.
    pub fn zeros(&mut self, count: u32)
        ensures { self.new ≡ record self.old { zeros = count } }
    {
        self.zeros = count;
    }
}
