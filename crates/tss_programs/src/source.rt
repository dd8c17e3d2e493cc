// Programs by main's calls.
use crate::code::Code;
use std::alloc::Global;
use tss_asm::{AsmFault, Label, Program};
use tss_base::calls::{AWAIT, BARRIER, EXIT, PRINT, SPAWN};
use tss_base::lists::{INOUT, INPUT, OUTPUT};
use tss_isa::{ImmOp, Instr, Test};

/// Where the text begins, which is entered there, and where the data does.
const TEXT: u32 = 0x10000;

const DATA: u32 = 0x20000;

/// How many bytes of zeros the data has.
const DATA_LEN: u32 = 0x1000;

/// An operand as a list has it.
#[derive(Clone, Copy, Debug, PartialEq, Eq)]
pub struct Entry {
    pub base: u32,
    pub len: u32,
    pub mode: u32,
}

/// An input.
pub fn input(base: u32, len: u32) -> Entry {
    Entry {
        base,
        len,
        mode: INPUT,
    }
}

/// An output.
pub fn output(base: u32, len: u32) -> Entry {
    Entry {
        base,
        len,
        mode: OUTPUT,
    }
}

/// An operand that is read and written.
pub fn inout(base: u32, len: u32) -> Entry {
    Entry {
        base,
        len,
        mode: INOUT,
    }
}

/// A task and where its code stands.
#[derive(Clone, Copy)]
struct Placed {
    code: Code,
    at: Label,
}

/// A list of operands and where it stands.
#[derive(Drop)]
struct List {
    at: Label,
    entries: Vec<Entry>,
}

/// Main, call by call. Its words stand at 0x10000, the code of each task once directly after them, in the order of first
/// use, and the lists of operands after those, in the order of the spawns; a page of zeros stands at 0x20000.
#[derive(Drop)]
pub struct Source {
    alloc: Global,
    program: Program,
    start: Label,
    tasks: Vec<Placed>,
    lists: Vec<List>,
    last: Vec<u32>,
    zeros: u32,
}

impl Source {
    /// Main without words.
    pub fn open(alloc: Global) -> Result<Source, AsmFault> {
        let mut program = Program::open(alloc, TEXT, DATA);
        let start = program.label()?;
        program.place(start)?;
        Ok(Source {
            alloc,
            program,
            start,
            tasks: Vec::new(alloc),
            lists: Vec::new(alloc),
            last: Vec::new(alloc),
            zeros: DATA_LEN,
        })
    }

    /// Gives the data so many bytes of zeros in place of a page.
    pub fn zeros(&mut self, count: u32) {
        self.zeros = count;
    }

    /// Puts an instruction.
    pub fn instr(&mut self, i: Instr) -> Result<(), AsmFault> {
        Ok(self.program.instr(i)?)
    }

    /// Puts a number.
    pub fn word(&mut self, value: u32) -> Result<(), AsmFault> {
        Ok(self.program.word(value)?)
    }

    /// A label that is placed at the end of main as it is now.
    pub fn here(&mut self) -> Result<Label, AsmFault> {
        let label = self.program.label()?;
        self.program.place(label)?;
        Ok(label)
    }

    /// Puts a branch to a label.
    pub fn branch(&mut self, test: Test, rs1: u8, rs2: u8, to: Label) -> Result<(), AsmFault> {
        Ok(self.program.branch(test, rs1, rs2, to)?)
    }

    /// Puts the addition of a small number to a register.
    pub fn addi(&mut self, rd: u8, rs1: u8, imm: i32) -> Result<(), AsmFault> {
        self.instr(Instr::OpImm {
            op: ImmOp::Addi,
            rd,
            rs1,
            imm,
        })
    }

    /// Loads a number into a register, by two instructions.
    pub fn li(&mut self, rd: u8, value: u32) -> Result<(), AsmFault> {
        Ok(self.program.load(rd, value)?)
    }

    /// Makes the call of a number.
    fn call(&mut self, number: u32) -> Result<(), AsmFault> {
        self.li(17, number)?;
        self.instr(Instr::Ecall)
    }

    /// Where a task's code stands.
    fn task(&mut self, code: Code) -> Result<Label, AsmFault> {
        for placed in &self.tasks {
            if placed.code == code {
                return Ok(placed.at);
            }
        }
        let at = self.program.label()?;
        self.tasks.push(Placed { code, at })?;
        Ok(at)
    }

    /// Loads the address of a task's code into a register.
    pub fn task_address(&mut self, rd: u8, code: Code) -> Result<(), AsmFault> {
        let at = self.task(code)?;
        Ok(self.program.address(rd, at)?)
    }

    /// Loads the address of a list of these operands into a register, and 0 where there are none.
    fn list_address(&mut self, rd: u8, entries: &[Entry]) -> Result<(), AsmFault> {
        if entries.is_empty() {
            return self.li(rd, 0);
        }
        let at = self.program.label()?;
        let entries = Vec::from_slice(self.alloc, entries)?;
        self.lists.push(List { at, entries })?;
        Ok(self.program.address(rd, at)?)
    }

    /// Spawns a task with these operands and an argument.
    pub fn spawn(&mut self, code: Code, entries: &[Entry], argument: u32) -> Result<(), AsmFault> {
        let count = u32::try_from(entries.len()).unwrap_or(u32::MAX);
        self.spawn_of(code, entries, count, argument)
    }

    /// The same with another number of operands than the list has.
    pub fn spawn_of(
        &mut self,
        code: Code,
        entries: &[Entry],
        count: u32,
        argument: u32,
    ) -> Result<(), AsmFault> {
        self.task_address(10, code)?;
        self.list_address(11, entries)?;
        self.li(12, count)?;
        self.li(13, argument)?;
        self.call(SPAWN)
    }

    /// Ends the epoch.
    pub fn barrier(&mut self) -> Result<(), AsmFault> {
        self.call(BARRIER)
    }

    /// Prints bytes.
    pub fn print(&mut self, at: u32, len: u32) -> Result<(), AsmFault> {
        self.li(10, at)?;
        self.li(11, len)?;
        self.call(PRINT)
    }

    /// Waits for an object, by its base.
    pub fn wait_for(&mut self, base: u32) -> Result<(), AsmFault> {
        self.li(10, base)?;
        self.call(AWAIT)
    }

    /// Exits with a status.
    pub fn exit(&mut self, status: u32) -> Result<(), AsmFault> {
        self.li(10, status)?;
        self.call(EXIT)
    }

    /// A word to stand after the lists.
    pub fn last_word(&mut self, value: u32) -> Result<(), AsmFault> {
        Ok(self.last.push(value)?)
    }

    /// Puts the tasks' codes.
    fn put_tasks(&mut self) -> Result<(), AsmFault> {
        for placed in &self.tasks {
            self.program.place(placed.at)?;
            for i in placed.code.instructions() {
                self.program.instr(*i)?;
            }
        }
        Ok(())
    }

    /// Puts the lists.
    fn put_lists(&mut self) -> Result<(), AsmFault> {
        for list in &self.lists {
            self.program.place(list.at)?;
            for entry in &list.entries {
                self.program.word(entry.base)?;
                self.program.word(entry.len)?;
                self.program.word(entry.mode)?;
            }
        }
        Ok(())
    }

    /// The bytes of the image.
    pub fn image(mut self) -> Result<Vec<u8>, AsmFault> {
        self.put_tasks()?;
        self.put_lists()?;
        for word in &self.last {
            self.program.word(*word)?;
        }
        self.program.zeros(self.zeros);
        self.program.finish(self.start)
    }
}
