// The workload's image, by its program.
ghost use Rattle.std.specs.Prelude.{◌≡◌, ℕ, ◌+◌, ◌*◌, ◌<◌, ◌≤◌, ◌++◌, [], ◌∷◌, map, flat_map, IfOk, OnOk};
ghost use Rattle.std.specs.List.{range_with_len};
ghost use Rattle.tss_elf.specs.Elf.{image_of};
ghost use Rattle.tss_asm.specs.declared.fault.AsmFault.TheVariants as faults;
ghost use Rattle.tss_asm.specs.declared.item.Item.TheVariants as items;
ghost use Rattle.tss_asm.specs.Program.{with_items};
ghost use Rattle.tss_gen.specs.declared.form.Form.TheVariants as forms;
ghost use Rattle.tss_gen.specs.Workload.{block, numbered_block, last_number, diagonal_record, extract_record, column_record, update_record, update_row, up_to, between, records, table, block_words, workload_bytes};
ghost use Rattle.tss_gen.specs.Accepted.{IsImage};
ghost use Rattle.tss_gen.specs.Built.{IsWorkload};

use crate::form::Form;
use crate::tasks::{MAIN_LOOP, tasks};
use std::alloc::Global;
use tss_asm::{AsmFault, Label, Program};
use tss_base::NoMemory;
use tss_base::lists::{INOUT, INPUT, OUTPUT};
use tss_isa::Instr;

/// Where the text begins, and where the blocks do.
const TEXT: u32 = 0x1_0000;

const DATA: u32 = 0x100_0000;

/// Where each task begins.
const DIAGONAL: u32 = TEXT;

const EXTRACT: u32 = TEXT + 4 * 9;

const COLUMN: u32 = TEXT + 4 * 17;

const UPDATE: u32 = TEXT + 4 * 27;

/// How many bytes a block has.
const BLOCK_LEN: u32 = 64;

/// The address of the block of a number.
fn numbered_block(m: u32) -> u32
    requires { m ≤ 2000 }
    ensures { result ≡ numbered_block m }
{
    DATA + BLOCK_LEN * m
}

/// The address of a block of the triangle.
fn block(i: u32, j: u32) -> u32
    requires i { i < 40 }
    requires j { j < 40 }
    ensures { result ≡ block i j }
{
    numbered_block(i * (i + 1) / 2 + j)
}

/// The number of the block T.
fn last_number(n: u32) -> u32
    requires { n ≤ 40 }
    ensures value { result ≡ last_number n }
    ensures small { result ≤ 820 }
{
    n * (n + 1) / 2
}

/// Puts instructions.
fn put_instructions(program: &mut Program, code: &[Instr]) -> Result<(), NoMemory>
    ensures { OnOk result (program.new ≡ with_items program.old (map items.Plain code.now)) }
{
    for i in code {
        program.instr(*i)?;
    }
    Ok(())
}

/// Puts numbers.
fn put_numbers(program: &mut Program, numbers: &[u32]) -> Result<(), NoMemory>
    ensures { OnOk result (program.new ≡ with_items program.old (map items.Number numbers.now)) }
{
    for number in numbers {
        program.word(*number)?;
    }
    Ok(())
}

/// Puts the record of D on the block of k.
fn put_diagonal(program: &mut Program, k: u32) -> Result<(), NoMemory>
    requires { k < 40 }
    ensures { OnOk result (program.new ≡ with_items program.old (map items.Number (diagonal_record k))) }
{
    let on = block(k, k);
    put_numbers(
        program,
        &[DIAGONAL, 1, k, on, BLOCK_LEN, INOUT, 0, 0, 0, 0, 0, 0],
    )
}

/// Puts the record of E, from the block of k to T.
fn put_extract(program: &mut Program, n: u32, k: u32) -> Result<(), NoMemory>
    requires n { n ≤ 40 }
    requires k { k < 40 }
    ensures { OnOk result (program.new ≡ with_items program.old (map items.Number (extract_record n k))) }
{
    let from = block(k, k);
    let to = numbered_block(last_number(n));
    put_numbers(
        program,
        &[
            EXTRACT, 2, k, from, BLOCK_LEN, INPUT, to, BLOCK_LEN, OUTPUT, 0, 0, 0,
        ],
    )
}

/// Puts the record of C on T and the block below that of k.
fn put_column(program: &mut Program, n: u32, k: u32, i: u32) -> Result<(), NoMemory>
    requires n { n ≤ 40 }
    requires k { k < 40 }
    requires i { i < 40 }
    ensures { OnOk result (program.new ≡ with_items program.old (map items.Number (column_record n k i))) }
{
    let from = numbered_block(last_number(n));
    let on = block(i, k);
    put_numbers(
        program,
        &[
            COLUMN, 2, k, from, BLOCK_LEN, INPUT, on, BLOCK_LEN, INOUT, 0, 0, 0,
        ],
    )
}

/// Puts the record of U on three blocks.
fn put_update(program: &mut Program, k: u32, i: u32, j: u32) -> Result<(), NoMemory>
    requires k { k < 40 }
    requires i { i < 40 }
    requires j { j < 40 }
    ensures { OnOk result (program.new ≡ with_items program.old (map items.Number (update_record k i j))) }
{
    let row = block(i, k);
    let column = block(j, k);
    let on = block(i, j);
    put_numbers(
        program,
        &[
            UPDATE, 3, k, row, BLOCK_LEN, INPUT, column, BLOCK_LEN, INPUT, on, BLOCK_LEN, INOUT,
        ],
    )
}

/// Puts the records of the columns below a diagonal block.
fn put_columns(program: &mut Program, n: u32, k: u32) -> Result<(), NoMemory>
    requires n { n ≤ 40 }
    requires k { k < n }
    ensures { OnOk result (program.new ≡ with_items program.old (map items.Number (flat_map (column_record n k) (between k n)))) }
{
    for i in k + 1..n {
        put_column(program, n, k, i)?;
    }
    Ok(())
}

/// Puts the records of the updates of a row.
fn put_row(program: &mut Program, k: u32, i: u32) -> Result<(), NoMemory>
    requires k { k < i }
    requires i { i < 40 }
    ensures { OnOk result (program.new ≡ with_items program.old (map items.Number (update_row k i))) }
{
    for j in k + 1..i + 1 {
        put_update(program, k, i, j)?;
    }
    Ok(())
}

/// Puts the records of the updates of all rows below a diagonal block.
fn put_rows(program: &mut Program, n: u32, k: u32) -> Result<(), NoMemory>
    requires n { n ≤ 40 }
    requires k { k < n }
    ensures { OnOk result (program.new ≡ with_items program.old (map items.Number (flat_map (update_row k) (between k n)))) }
{
    for i in k + 1..n {
        put_row(program, k, i)?;
    }
    Ok(())
}

/// Puts the records of one k.
fn put_records(program: &mut Program, n: u32, k: u32) -> Result<(), NoMemory>
    requires n { n ≤ 40 }
    requires k { k < n }
    ensures { OnOk result (program.new ≡ with_items program.old (map items.Number (records n k))) }
{
    put_diagonal(program, k)?;
    put_extract(program, n, k)?;
    put_columns(program, n, k)?;
    put_rows(program, n, k)
}

/// Puts the table.
fn put_table(program: &mut Program, n: u32) -> Result<(), NoMemory>
    requires { n ≤ 40 }
    ensures { OnOk result (program.new ≡ with_items program.old (map items.Number (table n))) }
{
    for k in 0..n {
        put_records(program, n, k)?;
    }
    Ok(())
}

/// Puts the words of the blocks.
fn put_blocks(program: &mut Program, n: u32) -> Result<(), NoMemory>
    requires { n ≤ 40 }
    ensures { OnOk result (program.new ≡ record program.old { data_words = program.old.data_words ++ block_words n }) }
{
    for word in 1..16 * (last_number(n) + 1) + 1 {
        program.data_word(word)?;
    }
    Ok(())
}

/// The program of a form, and where main begins.
fn program_of(alloc: Global, form: Form, n: u32) -> Result<(Program, Label), NoMemory>
    requires { n ≤ 40 }
    ensures { IfOk result (λ built. IsWorkload form n built.0 built.1) }
{
    let mut program = Program::open(alloc, TEXT, DATA);
    put_instructions(&mut program, tasks(form))?;
    let from = program.label()?;
    program.place(from)?;
    put_table(&mut program, n)?;
    let start = program.label()?;
    program.place(start)?;
    program.address(8, from)?;
    program.address(9, start)?;
    put_instructions(&mut program, &MAIN_LOOP)?;
    put_blocks(&mut program, n)?;
    Ok((program, start))
}

/// The one fault that a workload can have.
fn memory_ran_out(fault: AsmFault) -> NoMemory
    requires { fault ≡ faults.NoMemory }
{
    NoMemory
}

/// The image of a form.
fn built(alloc: Global, form: Form, n: u32) -> Result<Vec<u8>, NoMemory>
    requires { n ≤ 40 }
    ensures exact { IfOk result (λ bytes. bytes.items ≡ workload_bytes form n) }
    ensures accepted { IfOk result (λ bytes. IsImage bytes.items) }
{
    let (program, start) = program_of(alloc, form, n)?;
    match program.finish(start) {
        Ok(bytes) => Ok(bytes),
        Err(fault) => Err(memory_ran_out(fault)),
    }
}

/// The image of the workload with shifts and exclusive or, with n blocks a side.
pub fn workload(alloc: Global, n: u32) -> Result<Vec<u8>, NoMemory>
    requires low { 1 ≤ n }
    requires high { n ≤ 40 }
    ensures exact { IfOk result (λ bytes. bytes.items ≡ workload_bytes forms.Shifts n) }
    ensures accepted { IfOk result (λ bytes. IsImage bytes.items) }
{
    built(alloc, Form::Shifts, n)
}

/// The image of the workload with products and quotients, with n blocks a side.
pub fn workload_mul(alloc: Global, n: u32) -> Result<Vec<u8>, NoMemory>
    requires low { 1 ≤ n }
    requires high { n ≤ 40 }
    ensures exact { IfOk result (λ bytes. bytes.items ≡ workload_bytes forms.Products n) }
    ensures accepted { IfOk result (λ bytes. IsImage bytes.items) }
{
    built(alloc, Form::Products, n)
}
