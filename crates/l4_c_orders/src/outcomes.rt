//! What a search found.
ghost use Rattle.std.specs.Prelude.{◌≡◌, IfOk};
ghost use Rattle.l4_c_orders.specs.Found.{found_result, no_found, count_result, number_in, answers_in, witness_in, broken_in, lines_in, Writes, WritesNumbers, TellsFound, WritesNumber, TellsNumber, TellsAnswers, WritesWitness, TellsWitness, WritesBroken, TellsBroken, WritesLines, TellsLines};

use crate::handles::OrdersHandle;
use l4_c_texts::write_text;
use l4_c_values::{EMPTY, NO_MEMORY};
use l4_orders::{broken_rules, line_numbers, witness_text};
use l4_outcomes::{Searched, counts_of};
use std::alloc::{AllocError, Global};

/// How a search ended, and the numbers of outcomes that it found, of all orders, and of states that it visited.
#[repr(C)]
#[derive(Clone, Copy)]
pub struct FoundResult {
    pub refusal: u32,
    /// 1 if every order was followed; 2, 3 or 4 if the search ended early.
    pub ended: u32,
    pub outcomes: u64,
    /// 0 if the search ended early, and 2^64 - 1 if there are more orders.
    pub orders: u64,
    pub states: u64,
}

/// The length of a text, or the number of lines of an order.
#[repr(C)]
#[derive(Clone, Copy)]
pub struct CountResult {
    pub refusal: u32,
    pub count: u64,
}

/// Returns the result for a search.
fn found_told(search: &Searched) -> FoundResult
    ensures { result ≡ found_result search.now.explored }
{
    let counts = counts_of(&search.explored);
    FoundResult {
        refusal: 0,
        ended: counts.ended,
        outcomes: counts.outcomes,
        orders: counts.orders,
        states: counts.states,
    }
}

/// Returns the result without a search.
fn no_found() -> FoundResult
    ensures { result ≡ no_found }
{
    FoundResult {
        refusal: EMPTY,
        ended: 0,
        outcomes: 0,
        orders: 0,
        states: 0,
    }
}

/// Returns how the search ended, and what it found. Refuses an empty handle (B1).
#[unsafe(no_mangle)]
pub extern "C" fn l4_orders_found(alloc: Global, handle: &mut OrdersHandle) -> FoundResult
    ensures kept { handle.new.value ≡ handle.old.value }
    ensures told { TellsFound handle.old.value result }
{
    let Some(search) = handle.take(alloc) else {
        return no_found();
    };
    let told = found_told(&search);
    handle.put(search);
    told
}

/// Returns a result with this refusal, or with 0 and this number.
fn counted(refusal: u32, count: u64) -> CountResult
    ensures { result ≡ count_result refusal count }
{
    CountResult { refusal, count }
}

/// Writes a text to the array, and returns its length.
fn write(text: &[u8], out: &mut [u8]) -> CountResult
    ensures { Writes text.now out.old result out.new }
{
    counted(0, write_text(text, out) as u64)
}

/// Returns the number of orders in decimal, or no text if the search ended early.
fn number_in(alloc: Global, search: &Searched) -> Result<Vec<u8>, AllocError>
    ensures { IfOk result (λ text. text.items ≡ number_in search.now) }
{
    let mut text = Vec::new(alloc);
    if search.explored.ended.is_ok() {
        search.explored.orders.put_decimal(&mut text)?;
    }
    Ok(text)
}

/// Writes the number of orders in decimal.
fn write_number(alloc: Global, search: &Searched, out: &mut [u8]) -> CountResult
    ensures { WritesNumber search.now out.old result out.new }
{
    match number_in(alloc, search) {
        Ok(text) => write(text.as_slice(), out),
        Err(_) => counted(NO_MEMORY, 0),
    }
}

/// Writes the number of orders in decimal, and returns the length of the text. It has no bytes if the search ended early. The refusals are B1 and
/// NoMemory, in this order. Nothing is written after a refusal.
#[unsafe(no_mangle)]
pub extern "C" fn l4_orders_number(
    alloc: Global,
    handle: &mut OrdersHandle,
    out: &mut [u8],
) -> CountResult
    ensures kept { handle.new.value ≡ handle.old.value }
    ensures told { TellsNumber handle.old.value out.old result out.new }
{
    let Some(search) = handle.take(alloc) else {
        return counted(EMPTY, 0);
    };
    let told = write_number(alloc, &search, out);
    handle.put(search);
    told
}

/// Returns the answers of the outcome with this number, or no text.
fn answers_in(search: &Searched, number: usize) -> &[u8]
    ensures { result.now ≡ answers_in search.now number }
{
    match search.explored.found.get(number) {
        Some(one) => one.outcome.as_slice(),
        None => &[],
    }
}

/// Writes the answers of an outcome.
fn write_answers(search: &Searched, number: usize, out: &mut [u8]) -> CountResult
    ensures { Writes (answers_in search.now number) out.old result out.new }
{
    write(answers_in(search, number), out)
}

/// Writes the answers of the outcome with this number, from 0, and returns the length of their text. Refuses an empty handle (B1).
#[unsafe(no_mangle)]
pub extern "C" fn l4_orders_answers(
    alloc: Global,
    handle: &mut OrdersHandle,
    outcome: usize,
    out: &mut [u8],
) -> CountResult
    ensures kept { handle.new.value ≡ handle.old.value }
    ensures told { TellsAnswers handle.old.value outcome out.old result out.new }
{
    let Some(search) = handle.take(alloc) else {
        return counted(EMPTY, 0);
    };
    let told = write_answers(&search, outcome, out);
    handle.put(search);
    told
}

/// Returns the script of an order that produces the outcome with this number, or no text.
fn witness_in(alloc: Global, search: &Searched, number: usize) -> Result<Vec<u8>, AllocError>
    ensures { IfOk result (λ text. text.items ≡ witness_in search.now number) }
{
    match search.explored.found.get(number) {
        Some(one) => witness_text(alloc, &search.plan, one.order.as_slice()),
        None => Ok(Vec::new(alloc)),
    }
}

/// Writes the script of an order that produces an outcome.
fn write_witness(alloc: Global, search: &Searched, number: usize, out: &mut [u8]) -> CountResult
    ensures { WritesWitness search.now number out.old result out.new }
{
    match witness_in(alloc, search, number) {
        Ok(text) => write(text.as_slice(), out),
        Err(_) => counted(NO_MEMORY, 0),
    }
}

/// Writes the script of an order that produces the outcome with this number, from 0, and returns its length. The refusals are B1 and NoMemory,
/// in this order. Nothing is written after a refusal.
#[unsafe(no_mangle)]
pub extern "C" fn l4_orders_witness(
    alloc: Global,
    handle: &mut OrdersHandle,
    outcome: usize,
    out: &mut [u8],
) -> CountResult
    ensures kept { handle.new.value ≡ handle.old.value }
    ensures told { TellsWitness handle.old.value outcome out.old result out.new }
{
    let Some(search) = handle.take(alloc) else {
        return counted(EMPTY, 0);
    };
    let told = write_witness(alloc, &search, outcome, out);
    handle.put(search);
    told
}

/// Returns the rules that the outcome with this number breaks, or no text.
fn broken_in(alloc: Global, search: &Searched, number: usize) -> Result<Vec<u8>, AllocError>
    ensures { IfOk result (λ text. text.items ≡ broken_in search.now number) }
{
    match search.explored.found.get(number) {
        Some(one) => broken_rules(alloc, &search.plan, one.outcome.as_slice()),
        None => Ok(Vec::new(alloc)),
    }
}

/// Writes the rules that an outcome breaks.
fn write_broken(alloc: Global, search: &Searched, number: usize, out: &mut [u8]) -> CountResult
    ensures { WritesBroken search.now number out.old result out.new }
{
    match broken_in(alloc, search, number) {
        Ok(text) => write(text.as_slice(), out),
        Err(_) => counted(NO_MEMORY, 0),
    }
}

/// Writes the rules that the outcome with this number, from 0, breaks, one per line, and returns the length of the text. The refusals are B1
/// and NoMemory, in this order. Nothing is written after a refusal.
#[unsafe(no_mangle)]
pub extern "C" fn l4_orders_broken(
    alloc: Global,
    handle: &mut OrdersHandle,
    outcome: usize,
    out: &mut [u8],
) -> CountResult
    ensures kept { handle.new.value ≡ handle.old.value }
    ensures told { TellsBroken handle.old.value outcome out.old result out.new }
{
    let Some(search) = handle.take(alloc) else {
        return counted(EMPTY, 0);
    };
    let told = write_broken(alloc, &search, outcome, out);
    handle.put(search);
    told
}

/// Returns the numbers of the lines of an order that produces the outcome with this number, or no numbers.
fn lines_in(alloc: Global, search: &Searched, number: usize) -> Result<Vec<u64>, AllocError>
    ensures { IfOk result (λ numbers. numbers.items ≡ lines_in search.now number) }
{
    match search.explored.found.get(number) {
        Some(one) => line_numbers(alloc, &search.plan, one.order.as_slice()),
        None => Ok(Vec::new(alloc)),
    }
}

/// Writes as many numbers as there is room for, and returns how many there are.
fn write_numbers(numbers: &[u64], out: &mut [u64]) -> CountResult
    ensures { WritesNumbers numbers.now out.old result out.new }
{
    let count = numbers.len().min(out.len());
    out[..count].copy_from_slice(&numbers[..count]);
    counted(0, numbers.len() as u64)
}

/// Writes the numbers of the lines of an order that produces an outcome.
fn write_lines(alloc: Global, search: &Searched, number: usize, out: &mut [u64]) -> CountResult
    ensures { WritesLines search.now number out.old result out.new }
{
    match lines_in(alloc, search, number) {
        Ok(numbers) => write_numbers(numbers.as_slice(), out),
        Err(_) => counted(NO_MEMORY, 0),
    }
}

/// Writes the numbers of the lines of the order that was found with an outcome, and returns how many lines there are. The refusals are B1 and
/// NoMemory, in this order. Nothing is written after a refusal.
#[unsafe(no_mangle)]
pub extern "C" fn l4_orders_lines(
    alloc: Global,
    handle: &mut OrdersHandle,
    outcome: usize,
    out: &mut [u64],
) -> CountResult
    ensures kept { handle.new.value ≡ handle.old.value }
    ensures told { TellsLines handle.old.value outcome out.old result out.new }
{
    let Some(search) = handle.take(alloc) else {
        return counted(EMPTY, 0);
    };
    let told = write_lines(alloc, &search, outcome, out);
    handle.put(search);
    told
}
