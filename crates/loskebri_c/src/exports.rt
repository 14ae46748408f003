// The calls of a pass. A handle is passed by `&mut`: C gives it to one call at a time. No call but the closing one writes it.
ghost use Rattle.std.specs.Prelude.{◌≡◌, Option, Some, None, length};
ghost use Rattle.word_layout.specs.Packing.{most_age};
ghost use Rattle.block_pool.specs.Passing.{HasAge, Passed};
ghost use Rattle.loskebri_c.specs.Answers.{AllocateAnswered, FreeAnswered, IsTold, ReadAnswered, Says, SearchAnswered};
ghost use Rattle.loskebri_c.specs.Answers.{StaysClosed, StaysClosedAt0, Tells, WriteAnswered, status_of};

use crate::handle::LoskebriPass;
use crate::status::{CLOSED, DONE, DRY, NO_WORD, NOT_HELD, SPENT};
use pool_member::{Freeing, Getting, Member, WordFault};
use std::alloc::Global;
use std::mem;

/// How an allocate was answered, and the block where one was got.
#[repr(C)]
#[derive(Drop)]
pub struct LoskebriBlock {
    /// [`DONE`], [`DRY`], [`SPENT`] or [`CLOSED`].
    pub status: u32,
    /// The number of the block, at [`DONE`]; else 0.
    pub block: u32,
}

/// How a question was answered, and the number where one was.
#[repr(C)]
#[derive(Drop)]
pub struct LoskebriNumber {
    /// [`DONE`], or why there is no number.
    pub status: u32,
    /// The number, at [`DONE`]; else 0.
    pub number: u64,
}

/// The status of a fault.
fn fault_status(fault: &WordFault) -> u32
    ensures { result ≡ status_of fault.now }
{
    match fault {
        WordFault::NotHeld => NOT_HELD,
        WordFault::NoWord => NO_WORD,
    }
}

/// A number that was asked for.
pub(crate) fn number(number: u64) -> LoskebriNumber
    ensures status { result.status ≡ 0 }
    ensures number { result.number ≡ number }
{
    LoskebriNumber {
        status: DONE,
        number,
    }
}

/// No number, for this status.
pub(crate) fn no_number(status: u32) -> LoskebriNumber
    ensures status { result.status ≡ status }
    ensures number { result.number ≡ 0 }
{
    LoskebriNumber { status, number: 0 }
}

/// Gets a block that nobody holds.
#[unsafe(no_mangle)]
pub extern "C" fn loskebri_allocate(pass: &mut LoskebriPass) -> LoskebriBlock
    ensures closed { StaysClosedAt0 pass.old.member pass.new.member result.status result.block }
    ensures open { (old : Passed) → pass.old.member ≡ Some old → AllocateAnswered old pass.new.member result.status result.block }
{
    if pass.is_closed() {
        return no_block();
    }
    let member = pass.member();
    if member.is_quiet() {
        allocate(member)
    } else {
        allocate_moving(member)
    }
}

/// The answer of a closed handle that is asked for a block.
fn no_block() -> LoskebriBlock
    ensures status { result.status ≡ 5 }
    ensures block { result.block ≡ 0 }
{
    LoskebriBlock {
        status: CLOSED,
        block: 0,
    }
}

/// An answer of a member that gets blocks.
#[inline(always)]
fn told(getting: Getting) -> LoskebriBlock
    ensures { IsTold getting result.status result.block }
{
    let (status, block) = match getting {
        Getting::Got(block) => (DONE, block),
        Getting::Dry => (DRY, 0),
        Getting::Spent => (SPENT, 0),
    };
    LoskebriBlock { status, block }
}

/// Gets a block by a member.
#[inline(always)]
fn allocate(member: &mut Member) -> LoskebriBlock
    ensures { AllocateAnswered member.old (Some member.new) result.status result.block }
{
    told(member.allocate())
}

/// The same, for the calls that make steps of a transfer: apart from the others, which then need none of its registers.
#[inline(never)]
fn allocate_moving(member: &mut Member) -> LoskebriBlock
    ensures { AllocateAnswered member.old (Some member.new) result.status result.block }
{
    allocate(member)
}

/// Gets a block that nobody holds, with more steps and a sharper refusal.
#[unsafe(no_mangle)]
pub extern "C" fn loskebri_search(pass: &mut LoskebriPass) -> LoskebriBlock
    ensures closed { StaysClosedAt0 pass.old.member pass.new.member result.status result.block }
    ensures open { (old : Passed) → pass.old.member ≡ Some old → SearchAnswered old pass.new.member result.status result.block }
{
    if pass.is_closed() {
        return no_block();
    }
    search(pass.member())
}

/// Searches by a member.
fn search(member: &mut Member) -> LoskebriBlock
    ensures { SearchAnswered member.old (Some member.new) result.status result.block }
{
    told(member.search())
}

/// Lets a block go. Any number may be given.
#[unsafe(no_mangle)]
pub extern "C" fn loskebri_free(pass: &mut LoskebriPass, block: u32) -> u32
    ensures closed { StaysClosed pass.old.member pass.new.member result }
    ensures open { (old : Passed) → pass.old.member ≡ Some old → FreeAnswered old pass.new.member result block }
{
    if pass.is_closed() {
        return CLOSED;
    }
    let member = pass.member();
    if member.is_quiet() {
        free(member, block)
    } else {
        free_moving(member, block)
    }
}

/// Lets a block go by a member.
#[inline(always)]
fn free(member: &mut Member, block: u32) -> u32
    ensures { FreeAnswered member.old (Some member.new) result block }
{
    match member.free(block) {
        Freeing::Freed => DONE,
        Freeing::NotHeld => NOT_HELD,
        Freeing::Spent => SPENT,
    }
}

/// The same, for the calls that make steps of a transfer.
#[inline(never)]
fn free_moving(member: &mut Member, block: u32) -> u32
    ensures { FreeAnswered member.old (Some member.new) result block }
{
    free(member, block)
}

/// Loads a data word of a block. Any numbers may be given.
#[unsafe(no_mangle)]
pub extern "C" fn loskebri_read(pass: &mut LoskebriPass, block: u32, index: u32) -> LoskebriNumber
    ensures closed { StaysClosedAt0 pass.old.member pass.new.member result.status result.number }
    ensures open { (old : Passed) → pass.old.member ≡ Some old
        → ReadAnswered old pass.new.member result.status result.number block index }
{
    if pass.is_closed() {
        return no_number(CLOSED);
    }
    read(pass.member(), block, index)
}

/// Loads a data word of a block by a member.
fn read(member: &mut Member, block: u32, index: u32) -> LoskebriNumber
    ensures { ReadAnswered member.old (Some member.new) result.status result.number block index }
{
    match member.read(block, index) {
        Ok(value) => number(value),
        Err(fault) => no_number(fault_status(&fault)),
    }
}

/// Stores a data word of a block. Any numbers may be given.
#[unsafe(no_mangle)]
pub extern "C" fn loskebri_write(pass: &mut LoskebriPass, block: u32, index: u32, value: u64) -> u32
    ensures closed { StaysClosed pass.old.member pass.new.member result }
    ensures open { (old : Passed) → pass.old.member ≡ Some old
        → WriteAnswered old pass.new.member result block index value }
{
    if pass.is_closed() {
        return CLOSED;
    }
    write(pass.member(), block, index, value)
}

/// Stores a data word of a block by a member.
fn write(member: &mut Member, block: u32, index: u32, value: u64) -> u32
    ensures { WriteAnswered member.old (Some member.new) result block index value }
{
    match member.write(block, index, value) {
        Ok(()) => DONE,
        Err(fault) => fault_status(&fault),
    }
}

/// How many transfers the pass has begun.
#[unsafe(no_mangle)]
pub extern "C" fn loskebri_age(pass: &mut LoskebriPass) -> LoskebriNumber
    ensures closed { StaysClosedAt0 pass.old.member pass.new.member result.status result.number }
    ensures open { (old : Passed) → pass.old.member ≡ Some old
        → Tells old.age old pass.new.member result.status result.number }
{
    if pass.is_closed() {
        return no_number(CLOSED);
    }
    number(pass.member().age())
}

/// How many transfers the pass may begin in all.
#[unsafe(no_mangle)]
pub extern "C" fn loskebri_most_age(pass: &mut LoskebriPass) -> LoskebriNumber
    ensures closed { StaysClosedAt0 pass.old.member pass.new.member result.status result.number }
    ensures open { (old : Passed) → pass.old.member ≡ Some old
        → Tells (most_age old.sizes) old pass.new.member result.status result.number }
{
    if pass.is_closed() {
        return no_number(CLOSED);
    }
    number(pass.member().shape().most_age())
}

/// Whether an allocate or a free of the pass would be made now: 1 where no transfer is due, or fewer were begun than may be; else 0.
#[unsafe(no_mangle)]
pub extern "C" fn loskebri_has_age(pass: &mut LoskebriPass) -> LoskebriNumber
    ensures closed { StaysClosedAt0 pass.old.member pass.new.member result.status result.number }
    ensures open { (old : Passed) → pass.old.member ≡ Some old
        → Says (HasAge old) old pass.new.member result.status result.number }
{
    if pass.is_closed() {
        return no_number(CLOSED);
    }
    if pass.member().has_age() {
        number(1)
    } else {
        number(0)
    }
}

/// How many blocks the pass holds.
#[unsafe(no_mangle)]
pub extern "C" fn loskebri_holding(pass: &mut LoskebriPass) -> LoskebriNumber
    ensures closed { StaysClosedAt0 pass.old.member pass.new.member result.status result.number }
    ensures open { (old : Passed) → pass.old.member ≡ Some old
        → Tells (length old.held) old pass.new.member result.status result.number }
{
    if pass.is_closed() {
        return no_number(CLOSED);
    }
    number(u64::from(pass.member().holding()))
}

/// Closes the handle. The blocks that the pass holds stay held. The pool's memory goes back with its last handle.
#[unsafe(no_mangle)]
pub extern "C" fn loskebri_close(alloc: Global, pass: &mut LoskebriPass)
    ensures { pass.new.member ≡ None }
{
    mem::replace(pass, LoskebriPass::closed(alloc)).close();
}
