//! Stack that is had before anything is done.

use std::alloc::Global;

/// A page of memory has so many bytes, of which a stack grows by whole ones.
const PAGE_BYTES: usize = 4096;

/// More pages of stack than any command takes.
const STACK_PAGES: usize = 128;

/// Sees to it that there is as much stack as a command takes, and tells whether there is.
///
/// The system ends a program whose stack can't grow, as where a limit of its memory counts the
/// stack too. So that many bytes are asked for first, which can be refused; they are given back,
/// and the stack grows to that size at once. What is refused later is a growth of the heap.
pub fn has_stack(alloc: Global) -> bool {
    let Ok(pages) = Vec::<[u8; PAGE_BYTES]>::with_capacity(alloc, STACK_PAGES) else {
        return false;
    };
    drop(pages);
    touch() == 1
}

/// Writes to so much of the stack, down to its end.
#[inline(never)]
fn touch() -> u8 {
    let mut pages = [[0; PAGE_BYTES]; STACK_PAGES];
    mark(&mut pages);
    pages[0][0]
}

/// A deed on the pages that no caller knows, so that they are not found out to be unused.
#[inline(never)]
fn mark(pages: &mut [[u8; PAGE_BYTES]]) {
    if let Some(page) = pages.first_mut() {
        page[0] = 1;
    }
}
