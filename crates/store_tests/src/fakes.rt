//! What stands in memory, with memory enough: a book of plain lists, and pages.

use crate::deeds::Deed;
use block_disk::BLOCK;
use gate_pages::{Batch, ListPages, Pages};
use series_book::{Edit, ListBook, pages};
use std::alloc::Global;
use std::test::Fail;

/// Whether an edit was done.
fn is_done(list: &mut ListBook, edit: Option<Edit>) -> bool {
    let Some(edit) = edit else { return false };
    edit.is_edit() && list.apply(&edit).is_ok()
}

/// Two pages of slots and a root, beside page 0 and the catalog.
#[test]
fn lists_in_memory(rt: HostRuntime) -> Result<(), Fail> {
    let alloc = rt.alloc();
    let mut list = ListBook::new(alloc, 70)?;
    assert!(rt; is_done(&mut list, Deed::Create.edit(alloc)?));
    assert!(rt; is_done(&mut list, Deed::Append(129, 7).edit(alloc)?));
    assert!(rt; pages(list.book()) == 20);
    Ok(())
}

/// Puts a page of this byte in the pages, and reads it back.
fn put_page(alloc: Global, pages: &mut ListPages, byte: u8) -> Result<[u8; BLOCK], Fail> {
    let mut batch = Batch::new(alloc)?;
    batch.put(2, &[byte; BLOCK]);
    if !batch.fits(pages.count()) || !pages.is_sound() {
        return Err(Fail::new("no room"));
    }
    pages.commit(&batch)?;
    let mut page = [0; BLOCK];
    pages.get(2, &mut page)?;
    Ok(page)
}

#[test]
fn pages_in_memory(rt: HostRuntime) -> Result<(), Fail> {
    let mut pages = ListPages::new(rt.alloc(), 3)?;
    let page = put_page(rt.alloc(), &mut pages, 7)?;
    assert_eq!(rt; (page[0], page[4095]), (7, 7));
    Ok(())
}
