//! What is done to a disk of 128 blocks in memory, and the bytes that it has then.
ghost use Rattle.std.specs.Prelude.{All, IsTrue};
ghost use Rattle.series_book.specs.Edits.{IsEdit};

use block_disk::{BLOCK, Disk, Failed, FuseDisk, MemDisk};
use disk_store::{disk_of, open_store};
use empty_store::make_store;
use gate_pages::Pages;
use series_book::{Edit, Name, Values};
use series_store::Store;
use std::alloc::Global;
use std::test::Fail;

/// More calls than a deed makes.
pub const MANY: u64 = 100_000;

/// A store is made on the disk, or opened; or it is opened, and its series `a` is edited. That begins at
/// time 0 with a step of 1. Values are so many from one on, each greater by one than the one before it; of a
/// group each of its three appends has them. A store that is aged is of version 1 from then on.
#[derive(Clone, Copy)]
pub enum Deed {
    Make,
    Open,
    Age,
    Create,
    Append(usize, i128),
    Group(usize, i128),
    Set(i128, usize, i128),
    Clear(i128, u64),
}

/// So many values, from `first` on.
fn values(alloc: Global, count: usize, first: i128) -> Result<Values, Fail> {
    let mut items = Vec::new(alloc);
    for at in 0..count {
        items.push(Some(first.saturating_add(at as i128)))?;
    }
    Ok(Values::from_vec(items))
}

impl Deed {
    /// The edit of `a`, where the deed has one: making a store, opening one and aging it have none.
    pub(crate) fn edit(self, alloc: Global) -> Result<Option<Edit>, Fail> {
        let name = Name::new(alloc, b"a")?;
        let edit = match self {
            Deed::Make | Deed::Open | Deed::Age => return Ok(None),
            Deed::Create => Edit::Create {
                name,
                start: 0,
                step: 1,
                scale: 2,
            },
            Deed::Append(count, first) => Edit::Append {
                name,
                values: values(alloc, count, first)?,
            },
            Deed::Group(count, first) => Edit::Append {
                name,
                values: values(alloc, count, first)?,
            },
            Deed::Set(time, count, first) => Edit::Set {
                name,
                time,
                values: values(alloc, count, first)?,
            },
            Deed::Clear(time, count) => Edit::Clear { name, time, count },
        };
        Ok(Some(edit))
    }
}

/// Adds the edit of a deed, where it has one.
fn add_edit(alloc: Global, deed: Deed, edits: &mut Vec<Edit>) -> Result<(), Fail> {
    if let Some(edit) = deed.edit(alloc)? {
        edits.push(edit)?;
    }
    Ok(())
}

/// The edits of a deed: none, one, or a group.
fn edits_of(alloc: Global, deed: Deed) -> Result<Vec<Edit>, Fail> {
    let mut edits = Vec::new(alloc);
    add_edit(alloc, deed, &mut edits)?;
    if let Deed::Group(..) = deed {
        add_edit(alloc, deed, &mut edits)?;
        add_edit(alloc, deed, &mut edits)?;
    }
    Ok(edits)
}

/// Whether a book can take each of the edits.
fn are_edits(edits: &[Edit]) -> bool
    ensures { IsTrue result → All IsEdit edits.now }
{
    match edits.split_first() {
        Some((edit, later)) => edit.is_edit() && are_edits(later),
        None => true,
    }
}

/// Whether edits were done, in one commit.
fn are_done<P: Pages>(store: &mut Store<P>, edits: &[Edit]) -> bool {
    if edits.is_empty() {
        return true;
    }
    if !store.is_sound() || !are_edits(edits) {
        return false;
    }
    if edits.len() == 1 {
        return store.edit(&edits[0]).is_ok();
    }
    match store.edit_group(edits) {
        Ok(answers) => answers.len() == edits.len(),
        Err(_) => false,
    }
}

/// Opens a store and edits it: whether that was done, and the disk.
fn opened<D: Disk>(alloc: Global, disk: D, edits: &[Edit]) -> (bool, D) {
    match open_store(alloc, disk) {
        Ok(mut store) => {
            let done = are_done(&mut store, edits);
            (done, disk_of(store))
        }
        Err(back) => (false, back.value),
    }
}

/// Makes a store: whether that was done, and the disk.
fn made<D: Disk>(alloc: Global, disk: D) -> (bool, D) {
    match make_store(alloc, disk) {
        Ok(disk) => (true, disk),
        Err(back) => (false, back.value),
    }
}

/// A disk of these bytes, which fails the calls of these numbers, and all behind the first so many.
pub(crate) fn fused(
    alloc: Global,
    image: &[u8],
    calls: u64,
    fails: &[u64],
) -> Result<FuseDisk<MemDisk>, Fail> {
    let bytes = Vec::from_slice(alloc, image)?;
    if bytes.len() % BLOCK != 0 {
        return Err(Fail::new("no whole blocks"));
    }
    let fails = Vec::from_slice(alloc, fails)?;
    Ok(FuseDisk::new(MemDisk::from_bytes(alloc, bytes, fails), calls))
}

/// Does it on a disk of these bytes, which fails the calls of these numbers, and all behind the first so
/// many: whether it was done, and the disk.
pub(crate) fn run(
    alloc: Global,
    image: &[u8],
    deed: Deed,
    calls: u64,
    fails: &[u64],
) -> Result<(bool, MemDisk), Fail> {
    let edits = edits_of(alloc, deed)?;
    let disk = fused(alloc, image, calls, fails)?;
    let (done, disk) = match deed {
        Deed::Make => made(alloc, disk),
        _ => opened(alloc, disk, edits.as_slice()),
    };
    Ok((done, disk.into_inner()))
}

/// The bytes of one block.
fn block_of(disk: &mut MemDisk, no: u32) -> Result<[u8; BLOCK], Failed> {
    if no >= disk.blocks()? {
        return Err(Failed);
    }
    let mut block = [0; BLOCK];
    disk.read_block(no, &mut block)?;
    Ok(block)
}

/// The bytes of a disk from a block on.
pub(crate) fn bytes_of(alloc: Global, mut disk: MemDisk, from: u32) -> Result<Vec<u8>, Fail> {
    let mut bytes = Vec::new(alloc);
    for no in from..128 {
        let block = block_of(&mut disk, no)?;
        bytes.extend_from_slice(&block)?;
    }
    Ok(bytes)
}

fn set(image: &mut [u8], at: usize, byte: u8) {
    if let Some(place) = image.get_mut(at) {
        *place = byte;
    }
}

/// Makes a store of version 2 with at most one series one of version 1: the magic, the kind of each page of
/// the catalog, and the page levels of the series.
fn age(image: &mut [u8]) {
    set(image, 66 * BLOCK + 7, b'1');
    for page in 67..83 {
        set(image, page * BLOCK, 3);
    }
    set(image, 67 * BLOCK + 88, 0);
}

/// The bytes of a disk after a deed, which has to be done.
fn behind(alloc: Global, mut image: Vec<u8>, deed: Deed) -> Result<Vec<u8>, Fail> {
    if let Deed::Age = deed {
        age(image.as_mut_slice());
        return Ok(image);
    }
    let (done, disk) = run(alloc, image.as_slice(), deed, MANY, &[])?;
    if !done {
        return Err(Fail::new("not done"));
    }
    bytes_of(alloc, disk, 0)
}

/// The bytes of a disk of zeros after some deeds.
pub(crate) fn after(alloc: Global, deeds: &[Deed]) -> Result<Vec<u8>, Fail> {
    let mut image = vec![in alloc; 0; 128 * BLOCK]?;
    for deed in deeds {
        image = behind(alloc, image, *deed)?;
    }
    Ok(image)
}
