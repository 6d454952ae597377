//! A drive's volume that is kept in an image, and that a host writes on while a part of it is copied. When an image is brought to the disk,
//! files of a folder show.

use super::units::{BLOCK, BLOCK_AND_MARK, NoStore, Units, WRITE_HI, WRITE_MARK, image_in};
use crate::comparing::{assert_list, assert_same};
use library_inventory::LibrarySize;
use program_options::LibraryProfile;
use saved_media::MediaKeeper;
use scsi_cdb::Class;
use std::alloc::Global;
use std::process::Abort;
use std::sync::{Mutex, Wait};
use std::time::Clock;
use tape_flush::{ImageStore, StoreFault};
use tape_keeper::{CarriedOutCommand, KeepEvent, KeepListener, KeepPlace};
use tape_medium::VolumeTag;

const TAG: VolumeTag = VolumeTag([b'A'; 32]);

/// That of the volume in the other drive.
const OTHER: VolumeTag = VolumeTag([b'B'; 32]);

/// A library of one drive.
const SIZE: LibrarySize = LibrarySize {
    drives: 1,
    slots: 1,
    import_exports: 0,
};

/// A WRITE of "hi" that was GOOD.
const WRITE: CarriedOutCommand = CarriedOutCommand {
    lun: 1,
    class: Class::Write,
    is_immediate: false,
    volume: Some(TAG),
    length: 2,
};

/// The file of the volume in a drive. Nothing of it is written over here, so that it is never cut back.
#[derive(Drop)]
struct SharedStore<'a, R: Wait> {
    rt: &'a R,
    alloc: Global,
    units: &'a Units,
    file: &'a Mutex<Vec<u8>>,
    /// Whether a host writes a filemark on the volume before the next part goes into the file: that would wait for ever if the drive
    /// were held meanwhile.
    is_written_on: bool,
}

impl<'a, R: Wait> ImageStore for SharedStore<'a, R> {
    ghost did = { λ before call after. Unit {0} };

    ghost does = { λ before call after done. tt };

    fn truncate(&mut self, _size: u64) -> Result<(), StoreFault> {
        Ok(())
    }

    fn append(&mut self, _offset: u64, bytes: &[u8]) -> Result<(), StoreFault> {
        if self.is_written_on {
            self.is_written_on = false;
            let _is_done = self
                .units
                .performs(self.rt, self.alloc, 1, &WRITE_MARK, &[]);
        }
        match self.file.lock(self.rt).extend_from_slice(bytes) {
            Ok(()) => Ok(()),
            Err(_) => Err(StoreFault::Full),
        }
    }

    fn sync(&mut self) -> Result<(), StoreFault> {
        Ok(())
    }

    fn note(&mut self, _size: u64) -> Result<(), StoreFault> {
        Ok(())
    }

    /// Nothing fails here.
    fn renewed(&self) -> Result<SharedStore<'a, R>, StoreFault> {
        Err(StoreFault::Failed)
    }
}

/// Nobody is told.
#[derive(Drop)]
struct NoListener;

impl KeepListener for NoListener {
    fn tell(&self, _event: &KeepEvent) {}

    fn settled(&self) {}
}

type Keeper<'a, R> = MediaKeeper<SharedStore<'a, R>, NoStore>;

/// The keeper of the volume, whose file is empty.
fn keeper<'a, R: Abort + Wait>(
    rt: &'a R,
    alloc: Global,
    store: SharedStore<'a, R>,
) -> Keeper<'a, R> {
    let image = image_in(rt, alloc, TAG, store);
    let images = Vec::from_array(alloc, [image]).expect(rt, "memory");
    MediaKeeper::new(alloc, LibraryProfile::Spec, SIZE, images, NoStore).expect(rt, "memory")
}

/// What is done, with the drive or its keeper.
#[derive(Clone, Copy)]
enum Act {
    /// "hi" is written.
    Write,
    /// What that left is kept.
    Keep,
    /// What isn't copied yet is copied.
    WriteBehind,
}

/// What is shown, what is done, and what the file has then.
type Row = (&'static str, Act, &'static [u8]);

const ROWS: [Row; 5] = [
    ("a block is written", Act::Write, &[]),
    ("it isn't copied at once", Act::Keep, &[]),
    (
        "a host writes on while a part is written: what there was when the copy began",
        Act::WriteBehind,
        BLOCK,
    ),
    (
        "what came meanwhile is not copied at once",
        Act::Keep,
        BLOCK,
    ),
    (
        "the filemark that came meanwhile is copied next",
        Act::WriteBehind,
        BLOCK_AND_MARK,
    ),
];

/// Does what is to be done, and says whether it was.
fn is_done<R: Clock + Wait>(
    rt: &R,
    alloc: Global,
    units: &Units,
    keeper: &Keeper<'_, R>,
    act: Act,
) -> bool {
    match act {
        Act::Write => units.performs(rt, alloc, 1, &WRITE_HI, b"hi"),
        // Its reply waits for nothing.
        Act::Keep => keeper.begin(rt, &NoListener, WRITE).is_none(),
        Act::WriteBehind => {
            keeper.take_turn(rt, alloc, units, &NoListener, KeepPlace::Drive(1));
            true
        }
    }
}

fn assert_row<R: Abort + Wait>(rt: &R, file: &Mutex<Vec<u8>>, is_done: bool, row: &Row) {
    let (shows, _, bytes) = *row;
    assert_same(rt, is_done, true, shows);
    assert_list(rt, &file.lock(rt), bytes, shows);
}

/// A drive with an empty volume, which is kept in an empty file, goes through all rows.
#[test]
fn volumes_in_a_drive_are_kept_as_rows_say(rt: HostRuntime) {
    let alloc = rt.alloc();
    let file = Mutex::new(Vec::new(alloc));
    let units = Units::new(alloc, OTHER, TAG);
    let store = SharedStore {
        rt: &rt,
        alloc,
        units: &units,
        file: &file,
        is_written_on: true,
    };
    let keeper = keeper(&rt, alloc, store);
    for row in &ROWS {
        assert_row(&rt, &file, is_done(&rt, alloc, &units, &keeper, row.1), row);
    }
}
