//! What keeps the tapes of a library.

ghost use Rattle.std.specs.Prelude.{◌≡◌, IfOk};
ghost use Rattle.saved_media.specs.Saving.{IsOfMove, IsOfVolume, is_protected_at, place_of};

use crate::copying::{Copying, Purpose, fault_of_store};
use crate::item::KeptItem;
use crate::listing::Listing;
use crate::requests::{KEPT, LOST, Task};
use crate::shared_requests::SharedRequests;
use crate::store::InventoryStore;
use crate::volume_image::VolumeImage;
use crate::watch::{Extent, Watch};
use crate::wish::{Wish, wish_of};
use library_inventory::{AddFault, LibrarySize};
use library_start::Device;
use program_options::LibraryProfile;
use std::alloc::{AllocError, Global};
use std::marker::Model;
use std::sync::{Mutex, Wait};
use std::time::{Clock, Duration, Instant};
use tape_flush::ImageStore;
use tape_keeper::{
    CarriedOutCommand, KeepChange, KeepEvent, KeepFault, KeepListener, KeepPlace, SavedThing,
    TapeSource,
};
use tape_medium::VolumeTag;
use tickets::{Outcome, Ticket};

/// Keeps the tapes of a library, each in its image, and the inventory of where they are. Contracts see the images.
#[derive(Drop)]
pub struct MediaKeeper<S: ImageStore + Drop, N: InventoryStore + Drop> {
    profile: LibraryProfile,
    size: LibrarySize,
    images: Vec<VolumeImage<S>>,
    inventory: Mutex<N>,
    inventory_watch: Watch,
    requests: SharedRequests,
    /// How long the last save took that a reply waited for.
    last_save: Mutex<Option<Duration>>,
}

impl<S: ImageStore + Drop, N: InventoryStore + Drop> Model for MediaKeeper<S, N> {
    ghost use Rattle.std.specs.Prelude.{◌≡◌, List, length};
    ghost use Rattle.saved_media.specs.Items.{numbered};
    ghost use Rattle.saved_media.specs.Seen.{SeenImage};

    ghost Value = { List SeenImage };

    ghost view = { λ k. k.images.items };

    ghost invariant = { λ k. k.requests.numbers.images ≡ numbered (length k.images.items) };
}

impl<S: ImageStore + Drop, N: InventoryStore + Drop> MediaKeeper<S, N> {
    /// Of a library of a profile with the volumes of these images. Asking it to keep something needs no memory later.
    pub fn new(
        alloc: Global,
        profile: LibraryProfile,
        size: LibrarySize,
        images: Vec<VolumeImage<S>>,
        store: N,
    ) -> Result<MediaKeeper<S, N>, AllocError>
        ensures { IfOk result (λ keeper. keeper ≡ images.items) }
    {
        let requests = SharedRequests::new(alloc, images.len())?;
        Ok(MediaKeeper {
            profile,
            size,
            images,
            inventory: Mutex::new(store),
            inventory_watch: Watch::new(),
            requests,
            last_save: Mutex::new(None),
        })
    }

    /// The inventory couldn't be written when the library was opened. It is tried again, as one that can't be written later is.
    pub fn note_unwritten_inventory(&self) {
        // What fails was reported.
        let _ = self.inventory_watch.note(Err(KeepFault::Failed));
    }

    /// What copies volumes for a purpose.
    fn copying<'a, R: Wait, T: TapeSource<Device>, H: KeepListener>(
        &'a self,
        rt: &'a R,
        alloc: Global,
        source: &'a T,
        listener: &'a H,
        purpose: Purpose,
    ) -> Copying<'a, S, R, T, H> {
        Copying {
            rt,
            alloc,
            images: &self.images,
            requests: &self.requests,
            source,
            listener,
            purpose,
        }
    }

    /// The place of a volume's image among all. Where there is none, that is told.
    fn image_of<H: KeepListener>(&self, listener: &H, tag: VolumeTag) -> Option<usize>
        ensures { result ≡ place_of self.now tag }
    {
        let place = place_of(&self.images, tag);
        if place.is_none() {
            listener.tell(&KeepEvent {
                thing: SavedThing::Volume(tag),
                change: KeepChange::Fails(KeepFault::NoImage),
            });
        }
        place
    }

    /// Asks that the volume be kept that a command was carried out on, if there is one and it can have changed.
    fn begin_volume<R: Wait, H: KeepListener>(
        &self,
        rt: &R,
        listener: &H,
        command: CarriedOutCommand,
    ) -> Ticket
        ensures { IsOfVolume self.now command.volume result }
    {
        let Some(tag) = command.volume else {
            return KEPT;
        };
        let Some(image) = self.image_of(listener, tag) else {
            return LOST;
        };
        if self.is_protected(image) {
            return KEPT;
        }
        match u32::try_from(image) {
            Ok(image) => {
                self.requests
                    .ask(rt, KeptItem::Tape(image), place_at(command.lun))
            }
            Err(_) => LOST,
        }
    }

    /// Whether a volume is as its image is, which can't be written.
    fn is_protected(&self, image: usize) -> bool
        ensures { result ≡ is_protected_at self.now image }
    {
        match self.images.get(image) {
            Some(image) => image.is_protected,
            None => false,
        }
    }

    /// Asks that the volume be kept that a MOVE MEDIUM moved, or that a drive gave in an EXCHANGE MEDIUM, and no other, and where the
    /// volumes are.
    fn begin_move<R: Wait, H: KeepListener>(
        &self,
        rt: &R,
        listener: &H,
        command: CarriedOutCommand,
    ) -> Ticket
        ensures { IsOfMove self.now command.volume result }
    {
        let Some(tag) = command.volume else {
            return self
                .requests
                .ask(rt, KeptItem::Inventory, KeepPlace::Changer);
        };
        match self
            .image_of(listener, tag)
            .and_then(|image| u32::try_from(image).ok())
        {
            Some(image) => self
                .requests
                .ask(rt, KeptItem::Moved(image), KeepPlace::Changer),
            None => {
                // Where the volumes are is written all the same, and nobody waits for it.
                let _ = self
                    .requests
                    .ask(rt, KeptItem::Inventory, KeepPlace::Changer);
                LOST
            }
        }
    }

    /// Keeps what is to be kept next at a place, and settles it. Whether there was something.
    fn keep_next<R: Clock + Wait, T: TapeSource<Device>, H: KeepListener>(
        &self,
        rt: &R,
        alloc: Global,
        source: &T,
        listener: &H,
        place: KeepPlace,
    ) -> bool {
        let Some(task) = self.requests.next(rt, place) else {
            return false;
        };
        let begun = Instant::now(rt).ok();
        let outcome = if self.is_kept(rt, alloc, source, listener, task) {
            self.note_saved(rt, begun);
            Outcome::Kept
        } else {
            Outcome::Lost
        };
        self.requests.settle(rt, task, outcome);
        listener.settled();
        true
    }

    /// Notes how long a save took that is done now, where the clock could be read when it began and can be now.
    fn note_saved<R: Clock + Wait>(&self, rt: &R, begun: Option<Instant>) {
        let Some(begun) = begun else {
            return;
        };
        if let Ok(time) = begun.elapsed(rt) {
            *self.last_save.lock(rt) = Some(time);
        }
    }

    /// Keeps what a task is for, a volume wherever it is by now. Whether it is kept.
    fn is_kept<R: Wait, T: TapeSource<Device>, H: KeepListener>(
        &self,
        rt: &R,
        alloc: Global,
        source: &T,
        listener: &H,
        task: Task,
    ) -> bool {
        let copying = self.copying(rt, alloc, source, listener, Purpose::Answer);
        match task.item {
            KeptItem::Tape(image) => {
                let Some(image) = self.images.get(image as usize) else {
                    return false;
                };
                match task.place {
                    KeepPlace::Drive(lun) => copying.copy_from_drive(lun, image.tag),
                    KeepPlace::Changer | KeepPlace::Upkeep => {
                        copying.copy_from_anywhere(image.tag)
                    }
                }
            }
            KeptItem::Moved(image) => {
                let is_copied = match self.images.get(image as usize) {
                    Some(image) => copying.copy_from_anywhere(image.tag),
                    None => false,
                };
                self.keep_inventory(rt, alloc, source, listener) && is_copied
            }
            KeptItem::Inventory => self.keep_inventory(rt, alloc, source, listener),
            // Nobody queues it: what isn't copied yet is copied by itself.
            KeptItem::Backlog(_) => true,
        }
    }

    /// Writes where the volumes are. One thread at a time does, from what it reads of the changer then, so that the last that is
    /// written is the last that was so.
    fn keep_inventory<R: Wait, T: TapeSource<Device>, H: KeepListener>(
        &self,
        rt: &R,
        alloc: Global,
        source: &T,
        listener: &H,
    ) -> bool {
        let mut store = self.inventory.lock(rt);
        let mut listing = Listing::new(alloc, self.profile, self.size);
        source.attend(rt, 0, &mut listing);
        let written = match listing.fault {
            Some(AddFault::NoMemory) => Err(KeepFault::NoMemory),
            Some(_) => Err(KeepFault::Failed),
            None => store.write(&listing.inventory).map_err(fault_of_store),
        };
        if let Some(change) = self.inventory_watch.note(written.map(|()| Extent::All)) {
            listener.tell(&KeepEvent {
                thing: SavedThing::Inventory,
                change,
            });
        }
        written.is_ok()
    }

    /// The volumes whose images can't be written at the moment.
    pub fn failing(&self, alloc: Global) -> Result<Vec<VolumeTag>, AllocError> {
        let mut tags = Vec::new(alloc);
        for image in &self.images {
            if image.watch.is_failing() {
                tags.push(image.tag)?;
            }
        }
        Ok(tags)
    }

    /// Whether the inventory can't be written at the moment.
    pub fn is_inventory_failing(&self) -> bool {
        self.inventory_watch.is_failing()
    }

    /// How many saves are asked for and not done: of a volume, of the inventory, or of a part of what a drive has written.
    pub fn awaited_saves<R: Wait>(&self, rt: &R) -> usize {
        self.requests.awaited(rt)
    }

    /// How long the last save took that a reply waited for, of a volume with the inventory where that was wanted too. None where there was none.
    pub fn last_save<R: Wait>(&self, rt: &R) -> Option<Duration> {
        *self.last_save.lock(rt)
    }

    /// Tells which volumes aren't whole on the disk, and whether all are.
    fn tell_lost<H: KeepListener>(&self, listener: &H) -> bool {
        let mut is_whole = true;
        for image in &self.images {
            if image.watch.is_failing() {
                is_whole = false;
                listener.tell(&KeepEvent {
                    thing: SavedThing::Volume(image.tag),
                    change: KeepChange::Lost,
                });
            }
        }
        is_whole
    }

    /// Copies what isn't copied yet at the drives that a thread at a place looks after.
    fn copy_behind<R: Wait, T: TapeSource<Device>, H: KeepListener>(
        &self,
        rt: &R,
        alloc: Global,
        source: &T,
        listener: &H,
        place: KeepPlace,
    ) {
        let copying = self.copying(rt, alloc, source, listener, Purpose::Behind);
        for lun in 1..5u8 {
            let behind = self.requests.behind(rt, lun);
            if behind > 0 && self.requests.looks_after(rt, place, lun) {
                copying.copy_drive(lun, behind);
            }
        }
    }

    /// Tries again to keep what couldn't be kept, and brings to the disk what has waited; but not too soon after the last time.
    fn keep_up<R: Clock + Wait, T: TapeSource<Device>, H: KeepListener>(
        &self,
        rt: &R,
        alloc: Global,
        source: &T,
        listener: &H,
    ) {
        if !self.requests.is_retry_due(rt) {
            return;
        }
        let copying = self.copying(rt, alloc, source, listener, Purpose::Behind);
        let now = Instant::now(rt).ok();
        for image in &self.images {
            if image.watch.is_failing() || image.has_waited(rt, now) {
                // What still can't be kept is tried again the next time.
                let _ = copying.copy_from_anywhere(image.tag);
            }
        }
        if self.inventory_watch.is_failing() {
            let _ = self.keep_inventory(rt, alloc, source, listener);
        }
    }
}

impl<S: ImageStore + Drop, N: InventoryStore + Drop> MediaKeeper<S, N> {
    ghost use Rattle.std.specs.Prelude.{◌≡◌, Some, false, is_some, true};
    ghost use Rattle.saved_media.specs.Saving.{WaitsFor, kept_ticket, lost_ticket};
    ghost use Rattle.tickets.specs.declared.ticket.Outcome.TheVariants as outcome;
    ghost use Rattle.saved_media.specs.Wishes.{wish_of, is_waited_for};

    /// Begins to keep what a command left that was carried out, and gives the ticket that its reply has to wait for, if it has to wait.
    /// This waits for nothing but locks that are held for a moment.
    pub fn begin<R: Wait, H: KeepListener>(
        &self,
        rt: &R,
        listener: &H,
        command: CarriedOutCommand,
    ) -> Option<Ticket>
        ensures waits_for { WaitsFor self.now command (wish_of command.class command.is_immediate) result }
        ensures waits { command.is_immediate ≡ false → is_waited_for (wish_of command.class false) ≡ true → is_some result ≡ true }
    {
        match wish_of(command.class, command.is_immediate) {
            Wish::Nothing => None,
            Wish::Behind => self.requests.add(rt, command.lun, command.length as u64),
            Wish::Volume => Some(self.begin_volume(rt, listener, command)),
            Wish::VolumeBehind => {
                let _ = self.begin_volume(rt, listener, command);
                None
            }
            Wish::Move => Some(self.begin_move(rt, listener, command)),
        }
    }

    /// How keeping what a ticket is for ended, if it has. If it is lost, the reply must not be sent.
    pub fn outcome_of<R: Wait>(&self, rt: &R, ticket: Ticket) -> Option<Outcome>
        ensures kept { ticket ≡ kept_ticket → result ≡ Some outcome.Kept }
        ensures lost { ticket ≡ lost_ticket → result ≡ Some outcome.Lost }
    {
        self.requests.outcome_of(rt, ticket)
    }

    /// Waits until keeping what a ticket is for has ended, and says how.
    pub fn await_outcome<R: Wait>(&self, rt: &R, ticket: Ticket) -> Outcome
        ensures kept { ticket ≡ kept_ticket → result ≡ outcome.Kept }
        ensures lost { ticket ≡ lost_ticket → result ≡ outcome.Lost }
    {
        self.requests.await_outcome(rt, ticket)
    }

    /// Waits until something is to be done at a place, or the library ends. Whether it goes on.
    pub fn await_turn<R: Clock + Wait>(&self, rt: &R, place: KeepPlace) -> bool {
        self.requests.await_turn(rt, place)
    }

    /// Does what is to be done at a place: keeps what was asked for there, and settles it. At a drive it copies what was written to the volume in
    /// it and isn't copied yet. As upkeep it tries again to keep what couldn't be kept, a volume wherever it is, and brings to the disk what was
    /// copied a while ago; but nothing for a while after the last time.
    pub fn take_turn<R: Clock + Wait, T: TapeSource<Device>, H: KeepListener>(
        &self,
        rt: &R,
        alloc: Global,
        source: &T,
        listener: &H,
        place: KeepPlace,
    ) {
        for _task in rt.forever() {
            if !self.keep_next(rt, alloc, source, listener, place) {
                break;
            }
        }
        self.copy_behind(rt, alloc, source, listener, place);
        match place {
            KeepPlace::Upkeep => self.keep_up(rt, alloc, source, listener),
            KeepPlace::Changer | KeepPlace::Drive(_) => {}
        }
    }

    /// The library ends: no thread waits for a turn any more.
    pub fn end<R: Wait>(&self, rt: &R) {
        self.requests.end(rt);
    }

    /// Keeps all volumes and where they are. Whether all of it is kept; what isn't was told.
    pub fn keep_all<R: Wait, T: TapeSource<Device>, H: KeepListener>(
        &self,
        rt: &R,
        alloc: Global,
        source: &T,
        listener: &H,
    ) -> bool {
        let copying = self.copying(rt, alloc, source, listener, Purpose::End);
        for image in &self.images {
            // What isn't kept is told below.
            let _ = copying.copy_from_anywhere(image.tag);
        }
        let is_noted = self.keep_inventory(rt, alloc, source, listener);
        let is_whole = self.tell_lost(listener);
        is_noted && is_whole
    }
}

/// The place of the first image with a tag.
fn place_of<S: ImageStore + Drop>(images: &[VolumeImage<S>], tag: VolumeTag) -> Option<usize>
    ensures { result ≡ place_of images.now tag }
{
    images.iter().position(|image| image.tag == tag)
}

/// Where the volume in the drive with a LUN is kept. The changer's thread looks for what is in no drive.
fn place_at(lun: u8) -> KeepPlace {
    match lun {
        1 | 2 | 3 | 4 => KeepPlace::Drive(lun),
        _ => KeepPlace::Changer,
    }
}
