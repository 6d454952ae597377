//! What a keeper is asked to keep, and the numbers that tickets have for it.

ghost use Rattle.std.specs.Prelude.{◌≡◌, ◌≤◌, ◌+◌, ◌*◌};
ghost use Rattle.saved_media.specs.Items.{item_at, most_images, number_of, numbered};

/// So many images have items at most: more than the elements of a library.
const MOST_IMAGES: u32 = 1_000_000;

/// What is kept at once, from one request to the next.
#[derive(Clone, Copy)]
pub(crate) enum KeptItem {
    /// The tape of a volume, by the place of its image among all.
    Tape(u32),
    /// Such a tape, and where the volumes are.
    Moved(u32),
    /// Where the volumes are.
    Inventory,
    /// That not too much of the volume in the drive with this LUN, 1 to 4, isn't copied yet.
    Backlog(u8),
}

/// The numbers of the items of a library with so many images.
#[derive(Clone, Copy)]
pub(crate) struct ItemNumbers {
    images: u32,
    ghost few: { images ≤ most_images },
}

impl ItemNumbers {
    /// Of a library with so many images; those after the first `MOST_IMAGES` have no items.
    pub fn new(images: usize) -> ItemNumbers
        ensures { result.images ≡ numbered images }
    {
        let images = match u32::try_from(images) {
            Ok(images) => images.min(MOST_IMAGES),
            Err(_) => MOST_IMAGES,
        };
        ItemNumbers { images }
    }

    /// How many there are: each is less than this.
    pub fn count(self) -> u32
        ensures { result ≡ 2 * self.images + 5 }
    {
        2 * self.images + 5
    }

    /// The number of an item, if there is such an image or drive.
    pub fn number_of(self, item: KeptItem) -> Option<u32>
        ensures { result ≡ number_of self.images item }
    {
        match item {
            KeptItem::Tape(image) if image < self.images => Some(2 * image),
            KeptItem::Moved(image) if image < self.images => Some(2 * image + 1),
            KeptItem::Inventory => Some(2 * self.images),
            KeptItem::Backlog(lun) if lun >= 1 && lun <= 4 => {
                Some(2 * self.images + u32::from(lun))
            }
            KeptItem::Tape(_) | KeptItem::Moved(_) | KeptItem::Backlog(_) => None,
        }
    }

    /// The item with a number, if there is one.
    pub fn item_at(self, number: u32) -> Option<KeptItem>
        ensures { result ≡ item_at self.images number }
    {
        let inventory = 2 * self.images;
        if number < inventory {
            let image = number / 2;
            return Some(if number % 2 == 0 {
                KeptItem::Tape(image)
            } else {
                KeptItem::Moved(image)
            });
        }
        match number - inventory {
            0 => Some(KeptItem::Inventory),
            1 => Some(KeptItem::Backlog(1)),
            2 => Some(KeptItem::Backlog(2)),
            3 => Some(KeptItem::Backlog(3)),
            4 => Some(KeptItem::Backlog(4)),
            _ => None,
        }
    }
}
