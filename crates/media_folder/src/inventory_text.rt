//! The text of an inventory, `library.toml`, in TOML 1.0.

use crate::known_keys::look_at_keys;
use crate::text_fault::{InventoryKey, ReadFault, VolumeFault, WriteFault};
use inquiry_data::LibraryNumber;
use library_inventory::{
    AddFault, Element, Inventory, LibrarySize, PlacedVolume, name_of_tag, tag_of_name,
};
use program_options::{LibraryProfile, profile_of};
use scsi_cdb::Profile;
use std::alloc::{AllocError, Global};
use std::fmt::Write;
use tape_medium::VolumeTag;
use toml::{Table, Value};
use toml_lines::line_of;

/// What the file of an inventory says: the inventory, and what its next start is to do, which is never written by the program.
#[derive(Drop)]
pub struct KeptLibrary {
    pub inventory: Inventory,
    /// The tags of blank volumes that are to be made. No two are one.
    pub blank: Vec<VolumeTag>,
    /// The tags of volumes that are to be write-protected. No two are one.
    pub protect: Vec<VolumeTag>,
}

impl KeptLibrary {
    /// Whether the next start is to do something that is to be taken out of the file then.
    pub(crate) fn has_orders(&self) -> bool {
        !self.blank.is_empty() || !self.protect.is_empty()
    }
}

/// The version of the text of a library of the default profile.
const VERSION: i64 = 1;

/// That of a library of the hosts' profile. A program that knows no profiles refuses it, and so doesn't drop the library's number.
const HOSTS_VERSION: i64 = 2;

/// The value of a library's profile, where it is written.
const HOSTS: &str = "hosts";

/// The key of a volume's source.
pub(crate) const SOURCE: &str = "source";

pub(crate) fn key_text(key: InventoryKey) -> &'static str {
    match key {
        InventoryKey::Version => "version",
        InventoryKey::Drives => "drives",
        InventoryKey::Slots => "slots",
        InventoryKey::ImportExports => "portals",
        InventoryKey::Profile => "profile",
        InventoryKey::LibraryNumber => "library",
        InventoryKey::Volume => "volume",
        InventoryKey::Missing => "missing",
        InventoryKey::Blank => "blank",
        InventoryKey::Protect => "protect",
    }
}

fn integer_at(table: &Table, key: InventoryKey) -> Result<i64, ReadFault> {
    let value = match table.get(key_text(key)) {
        Some(value) => value.as_integer(),
        None => None,
    };
    value.ok_or(ReadFault::BadKey(key))
}

fn byte_at(table: &Table, key: InventoryKey) -> Result<u8, ReadFault> {
    match u8::try_from(integer_at(table, key)?) {
        Ok(number) => Ok(number),
        Err(_) => Err(ReadFault::BadKey(key)),
    }
}

fn size_of(table: &Table) -> Result<LibrarySize, ReadFault> {
    let slots = match u16::try_from(integer_at(table, InventoryKey::Slots)?) {
        Ok(slots) => slots,
        Err(_) => return Err(ReadFault::BadKey(InventoryKey::Slots)),
    };
    Ok(LibrarySize {
        drives: byte_at(table, InventoryKey::Drives)?,
        slots,
        import_exports: byte_at(table, InventoryKey::ImportExports)?,
    })
}

/// The profile of the library, which is the default one where the text says nothing of it; one of the hosts' profile has a number.
fn library_profile_of(table: &Table) -> Result<LibraryProfile, ReadFault> {
    let profile = match table.get(key_text(InventoryKey::Profile)) {
        Some(value) => named_profile(value).ok_or(ReadFault::BadKey(InventoryKey::Profile))?,
        None => Profile::Spec,
    };
    match profile {
        Profile::Spec => Ok(LibraryProfile::Spec),
        Profile::Hosts => match library_number_at(table) {
            Some(number) => Ok(LibraryProfile::Hosts(number)),
            None => Err(ReadFault::BadKey(InventoryKey::LibraryNumber)),
        },
    }
}

fn named_profile(value: &Value) -> Option<Profile> {
    profile_of(value.as_str()?).ok()
}

fn library_number_at(table: &Table) -> Option<LibraryNumber> {
    LibraryNumber::parse(table.get(key_text(InventoryKey::LibraryNumber))?.as_str()?)
}

/// The number of an element of a type, if a table names one.
fn number_at(volume: &Table, key: &str) -> Option<u16> {
    let number = volume.get(key)?.as_integer()?;
    match u16::try_from(number) {
        Ok(number) => Some(number),
        Err(_) => None,
    }
}

/// The one element that a table names.
fn element_of(volume: &Table) -> Option<Element> {
    let drive = number_at(volume, "data_transfer");
    let slot = number_at(volume, "storage");
    let portal = number_at(volume, "import_export");
    match (drive, slot, portal) {
        (Some(number), None, None) => Some(Element::DataTransfer(number)),
        (None, Some(number), None) => Some(Element::Storage(number)),
        (None, None, Some(number)) => Some(Element::ImportExport(number)),
        _ => None,
    }
}

fn tag_text(volume: &Table) -> Option<&str> {
    volume.get("tag")?.as_str()
}

/// The source of a volume, if it has one. In a library of the default profile that is a key that isn't known.
fn source_of(profile: LibraryProfile, volume: &Table) -> Result<Option<Element>, VolumeFault> {
    match profile {
        LibraryProfile::Spec => Ok(None),
        LibraryProfile::Hosts(_) => match volume.get(SOURCE) {
            Some(source) => source_in(source),
            None => Ok(None),
        },
    }
}

/// The one element that a source names.
fn source_in(source: &Value) -> Result<Option<Element>, VolumeFault> {
    let Some(table) = source.as_table() else {
        return Err(VolumeFault::NoSource);
    };
    match element_of(table) {
        Some(element) => Ok(Some(element)),
        None => Err(VolumeFault::NoSource),
    }
}

fn placed_of(profile: LibraryProfile, value: &Value) -> Result<PlacedVolume, VolumeFault> {
    let Some(volume) = value.as_table() else {
        return Err(VolumeFault::NoTable);
    };
    let Some(name) = tag_text(volume) else {
        return Err(VolumeFault::NoTag);
    };
    let Some(tag) = tag_of_name(name) else {
        return Err(VolumeFault::NoTag);
    };
    let Some(element) = element_of(volume) else {
        return Err(VolumeFault::NoElement);
    };
    Ok(PlacedVolume {
        tag,
        element,
        source: source_of(profile, volume)?,
    })
}

fn add_volumes(inventory: &mut Inventory, volumes: &[Value]) -> Result<(), ReadFault> {
    'volumes: for (nth, value) in volumes.iter().enumerate() {
        let placed = match placed_of(inventory.profile(), value) {
            Ok(placed) => placed,
            Err(fault) => return Err(ReadFault::Volume { nth, fault }),
        };
        match inventory.add(placed) {
            Ok(()) => {}
            Err(AddFault::NoMemory) => return Err(ReadFault::NoMemory),
            Err(fault) => {
                let fault = VolumeFault::Refused(fault);
                return Err(ReadFault::Volume { nth, fault });
            }
        }
    }
    Ok(())
}

fn add_missing(inventory: &mut Inventory, volumes: &[Value]) -> Result<(), ReadFault> {
    'volumes: for (nth, value) in volumes.iter().enumerate() {
        let placed = match placed_of(inventory.profile(), value) {
            Ok(placed) => placed,
            Err(fault) => return Err(ReadFault::Missing { nth, fault }),
        };
        match inventory.add_missing(placed) {
            Ok(()) => {}
            Err(AddFault::NoMemory) => return Err(ReadFault::NoMemory),
            Err(fault) => {
                let fault = VolumeFault::Refused(fault);
                return Err(ReadFault::Missing { nth, fault });
            }
        }
    }
    Ok(())
}

/// The volumes that a text has under a key, none where it isn't there.
fn volumes_at(table: &Table, key: InventoryKey) -> Result<&[Value], ReadFault> {
    match table.get(key_text(key)) {
        Some(Value::Array(volumes)) => Ok(volumes),
        Some(_) => Err(ReadFault::BadKey(key)),
        None => Ok(&[]),
    }
}

/// The tags that a text has under a key, none where it isn't there.
fn tags_at(alloc: Global, table: &Table, key: InventoryKey) -> Result<Vec<VolumeTag>, ReadFault> {
    let Ok(names) = volumes_at(table, key) else {
        return Err(ReadFault::BadTags(key));
    };
    let mut tags = Vec::new(alloc);
    'names: for name in names {
        match named_tag(name) {
            Some(tag) if !tags.iter().any(|other| *other == tag) => {
                tags.push(tag).map_err(AllocError::from)?;
            }
            Some(_) | None => return Err(ReadFault::BadTags(key)),
        }
    }
    Ok(tags)
}

fn named_tag(name: &Value) -> Option<VolumeTag> {
    tag_of_name(name.as_str()?)
}

/// What a text in TOML 1.0 holds: an inventory, as `write_inventory` writes it, and under `blank` and `protect` what the next start is to do.
/// A key that it doesn't know is refused, since its writer meant something by it. What is read is an inventory; that it is the one that was
/// written is tested, and not proved.
pub fn read_inventory(alloc: Global, text: &[u8]) -> Result<KeptLibrary, ReadFault> {
    let table = match toml::table_from_slice(alloc, text) {
        Ok(table) => table,
        Err(fault) => return Err(no_toml(text, &fault)),
    };
    let version = integer_at(&table, InventoryKey::Version)?;
    if !(VERSION..=HOSTS_VERSION).contains(&version) {
        return Err(ReadFault::UnknownVersion(version));
    }
    let profile = library_profile_of(&table)?;
    look_at_keys(alloc, text, &table)?;
    let mut inventory = Inventory::new(alloc, profile, size_of(&table)?);
    add_volumes(&mut inventory, volumes_at(&table, InventoryKey::Volume)?)?;
    add_missing(&mut inventory, volumes_at(&table, InventoryKey::Missing)?)?;
    Ok(KeptLibrary {
        inventory,
        blank: tags_at(alloc, &table, InventoryKey::Blank)?,
        protect: tags_at(alloc, &table, InventoryKey::Protect)?,
    })
}

/// Why a text isn't TOML.
fn no_toml(text: &[u8], fault: &toml::de::Error) -> ReadFault {
    match fault.span() {
        Some(span) => ReadFault::NoToml {
            line: line_of(text, span.start),
        },
        None => ReadFault::NoMemory,
    }
}

/// Adds one volume to a text, under a key.
fn write_volume(
    text: &mut String,
    key: InventoryKey,
    volume: &PlacedVolume,
) -> Result<(), WriteFault> {
    let Some(name) = name_of_tag(&volume.tag) else {
        return Err(WriteFault::NoName);
    };
    let key = key_text(key);
    let (kind, number) = words_of(volume.element);
    write!(text, "\n[[{key}]]\ntag = \"{name}\"\n{kind} = {number}\n")?;
    if let Some(source) = volume.source {
        let (kind, number) = words_of(source);
        writeln!(text, "{SOURCE} = {{ {kind} = {number} }}")?;
    }
    Ok(())
}

/// The key of an element's type, and its number within that.
fn words_of(element: Element) -> (&'static str, u16) {
    match element {
        Element::DataTransfer(number) => ("data_transfer", number),
        Element::Storage(number) => ("storage", number),
        Element::ImportExport(number) => ("import_export", number),
    }
}

fn version_for(profile: LibraryProfile) -> i64 {
    match profile {
        LibraryProfile::Spec => VERSION,
        LibraryProfile::Hosts(_) => HOSTS_VERSION,
    }
}

/// Adds the profile of a library to a text. The default one is written nowhere.
fn write_profile(text: &mut String, profile: LibraryProfile) -> Result<(), WriteFault> {
    match profile {
        LibraryProfile::Spec => {}
        LibraryProfile::Hosts(number) => {
            write!(text, "profile = \"{HOSTS}\"\nlibrary = \"{number}\"\n")?;
        }
    }
    Ok(())
}

/// The text of an inventory with the volumes that are missing, each with the element in which it was, in TOML 1.0.
pub fn write_inventory(
    alloc: Global,
    inventory: &Inventory,
    missing: &[PlacedVolume],
) -> Result<String, WriteFault> {
    let mut text = String::new(alloc);
    let LibrarySize {
        drives,
        slots,
        import_exports,
    } = inventory.size();
    let version = version_for(inventory.profile());
    writeln!(text, "version = {version}")?;
    write!(
        text,
        "drives = {drives}\nslots = {slots}\nportals = {import_exports}\n"
    )?;
    write_profile(&mut text, inventory.profile())?;
    'volumes: for volume in inventory.volumes() {
        write_volume(&mut text, InventoryKey::Volume, volume)?;
    }
    'missing: for volume in missing {
        write_volume(&mut text, InventoryKey::Missing, volume)?;
    }
    Ok(text)
}
