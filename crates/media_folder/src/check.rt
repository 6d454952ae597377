//! A folder that is checked, while nothing in it is changed.
use crate::check_fault::CheckFault;
use crate::fault::FolderFault;
use crate::inventory_file::read_inventory_file;
use crate::listing::list_volumes;
use crate::names::FolderPaths;
use crate::reading::AT_ONCE;
use crate::refusal::ImageRefusal;
use crate::seen::SeenFiles;
use crate::summary::ImageSummary;
use library_inventory::{PlacedVolume, name_of_tag};
use scsi_cdb::Profile;
use std::fs::{self, Files};
use std::io::{BufReader, Write};
use tape_image::index_image;
use tape_medium::{VolumeTag, most_block};

/// How many volumes have something wrong.
#[derive(Clone, Copy)]
struct Findings {
    /// Their images have a fault, or they have none of their own.
    faulty: usize,
    /// Their images couldn't be read.
    unread: usize,
}

/// Reads the images of the volumes in a folder, and writes to `out` for each a line that says what it holds, or why it can't be served. No
/// lock is taken and nothing is changed, so that it also works while a server has the folder.
pub fn check_folder<R: AllocGlobal + Files, W: Write, E: Write>(
    rt: &R,
    path: String,
    out: &mut W,
    errors: &mut E,
) -> Result<(), CheckFault> {
    let folder = FolderPaths::by_path(path.as_str());
    let Some(kept) = read_inventory_file(rt, folder)? else {
        return Err(CheckFault::Folder(FolderFault::NoLibrary(path)));
    };
    let tags = list_volumes(rt, folder, errors)?;
    let profile = kept.inventory.profile().profile();
    let mut findings = check_images(rt, folder, profile, &tags, out)?;
    findings.faulty = findings
        .faulty
        .saturating_add(write_missing(&tags, kept.inventory.volumes(), out)?)
        .saturating_add(write_missing(&tags, kept.inventory.missing(), out)?);
    match findings {
        Findings {
            faulty: 0,
            unread: 0,
        } => Ok(()),
        Findings { faulty, unread: 0 } => Err(CheckFault::Faulty {
            path,
            count: faulty,
        }),
        Findings { unread, .. } => Err(CheckFault::CannotRead {
            path,
            count: unread,
        }),
    }
}

/// Writes the lines of the volumes whose files are there.
fn check_images<R: AllocGlobal + Files, W: Write>(
    rt: &R,
    folder: FolderPaths<'_>,
    profile: Profile,
    tags: &[VolumeTag],
    out: &mut W,
) -> Result<Findings, CheckFault> {
    let mut seen = SeenFiles::new(rt.alloc());
    let mut findings = Findings {
        faulty: 0,
        unread: 0,
    };
    for tag in tags {
        let paths = folder.volume(rt.alloc(), tag)?;
        let summary = match seen.look(rt, paths.opened.as_str()) {
            Ok(_) => summary_at(rt, paths.opened.as_str(), profile),
            Err(refusal) => Err(refusal),
        };
        write_summary(tag, &summary, &mut findings, out)?;
    }
    Ok(findings)
}

/// What the image at a path holds, of a volume of a library of a profile.
fn summary_at<R: AllocGlobal + Files>(
    rt: &R,
    path: &str,
    profile: Profile,
) -> Result<ImageSummary, ImageRefusal> {
    let file = fs::open(rt, path)?;
    let mut reader = BufReader::with_capacity(rt.alloc(), AT_ONCE, file)?;
    let index = index_image(rt.alloc(), most_block(profile), &mut reader)?;
    ImageSummary::of(profile, &index)
}

/// Writes the line of one volume, and counts it.
fn write_summary<W: Write>(
    tag: &VolumeTag,
    summary: &Result<ImageSummary, ImageRefusal>,
    findings: &mut Findings,
    out: &mut W,
) -> Result<(), CheckFault> {
    let name = name_of_tag(tag).ok_or(FolderFault::NoName)?;
    let written = match summary {
        Ok(summary) => writeln!(out, "{name}: {summary}"),
        Err(ImageRefusal::NoMemory) => return Err(CheckFault::Folder(FolderFault::NoMemory)),
        Err(refusal) => {
            count_refusal(*refusal, findings);
            writeln!(out, "{name}: {refusal}")
        }
    };
    written.map_err(|_| CheckFault::Write)
}

fn count_refusal(refusal: ImageRefusal, findings: &mut Findings) {
    match refusal {
        ImageRefusal::NoMemory => {}
        ImageRefusal::CannotRead | ImageRefusal::System(_) | ImageRefusal::Record(_) => {
            findings.unread = findings.unread.saturating_add(1);
        }
        ImageRefusal::NotRegular
        | ImageRefusal::RecordNotRegular
        | ImageRefusal::RecordVersion(_)
        | ImageRefusal::Doubled
        | ImageRefusal::Faulty { .. }
        | ImageRefusal::TooLarge { .. } => findings.faulty = findings.faulty.saturating_add(1),
    }
}

/// Writes the lines of those volumes of an inventory whose files aren't there, and answers how many they are.
fn write_missing<W: Write>(
    tags: &[VolumeTag],
    volumes: &[PlacedVolume],
    out: &mut W,
) -> Result<usize, CheckFault> {
    let mut count = 0usize;
    for volume in volumes {
        if tags.iter().any(|tag| *tag == volume.tag) {
            continue;
        }
        let name = name_of_tag(&volume.tag).ok_or(FolderFault::NoName)?;
        if writeln!(out, "{name}: its file is missing").is_err() {
            return Err(CheckFault::Write);
        }
        count = count.saturating_add(1);
    }
    Ok(count)
}
