//! Calls that allocate and that the program doesn't make.

use super::assert_list;
use iscsi_keys::write_item;
use library_start::library;
use logical_unit::Reply;
use permit_tables::{Cell, ResType, Role};
use program_options::{LibraryOptions, LibraryProfile};
use scsi_cdb::Class;
use scsi_sense::Status;
use target_core::Event;

const CELL: Cell = Cell {
    class: Class::TestUnitReady,
    res_type: ResType::We,
    role: Role::Registered,
};

#[test]
fn a_cell_has_a_text(rt: HostRuntime) {
    let text = CELL.text(rt.alloc()).expect(&rt, "memory");
    let wanted = b"TEST-UNIT-READY/WE/REGISTERED";
    assert_list(&rt, text.as_bytes(), wanted, "the text of a cell");
}

#[test]
fn an_item_is_written(rt: HostRuntime) {
    let mut out = Vec::new(rt.alloc());
    write_item(&mut out, b"MaxBurstLength", b"512").expect(&rt, "memory");
    assert_list(&rt, &out, b"MaxBurstLength=512\0", "the bytes of an item");
}

fn status_at(replies: &[Reply], place: usize) -> Option<Status> {
    match replies.get(place) {
        Some(reply) => Some(reply.status),
        None => None,
    }
}

#[test]
fn a_target_runs_events(rt: HostRuntime) {
    let alloc = rt.alloc();
    let mut core = library(alloc, &LibraryOptions::DEFAULT, LibraryProfile::Spec).expect(
        &rt,
        "a library",
    );
    let mut replies = Vec::new(alloc);
    let events = [Event::Reset { lun: 1 }, Event::Reset { lun: 9 }];
    core.run(alloc, &events, &mut replies).expect(&rt, "memory");
    let statuses = [status_at(&replies, 0), status_at(&replies, 1)];
    let wanted = [Some(Status::Good), Some(Status::CheckCondition)];
    assert_list(&rt, &statuses, &wanted, "the statuses of the replies");
}
