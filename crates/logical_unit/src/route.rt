ghost use Rattle.std.specs.Prelude.{◌≡◌, ◌==◌, IfSome};
ghost use Rattle.logical_unit.specs.MoveJudgement.{DecodesTo};
ghost use Rattle.std.specs.List.{list_all};
ghost use Rattle.scsi_cdb.specs.declared.request.Request.TheVariants.{Host};
ghost use Rattle.logical_unit.specs.Route.{drive_at, drive_in, errand_in, errand_of, named, named_by, named_among, IsOneOf, NamesWithin};

use arrayvec::ArrayVec;
use judgement::ReceivedCommand;
use scsi_cdb::{Class, HostRequest, Request};
use tape_medium::FIRST_DATA_TRANSFER;

/// The ends of a MOVE MEDIUM by their element addresses, and the drives among them by logical unit number.
#[derive(Clone, Copy)]
pub struct Route {
    pub source: u16,
    pub destination: u16,
    /// The drive that the volume comes out of.
    pub from: Option<u16>,
    /// The drive that it goes into.
    pub to: Option<u16>,
}

impl Route {
    ghost use Rattle.std.specs.Prelude.{◌≡◌};
    ghost use Rattle.logical_unit.specs.Route.{is_upward};

    /// Whether the volume goes from a drive to one of a higher number.
    pub(crate) fn is_upward(self) -> bool
        ensures { result ≡ is_upward self.from self.to }
    {
        match (self.from, self.to) {
            (Some(from), Some(to)) => from < to,
            (None, _) | (_, None) => true,
        }
    }
}

/// The ends of an EXCHANGE MEDIUM by their element addresses, and the drives among them by logical unit number.
#[derive(Clone, Copy)]
pub struct ExchangeRoute {
    pub source: u16,
    /// The first destination, to which the source's volume goes.
    pub first: u16,
    /// The second destination, to which the first destination's volume goes.
    pub second: u16,
    /// The drive at the source.
    pub from: Option<u16>,
    /// The drive at the first destination.
    pub between: Option<u16>,
    /// The drive at the second destination.
    pub to: Option<u16>,
}

impl ExchangeRoute {
    ghost use Rattle.std.specs.Prelude.{◌≡◌};
    ghost use Rattle.logical_unit.specs.VolumeAfter.{given_end};

    /// Where the volume ends that a drive gives; where no drive gives one, the first destination.
    pub(crate) fn given_end(self) -> u16
        ensures { result ≡ given_end self }
    {
        match self.between {
            None => self.first,
            Some(_) => self.second,
        }
    }
}

/// What a command asks of volumes.
#[derive(Clone, Copy)]
pub enum Errand {
    /// MOVE MEDIUM.
    Move(Route),
    /// EXCHANGE MEDIUM.
    Exchange(ExchangeRoute),
}

impl Errand {
    ghost use Rattle.std.specs.Prelude.{◌≡◌};
    ghost use Rattle.logical_unit.specs.Route.{class_of_errand, records_for};

    /// The class of the commands that ask for it.
    pub(crate) fn class(self) -> Class
        ensures { result ≡ class_of_errand self }
    {
        match self {
            Errand::Move(_) => Class::MoveMedium,
            Errand::Exchange(_) => Class::ExchangeMedium,
        }
    }

    /// How many records a drive has of it, which it names alone.
    pub(crate) fn records(self) -> u8
        ensures { result ≡ records_for self }
    {
        match self {
            Errand::Move(_) => 1,
            Errand::Exchange(route) => {
                let given = u8::from(route.from.is_some());
                let both = u8::from(route.between.is_some());
                let taken = u8::from(route.to.is_some());
                given + both + both + taken
            }
        }
    }
}

/// The drive whose element has an address, among so many drives.
fn drive_at(drives: u16, address: u16) -> Option<u16>
    ensures drive { result ≡ drive_at drives address }
    ensures within { IsOneOf drives result }
{
    if address >= FIRST_DATA_TRANSFER && address - FIRST_DATA_TRANSFER < drives {
        Some(address - FIRST_DATA_TRANSFER + 1)
    } else {
        None
    }
}

/// What a command to a changer with so many drives asks of volumes; all but MOVE MEDIUM and EXCHANGE MEDIUM ask nothing.
pub(crate) fn errand_of(drives: u16, received: &ReceivedCommand<'_>) -> Option<Errand>
    ensures errand { result ≡ errand_of received.now.commands drives received.now.cdb }
    ensures decodes { IfSome result (DecodesTo received.now.commands drives received.now.cdb) }
    ensures within { IfSome result (NamesWithin drives) }
{
    let Ok(request) = received.request() else {
        return None;
    };
    errand_in(drives, &request)
}

/// The same of a request.
fn errand_in(drives: u16, request: &Request) -> Option<Errand>
    ensures errand { result ≡ errand_in drives request.now }
    ensures within { IfSome result (NamesWithin drives) }
{
    if let Request::Host(command) = request {
        return exchange_in(drives, command);
    }
    let Request::MoveMedium {
        source_element_address: source,
        destination_element_address: destination,
        ..
    } = request
    else {
        return None;
    };
    Some(Errand::Move(Route {
        source: *source,
        destination: *destination,
        from: drive_at(drives, *source),
        to: drive_at(drives, *destination),
    }))
}

/// The same of a command that only the hosts' profile has.
fn exchange_in(drives: u16, command: &HostRequest) -> Option<Errand>
    ensures errand { result ≡ errand_in drives (Host command.now) }
    ensures within { IfSome result (NamesWithin drives) }
{
    let HostRequest::ExchangeMedium {
        source_element_address: source,
        first_destination_element_address: first,
        second_destination_element_address: second,
        ..
    } = command
    else {
        return None;
    };
    Some(Errand::Exchange(ExchangeRoute {
        source: *source,
        first: *first,
        second: *second,
        from: drive_at(drives, *source),
        between: drive_at(drives, *first),
        to: drive_at(drives, *second),
    }))
}

/// The logical unit numbers of the drives that a command to a changer with so many drives names, rising, each once: one or two for a MOVE
/// MEDIUM (SMC-3, "MOVE MEDIUM command") with a data transfer element among its ends; one for an EXCHANGE MEDIUM (SMC-3, "EXCHANGE MEDIUM
/// command") with just one drive's element among its ends; none for any other.
pub fn named(drives: u8, received: &ReceivedCommand<'_>) -> ArrayVec<u8, 2>
    ensures { result.items ≡ named received.now.commands drives received.now.cdb }
{
    match errand_of(u16::from(drives), received) {
        None => ArrayVec::new(),
        Some(Errand::Move(route)) => named_by(route.from, route.to),
        Some(Errand::Exchange(route)) => named_among(route.from, route.between, route.to),
    }
}

/// The drives of a move.
fn named_by(from: Option<u16>, to: Option<u16>) -> ArrayVec<u8, 2>
    requires from { IsOneOf 255 from }
    requires to { IsOneOf 255 to }
    ensures { result.items ≡ named_by from to }
{
    let mut luns = ArrayVec::new();
    match (from, to) {
        (None, None) => {}
        (Some(lun), None) | (None, Some(lun)) => luns.push(lun as u8),
        (Some(from), Some(to)) if from == to => luns.push(from as u8),
        (Some(from), Some(to)) => {
            luns.push(from.min(to) as u8);
            luns.push(from.max(to) as u8);
        }
    }
    luns
}

/// The drive of an exchange, if it is just one.
fn named_among(from: Option<u16>, between: Option<u16>, to: Option<u16>) -> ArrayVec<u8, 2>
    requires from { IsOneOf 255 from }
    requires between { IsOneOf 255 between }
    requires to { IsOneOf 255 to }
    ensures { result.items ≡ named_among from between to }
{
    let mut luns = ArrayVec::new();
    if let Some(lun) = from.or(between).or(to) {
        if is_at(lun, from) && is_at(lun, between) && is_at(lun, to) {
            luns.push(lun as u8);
        }
    }
    luns
}

/// Whether an element is that drive's, or none's.
fn is_at(lun: u16, drive: Option<u16>) -> bool
    ensures { result ≡ list_all (λ m. m == lun) (drive_in drive) }
{
    match drive {
        None => true,
        Some(other) => other == lun,
    }
}
