ghost use Rattle.std.specs.Prelude.{◌≡◌, ◌⊎◌, ℕ, List, IfErr, OnOk};
ghost use Rattle.iscsi_pdu.specs.Pdus.{TargetPduValue};
ghost use Rattle.iscsi_chap.specs.declared.session_type.SessionType.TheVariants.{Normal};
ghost use Rattle.iscsi_tasks.specs.Next.{next_of};
ghost use Rattle.iscsi_tasks.specs.declared.next_task.NextTask.TheVariants.{Idle};
ghost use Rattle.iscsi_session.specs.Faults.{IsLater};
ghost use Rattle.iscsi_session.specs.Leaving.{IsLostUnless, Leaves};
ghost use Rattle.iscsi_session.specs.LoggingIn.{nexus_of};
ghost use Rattle.iscsi_session.specs.Serving.{Serves, ServesBehind, WritesLast, first_moment};
ghost use Rattle.iscsi_session.specs.Ends.{EndFits};
ghost use Rattle.iscsi_session.specs.Talking.{Converses, Moment, pdus_of};
ghost use Rattle.iscsi_session.specs.Worlds.{world};

use crate::claiming::{Claim, SessionIdentity, claim_of};
use crate::connection::{Connection, flush};
use crate::fault::{IscsiEnd, IscsiFault};
use crate::keeping::KeepingService;
use crate::kinds::{DiscoverySession, NormalSession, SessionKind};
use crate::login::{LoginWait, await_login};
use crate::pdu_buffer::PduBuffer;
use crate::portal::Arrival;
use crate::register::{Entrant, Joined, NexusEnd, SessionRegister};
use crate::talking::{ROOM, Session};
use iscsi_login::{FullFeature, LoginExchange};
use iscsi_pdu::LoginStatus;
use scsi_nexus::Nexus;
use session::{Service, SessionFault, lose_at_units};
use std::alloc::Global;
use std::io::{Read, Write};

/// One connection, from its first Login Request to its end; the reader is read at most `turns` times. Its nexus is the SAS address that
/// the initiator is let in as, at the portal group.
///
/// ```text
///   no login yet ── login, let in ──> full feature ── PDUs ──> full feature
///        │                                │
///        │ refused, the end of input,     │ a logout, the end of input, a fault, a failed read or write, silence: unless another session of
///        │ a fault: nothing is lost       │ its nexus goes on, the nexus is lost at every unit and leaves the directory
///        v                                v
///      ended                            ended
/// ```
///
/// However a session that logged in ends, its nexus is lost at every unit, once, and then leaves the directory, unless the register says that
/// another session of it goes on; where a loss was BUSY the end is `NoMemory`. A discovery session, and one that isn't let in, change nothing at
/// the service.
///
/// Where the login asks for the place of a session that lives (`claim_of`), that one is ended by the register first; where it hasn't
/// ended in time, the login is refused.
///
/// A reader that fails by `WouldBlock` or `TimedOut` says that nothing came for a while: in full feature the target pings once, and
/// where nothing comes then either, or during login, the end is `Silent`. One that fails by `Interrupted` in full feature shows nothing.
/// Behind a read of whatever kind a logout is asked for, once, where the register says that all sessions are to end (RFC 7143,
/// "Asynchronous Message").
#[tactic(auto, unfolding(crate::specs::Serving::Serves))]
pub fn serve<S: KeepingService, G: SessionRegister, R: Read, W: Write>(
    alloc: Global,
    service: &mut S,
    register: &G,
    arrival: &Arrival<'_>,
    reader: &mut R,
    writer: &mut W,
    turns: u64,
) -> Result<IscsiEnd, IscsiFault>
    ensures service { Leaves S.notes S.count (G.others register.now) arrival.now.portal.group service.old service.new }
    ensures refused { IfErr result (λ fault. IsLater fault ⊎ (service.new ≡ service.old)) }
    ensures session { Serves S.notes S.waits S.count (G.others register.now) (G.resets register.now) (G.ends register.now) (G.settles register.now)
        arrival.now.portal.target.now arrival.now.challenge arrival.now.portal.group service.old
        (R.remaining reader.old) (R.remaining reader.new) (W.contents writer.old) (W.contents writer.new) result service.new }
{
    let mut read_buffer = PduBuffer::new(alloc)?;
    let mut out = Vec::with_capacity(alloc, ROOM)?;
    let mut exchange = LoginExchange::new(alloc, arrival.portal.group, arrival.challenge);
    let waited = await_login(
        arrival.portal.target,
        &mut exchange,
        &mut read_buffer,
        &mut out,
        reader,
        writer,
        turns,
    );
    register.note_name(exchange.initiator_name());
    let (begun, turns) = match waited? {
        LoginWait::Begins { begun, turns } => (begun, turns),
        LoginWait::Ended(end) => return Ok(end),
    };
    let login = DueLogin {
        arrival: *arrival,
        exchange,
        begun,
        turns,
        read_buffer,
        out,
    };
    login.serve(alloc, service, register, reader, writer)
}

/// A login whose last response is asked for.
#[derive(Drop)]
struct DueLogin<'a> {
    arrival: Arrival<'a>,
    exchange: LoginExchange,
    begun: FullFeature,
    /// As many reads may follow.
    turns: u64,
    read_buffer: PduBuffer,
    out: Vec<u8>,
}

impl<'a> DueLogin<'a> {
    /// What an initiator that was let in is, at the portal group.
    fn nexus(&self) -> Nexus
        ensures { result ≡ nexus_of self.now.arrival.portal.group self.now.begun }
    {
        Nexus {
            sas: self.begun.admission.sas(),
            port: self.arrival.portal.group,
        }
    }

    /// The target's part of its session's identifier: a session in the place of one that it names keeps that one's, any other has a new one
    /// (RFC 7143, "Connection Reinstatement" and "Target Session Identifying Handle").
    fn tsih(&self) -> u16 {
        if self.begun.tsih == 0 {
            self.arrival.tsih
        } else {
            self.begun.tsih
        }
    }

    /// As what it asks to be let in.
    fn entrant(&self, nexus: Nexus) -> Entrant
        ensures { result.nexus ≡ nexus }
    {
        let session = SessionIdentity {
            isid: self.begun.isid,
            tsih: self.tsih(),
            cid: self.begun.cid,
        };
        Entrant {
            nexus,
            session,
            admission: self.begun.admission,
            proved: self.begun.proved,
        }
    }

    /// Serves the session, by its type.
    fn serve<S: KeepingService, G: SessionRegister, R: Read, W: Write>(
        self,
        alloc: Global,
        service: &mut S,
        register: &G,
        reader: &mut R,
        writer: &mut W,
    ) -> Result<IscsiEnd, IscsiFault>
        ensures service { Leaves S.notes S.count (G.others register.now) self.entry.arrival.portal.group service.old service.new }
        ensures refused { IfErr result (λ fault. IsLater fault ⊎ (service.new ≡ service.old)) }
        ensures session { ServesBehind S.notes S.waits S.count (G.others register.now) (G.resets register.now) (G.ends register.now) (G.settles register.now)
            self.entry.arrival.portal.group self.entry.begun service.old self.entry.read_buffer
            (R.remaining reader.old) (R.remaining reader.new) (W.contents writer.old) (W.contents writer.new) result service.new }
    {
        if self.begun.session_type.has_units() {
            self.serve_session(alloc, service, register, reader, writer)
        } else {
            self.serve_discovery(alloc, register, reader, writer)
        }
    }

    /// Refuses the login, and says how the connection ends.
    fn refuse<W: Write>(self, status: LoginStatus, writer: &mut W) -> IscsiFault {
        let DueLogin {
            mut exchange,
            mut out,
            ..
        } = self;
        if exchange.refuse(status, &mut out).is_err() {
            return IscsiFault::NoMemory;
        }
        match flush(&mut out, writer) {
            Ok(()) => IscsiFault::Refused(status),
            Err(fault) => fault,
        }
    }

    /// A discovery session, from the last request of its login to its end. It takes the place of none.
    fn serve_discovery<G: SessionRegister, R: Read, W: Write>(
        self,
        alloc: Global,
        register: &G,
        reader: &mut R,
        writer: &mut W,
    ) -> Result<IscsiEnd, IscsiFault> {
        if self.begun.tsih != 0 {
            return Err(self.refuse(LoginStatus::SessionDoesNotExist, writer));
        }
        if let Err(status) = register.enter_discovery() {
            return Err(self.refuse(status, writer));
        }
        self.begin(DiscoverySession, alloc, &mut (), register, reader, writer)
    }

    /// A normal session, from the last request of its login to its end.
    fn serve_session<S: KeepingService, G: SessionRegister, R: Read, W: Write>(
        self,
        alloc: Global,
        service: &mut S,
        register: &G,
        reader: &mut R,
        writer: &mut W,
    ) -> Result<IscsiEnd, IscsiFault>
        requires { self.begun.session_type ≡ Normal }
        ensures service { Leaves S.notes S.count (G.others register.now) self.entry.arrival.portal.group service.old service.new }
        ensures refused { IfErr result (λ fault. IsLater fault ⊎ (service.new ≡ service.old)) }
        ensures session { ServesBehind S.notes S.waits S.count (G.others register.now) (G.resets register.now) (G.ends register.now) (G.settles register.now)
            self.entry.arrival.portal.group self.entry.begun service.old self.entry.read_buffer
            (R.remaining reader.old) (R.remaining reader.new) (W.contents writer.old) (W.contents writer.new) result service.new }
    {
        let nexus = self.nexus();
        let entrant = self.entrant(nexus);
        let key = match enter(service, register, &entrant, &self.begun) {
            Ok(LetIn { key, joined }) => {
                register.note_login(nexus, self.exchange.initiator_name(), joined);
                key
            }
            Err(status) => return Err(self.refuse(status, writer)),
        };
        let kind = NormalSession { nexus };
        let ended = self.begin(kind, alloc, service, register, reader, writer);
        if !leave(alloc, service, register, nexus, key) {
            return Err(IscsiFault::NoMemory);
        }
        match ended {
            Ok(end) => Ok(end),
            Err(fault) => Err(fault),
        }
    }

    /// Begins a session of a type: adds the last response of the login, and answers what comes behind it.
    fn begin<S, K: SessionKind<S>, G: SessionRegister, R: Read, W: Write>(
        self,
        kind: K,
        alloc: Global,
        service: &mut S,
        register: &G,
        reader: &mut R,
        writer: &mut W,
    ) -> Result<IscsiEnd, IscsiFault>
        ensures fault { IfErr result IsLater }
        ensures talks { (said : List TargetPduValue) × (ended : Moment S) × (rest : List ℕ) × (all : Converses
            (world (K.works kind) (K.takes_resets kind) (G.resets register.now) (G.ends register.now) (G.settles register.now))
            1 (first_moment self.entry.begun service.old self.entry.read_buffer) (R.remaining reader.old) (R.remaining reader.new)
            said ended rest)
            × (ended.service ≡ service.new)
            × OnOk result ((next_of ended.tasks ≡ Idle) × WritesLast (W.contents writer.old) (W.contents writer.new) said)
            × EndFits result (pdus_of all.2.events) ended.tasks rest (R.remaining reader.new) }
    {
        let tsih = self.tsih();
        let DueLogin {
            arrival,
            mut exchange,
            begun,
            turns,
            read_buffer,
            mut out,
        } = self;
        exchange.accept(tsih, &mut out)?;
        let stat_sn = exchange.next_stat_sn();
        let mut session = Session {
            kind,
            connection: Connection::new(alloc, arrival.portal, &begun, stat_sn, out),
            read_buffer,
        };
        session.serve_requests(alloc, service, register, reader, writer, turns)
    }
}

/// A login that was let in.
#[derive(Clone, Copy)]
struct LetIn {
    /// The key of its nexus in the directory.
    key: usize,
    joined: Joined,
}

/// Lets a login in, behind the session whose place it takes, if it does, or says how it is refused.
fn enter<S: KeepingService, G: SessionRegister>(
    service: &mut S,
    register: &G,
    entrant: &Entrant,
    begun: &FullFeature,
) -> Result<LetIn, LoginStatus>
    ensures { service.new ≡ service.old }
{
    let nexus = entrant.nexus;
    match claim_of(begun, register.living(nexus, begun.isid)) {
        Claim::New => {}
        Claim::PlaceOf(session) => {
            if !register.end(nexus, session) {
                return Err(LoginStatus::TargetError);
            }
        }
        Claim::Refused(status) => return Err(status),
    }
    let joined = register.enter(entrant)?;
    let key = match joined {
        Joined::Beside(key) => {
            service.join(nexus);
            key
        }
        Joined::First => enter_directory(service, register, nexus)?,
    };
    Ok(LetIn { key, joined })
}

/// Has a nexus enter the directory, and gives its key.
fn enter_directory<S: Service, G: SessionRegister>(
    service: &mut S,
    register: &G,
    nexus: Nexus,
) -> Result<usize, LoginStatus>
    ensures { service.new ≡ service.old }
{
    match service.login(nexus) {
        Ok(key) => {
            register.note_key(key);
            Ok(key)
        }
        Err(fault) => {
            let status = status_of(fault);
            register.withdraw(status);
            Err(status)
        }
    }
}

/// Ends a session of a nexus: where no other goes on, the nexus is lost at every unit and leaves the directory. Whether no loss was BUSY.
fn leave<S: Service, G: SessionRegister>(
    alloc: Global,
    service: &mut S,
    register: &G,
    nexus: Nexus,
    key: usize,
) -> bool
    ensures { IsLostUnless S.notes (G.others register.now nexus) nexus (S.count service.old) service.old service.new result }
{
    match register.leave(nexus) {
        NexusEnd::GoesOn => true,
        NexusEnd::Lost => {
            let is_lost = lose_at_units(alloc, service, nexus);
            service.logout(key);
            is_lost
        }
    }
}

/// How a login is refused whose nexus the service doesn't take.
fn status_of(fault: SessionFault) -> LoginStatus {
    match fault {
        SessionFault::AlreadyConnected => LoginStatus::OutOfResources,
        SessionFault::BadFrame
        | SessionFault::TooLong
        | SessionFault::Read
        | SessionFault::Write
        | SessionFault::NoMemory => LoginStatus::TargetError,
    }
}
