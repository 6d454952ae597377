ghost use Rattle.std.specs.Prelude.{◌≡◌, ◌≤◌, ◌++◌, [], if◌then◌else◌, length, filter, Option, Some, None, Ok, Err, IfOk, OnOk, MatchResult};
ghost use Rattle.std.specs.List.{flat_map};
ghost use Rattle.std.specs.Option.{option_copied};
ghost use Rattle.supported_commands.specs.Commands.{has, commands_of};
ghost use Rattle.supported_commands.specs.Answers.{is_refused, flags, descriptor, timeouts, timeouts_descriptor, all_commands, one_command, operation_codes, operation_codes_fault};

use crate::command::Command;
use crate::commands::{command_with_action, command_with_code, commands};
use crate::layout::{
    COMMAND_DESCRIPTOR_LENGTH, NOMINAL_SECONDS, NOT_SUPPORTED, SERVICE_ACTION_VALID, SUPPORTED,
    TIMEOUTS_DESCRIPTOR_LENGTH, TIMEOUTS_DESCRIPTOR_REST, TIMEOUTS_FOLLOW, TIMEOUTS_FOLLOW_ONE,
};
use crate::options::ReportingOptions;
use crate::request::ReportOperationCodes;
use scsi_cdb::Kind;
use scsi_sense::Condition;
use std::alloc::{AllocError, Global};

/// The data of REPORT SUPPORTED OPERATION CODES of a unit of the kind, uncut, at most 1,024 bytes; or INVALID FIELD IN CDB where an
/// operation code with service actions is asked for without one, or one without service actions with one. A command that the unit
/// hasn't is answered, as one that isn't supported (SPC-4, "REPORT SUPPORTED OPERATION CODES command").
pub fn supported_operation_codes(
    alloc: Global,
    kind: Kind,
    asked: &ReportOperationCodes,
) -> Result<Result<Vec<u8>, Condition>, AllocError>
    ensures answer { IfOk result (λ answer. MatchResult answer
        (λ bytes. operation_codes kind asked.now ≡ Ok bytes.items)
        (λ condition. operation_codes kind asked.now ≡ Err condition)) }
    ensures short { IfOk result (λ answer. IfOk answer (λ bytes. length bytes.items ≤ 1024)) }
{
    let first = command_with_code(kind, asked.operation_code);
    if is_refused(asked.options, first) {
        return Ok(Err(Condition::InvalidFieldInCdb));
    }
    match asked.options {
        ReportingOptions::All => Ok(Ok(all_commands(alloc, kind, asked.return_timeouts)?)),
        ReportingOptions::OneWithoutServiceActions => {
            Ok(Ok(one_command(alloc, asked.return_timeouts, first)?))
        }
        ReportingOptions::OneWithServiceAction | ReportingOptions::Either => {
            let command = command_with_action(kind, asked.operation_code, asked.service_action);
            Ok(Ok(one_command(alloc, asked.return_timeouts, command)?))
        }
    }
}

/// Why REPORT SUPPORTED OPERATION CODES is refused at a unit of the kind, which its fields decide alone.
pub fn operation_codes_fault(kind: Kind, asked: &ReportOperationCodes) -> Option<Condition>
    ensures { result ≡ operation_codes_fault kind asked.now }
{
    let first = command_with_code(kind, asked.operation_code);
    if is_refused(asked.options, first) {
        Some(Condition::InvalidFieldInCdb)
    } else {
        None
    }
}

/// Whether an operation code is asked for as one with service actions that has none, or the other way round.
fn is_refused(options: ReportingOptions, first: Option<&Command>) -> bool
    ensures { result ≡ is_refused options (option_copied first.entry) }
{
    match first {
        None => false,
        Some(command) => match options {
            ReportingOptions::All | ReportingOptions::Either => false,
            ReportingOptions::OneWithoutServiceActions => command.has_service_action(),
            ReportingOptions::OneWithServiceAction => !command.has_service_action(),
        },
    }
}

/// The data of all commands of the kind of unit.
fn all_commands(alloc: Global, kind: Kind, return_timeouts: bool) -> Result<Vec<u8>, AllocError>
    ensures bytes { IfOk result (λ bytes. bytes.items ≡ all_commands kind return_timeouts) }
    ensures short { IfOk result (λ bytes. length bytes.items ≤ 1024) }
{
    let descriptors = descriptors_of(alloc, kind, return_timeouts)?;
    let length = descriptors.len() as u32;
    let mut data = Vec::from_slice(alloc, &length.to_be_bytes())?;
    data.extend_from_slice(&descriptors)?;
    Ok(data)
}

/// The descriptors of all commands of the kind of unit.
fn descriptors_of(alloc: Global, kind: Kind, return_timeouts: bool) -> Result<Vec<u8>, AllocError>
    ensures bytes { IfOk result (λ bytes. bytes.items ≡ flat_map (descriptor return_timeouts) (commands_of kind)) }
    ensures short { IfOk result (λ bytes. length bytes.items ≤ 1020) }
{
    let mut data = Vec::new(alloc);
    write_descriptors(&mut data, commands(), kind, return_timeouts)?;
    Ok(data)
}

/// Adds the descriptors of those commands that units of the kind have.
fn write_descriptors(
    out: &mut Vec<u8>,
    commands: &[Command],
    kind: Kind,
    return_timeouts: bool,
) -> Result<(), AllocError>
    ensures { OnOk result (out.new.items
        ≡ out.old.items ++ flat_map (descriptor return_timeouts) (filter (λ c. has c.units kind) commands.now)) }
{
    for command in commands {
        write_where_had(out, command, kind, return_timeouts)?;
    }
    Ok(())
}

/// Adds the descriptor of a command, where units of the kind have that.
fn write_where_had(
    out: &mut Vec<u8>,
    command: &Command,
    kind: Kind,
    return_timeouts: bool,
) -> Result<(), AllocError>
    ensures { OnOk result (out.new.items
        ≡ out.old.items ++ (if has command.now.units kind then descriptor return_timeouts command.now else [])) }
{
    if command.units.has(kind) {
        write_descriptor(out, command, return_timeouts)?;
    }
    Ok(())
}

/// Adds the descriptor of a command, with its timeouts where they are asked for.
fn write_descriptor(
    out: &mut Vec<u8>,
    command: &Command,
    return_timeouts: bool,
) -> Result<(), AllocError>
    ensures { OnOk result (out.new.items ≡ out.old.items ++ descriptor return_timeouts command.now) }
{
    out.extend_from_slice(&command_descriptor(command, return_timeouts))?;
    write_timeouts(out, command, return_timeouts)
}

/// The command descriptor alone.
fn command_descriptor(command: &Command, return_timeouts: bool) -> [u8; COMMAND_DESCRIPTOR_LENGTH]
    ensures { result ++ timeouts return_timeouts command.now ≡ descriptor return_timeouts command.now }
{
    let [action_high, action_low] = command.action_field().to_be_bytes();
    let [length_high, length_low] = command.usage.length().to_be_bytes();
    let flags = flags(command, return_timeouts);
    [
        command.operation_code,
        0x00,
        action_high,
        action_low,
        0x00,
        flags,
        length_high,
        length_low,
    ]
}

/// CTDP and SERVACTV of a command descriptor.
fn flags(command: &Command, return_timeouts: bool) -> u8
    ensures { result ≡ flags return_timeouts command.now }
{
    let timeouts = if return_timeouts {
        TIMEOUTS_FOLLOW
    } else {
        0x00
    };
    let action = if command.has_service_action() {
        SERVICE_ACTION_VALID
    } else {
        0x00
    };
    timeouts | action
}

/// Adds the command timeouts descriptor, where it is asked for.
fn write_timeouts(
    out: &mut Vec<u8>,
    command: &Command,
    return_timeouts: bool,
) -> Result<(), AllocError>
    ensures { OnOk result (out.new.items ≡ out.old.items ++ timeouts return_timeouts command.now) }
{
    if return_timeouts {
        out.extend_from_slice(&timeouts_descriptor(command))?;
    }
    Ok(())
}

/// The command timeouts descriptor (SPC-4, "Command timeouts descriptor").
fn timeouts_descriptor(command: &Command) -> [u8; TIMEOUTS_DESCRIPTOR_LENGTH]
    ensures { result ≡ timeouts_descriptor command.now }
{
    let [n3, n2, n1, n0] = NOMINAL_SECONDS.to_be_bytes();
    let [r3, r2, r1, r0] = command.recommended_seconds.to_be_bytes();
    [
        0x00,
        TIMEOUTS_DESCRIPTOR_REST,
        0x00,
        0x00,
        n3,
        n2,
        n1,
        n0,
        r3,
        r2,
        r1,
        r0,
    ]
}

/// The data of one command; none is one that isn't supported.
fn one_command(
    alloc: Global,
    return_timeouts: bool,
    command: Option<&Command>,
) -> Result<Vec<u8>, AllocError>
    ensures bytes { IfOk result (λ bytes. bytes.items ≡ one_command return_timeouts (option_copied command.entry)) }
    ensures short { IfOk result (λ bytes. length bytes.items ≤ 1024) }
{
    match command {
        None => Vec::from_slice(alloc, &[0x00, NOT_SUPPORTED, 0x00, 0x00]),
        Some(command) => supported_command(alloc, return_timeouts, command),
    }
}

/// The data of one command that is supported.
fn supported_command(
    alloc: Global,
    return_timeouts: bool,
    command: &Command,
) -> Result<Vec<u8>, AllocError>
    ensures bytes { IfOk result (λ bytes. bytes.items ≡ one_command return_timeouts (Some command.now)) }
    ensures short { IfOk result (λ bytes. length bytes.items ≤ 1024) }
{
    let [length_high, length_low] = command.usage.length().to_be_bytes();
    let support = if return_timeouts {
        TIMEOUTS_FOLLOW_ONE | SUPPORTED
    } else {
        SUPPORTED
    };
    let mut data = Vec::from_slice(alloc, &[0x00, support, length_high, length_low])?;
    data.extend_from_slice(command.usage.bytes())?;
    write_timeouts(&mut data, command, return_timeouts)?;
    Ok(data)
}
