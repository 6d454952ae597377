//! The data of LOG SENSE, and what commands and task management functions a unit has, in words (SPC-4, "LOG SENSE command",
//! "REPORT SUPPORTED OPERATION CODES command", "REPORT SUPPORTED TASK MANAGEMENT FUNCTIONS command").
ghost use Rattle.std.specs.Prelude.{◌≡◌, ◌++◌, ◌<◌, OnOk};
ghost use Rattle.explanations.specs.CommandList.{commands_in, commands_text};
ghost use Rattle.explanations.specs.Commands.{action_text, command_text, ending_text, function_text, log_code_text, log_subpage_text, log_text, one_command_text, other_functions_text, support_text, task_management_text, usage_text};

use crate::fields::{bit_at, byte_at, part, u16_at, u32_at};
use crate::hex_text::write_hex;
use crate::layout::*;
use crate::pieces::{Piece, write_pieces};
use crate::units::write_page_length;
use crate::words::{write_code, write_coded, write_cut, write_words};
use std::alloc::AllocError;

/// Adds what a log page is: its code, its subpage, where it is one, and its length.
pub fn write_log(line: &mut Vec<u8>, bytes: &[u8]) -> Result<(), AllocError>
    ensures { OnOk result (line.new.items ≡ line.old.items ++ log_text bytes.now) }
{
    write_log_code(line, bytes)?;
    write_log_subpage(line, bytes)?;
    write_page_length(line, bytes)
}

#[tactic(auto, unfolding(crate::specs::Commands::log_code_text))]
fn write_log_code(line: &mut Vec<u8>, bytes: &[u8]) -> Result<(), AllocError>
    ensures { OnOk result (line.new.items ≡ line.old.items ++ log_code_text bytes.now) }
{
    if PAGE_CODE < bytes.len() {
        write_coded(line, ", log page ", bytes[0] & LOG_PAGE_BITS)?;
    }
    Ok(())
}

#[tactic(auto, unfolding(crate::specs::Commands::log_subpage_text))]
fn write_log_subpage(line: &mut Vec<u8>, bytes: &[u8]) -> Result<(), AllocError>
    ensures { OnOk result (line.new.items ≡ line.old.items ++ log_subpage_text bytes.now) }
{
    if bit_at(bytes, 0, SUBPAGE_FORMAT_BIT) {
        write_coded(line, " subpage ", byte_at(bytes, 1))?;
    }
    Ok(())
}

/// Adds the commands of a list, whose descriptors have timeouts or not.
#[tactic(auto, unfolding(crate::specs::CommandList::commands_text))]
pub fn write_commands(line: &mut Vec<u8>, timeouts: bool, bytes: &[u8]) -> Result<(), AllocError>
    ensures { OnOk result (line.new.items ≡ line.old.items ++ commands_text timeouts bytes.now) }
{
    if bytes.len() < COMMAND_DATA_HEADER {
        return write_words(line, ", cut");
    }
    let told = u32_at(bytes, COMMAND_DATA_LENGTH);
    write_commands_in(line, timeouts, told, bytes)?;
    write_cut(line, bytes, COMMAND_DATA_HEADER as u64 + u64::from(told))
}

fn write_commands_in(
    line: &mut Vec<u8>,
    timeouts: bool,
    told: u32,
    bytes: &[u8],
) -> Result<(), AllocError>
    ensures { OnOk result (line.new.items ≡ line.old.items ++ commands_in timeouts told bytes.now) }
{
    if told == 0 {
        return write_words(line, ", no commands");
    }
    write_words(line, ", commands")?;
    let size = if timeouts {
        TIMED_COMMAND_LENGTH
    } else {
        COMMAND_LENGTH
    };
    let list = part(bytes, COMMAND_DATA_HEADER, told as usize);
    write_pieces(line, Piece::Command, size, list)
}

/// Adds a command of a list: its operation code, and its service action where it has one.
#[tactic(auto, unfolding(crate::specs::Commands::command_text))]
pub fn write_command(line: &mut Vec<u8>, descriptor: &[u8]) -> Result<(), AllocError>
    ensures { OnOk result (line.new.items ≡ line.old.items ++ command_text descriptor.now) }
{
    write_words(line, " ")?;
    write_code(line, byte_at(descriptor, 0))?;
    write_action(line, descriptor)
}

#[tactic(auto, unfolding(crate::specs::Commands::action_text))]
fn write_action(line: &mut Vec<u8>, descriptor: &[u8]) -> Result<(), AllocError>
    ensures { OnOk result (line.new.items ≡ line.old.items ++ action_text descriptor.now) }
{
    if !bit_at(descriptor, COMMAND_FLAGS, SERVICE_ACTION_VALID_BIT) {
        return Ok(());
    }
    write_words(line, "/")?;
    write_hex(
        line,
        part(descriptor, SERVICE_ACTION, SERVICE_ACTION_LENGTH),
    )
}

/// Adds whether one command is supported, and its usage data.
#[tactic(auto, unfolding(crate::specs::Commands::one_command_text))]
pub fn write_one_command(line: &mut Vec<u8>, bytes: &[u8]) -> Result<(), AllocError>
    ensures { OnOk result (line.new.items ≡ line.old.items ++ one_command_text bytes.now) }
{
    if bytes.len() < USAGE {
        return write_words(line, ", cut");
    }
    let size = u16_at(bytes, USAGE_LENGTH);
    write_support(line, bytes[SUPPORT] & SUPPORT_BITS)?;
    write_usage(line, size, bytes)?;
    let timeouts = if bit_at(bytes, SUPPORT, TIMEOUTS_BIT) {
        TIMEOUTS_LENGTH
    } else {
        0
    };
    write_cut(line, bytes, USAGE as u64 + u64::from(size) + timeouts)
}

#[tactic(auto, unfolding(crate::specs::Commands::support_text))]
fn write_support(line: &mut Vec<u8>, support: u8) -> Result<(), AllocError>
    ensures { OnOk result (line.new.items ≡ line.old.items ++ support_text support) }
{
    match support {
        NOT_A_COMMAND => write_words(line, ", not supported"),
        AS_THE_STANDARD => write_words(line, ", supported"),
        _ => write_coded(line, ", support ", support),
    }
}

fn write_usage(line: &mut Vec<u8>, size: u16, bytes: &[u8]) -> Result<(), AllocError>
    ensures { OnOk result (line.new.items ≡ line.old.items ++ usage_text size bytes.now) }
{
    if size == 0 {
        return Ok(());
    }
    write_words(line, ", usage ")?;
    write_hex(line, part(bytes, USAGE, usize::from(size)))
}

/// A task management function (SAM-5, "Task management functions").
#[derive(Clone, Copy)]
enum TaskFunction {
    AbortTask,
    AbortTaskSet,
    ClearAca,
    ClearTaskSet,
    LogicalUnitReset,
    QueryTask,
    TargetReset,
}

impl TaskFunction {
    ghost use Rattle.std.specs.Prelude.{◌≡◌, ◌<◌};
    ghost use Rattle.explanations.specs.Commands.{function_bit, function_words};

    /// The number of its bit.
    fn bit(self) -> u8
        ensures bit { result ≡ function_bit self }
        ensures fits { result < 8 }
    {
        match self {
            TaskFunction::AbortTask => 7,
            TaskFunction::AbortTaskSet => 6,
            TaskFunction::ClearAca => 5,
            TaskFunction::ClearTaskSet => 4,
            TaskFunction::LogicalUnitReset => 3,
            TaskFunction::QueryTask => 2,
            TaskFunction::TargetReset => 1,
        }
    }

    fn words(self) -> &'static str
        ensures { result.now ≡ function_words self }
    {
        match self {
            TaskFunction::AbortTask => ", abort task",
            TaskFunction::AbortTaskSet => ", abort task set",
            TaskFunction::ClearAca => ", clear ACA",
            TaskFunction::ClearTaskSet => ", clear task set",
            TaskFunction::LogicalUnitReset => ", logical unit reset",
            TaskFunction::QueryTask => ", query task",
            TaskFunction::TargetReset => ", target reset",
        }
    }
}

/// Adds the task management functions of a unit.
pub fn write_task_management(line: &mut Vec<u8>, bytes: &[u8]) -> Result<(), AllocError>
    ensures { OnOk result (line.new.items ≡ line.old.items ++ task_management_text bytes.now) }
{
    write_ending_functions(line, bytes)?;
    write_other_functions(line, bytes)?;
    let follow = byte_at(bytes, ADDITIONAL_FUNCTIONS_LENGTH);
    write_cut(line, bytes, FUNCTIONS_LENGTH as u64 + u64::from(follow))
}

/// Adds the functions that end tasks.
fn write_ending_functions(line: &mut Vec<u8>, bytes: &[u8]) -> Result<(), AllocError>
    ensures { OnOk result (line.new.items ≡ line.old.items ++ ending_text bytes.now) }
{
    write_function(line, TaskFunction::AbortTask, bytes)?;
    write_function(line, TaskFunction::AbortTaskSet, bytes)?;
    write_function(line, TaskFunction::ClearAca, bytes)?;
    write_function(line, TaskFunction::ClearTaskSet, bytes)
}

fn write_other_functions(line: &mut Vec<u8>, bytes: &[u8]) -> Result<(), AllocError>
    ensures { OnOk result (line.new.items ≡ line.old.items ++ other_functions_text bytes.now) }
{
    write_function(line, TaskFunction::LogicalUnitReset, bytes)?;
    write_function(line, TaskFunction::QueryTask, bytes)?;
    write_function(line, TaskFunction::TargetReset, bytes)
}

#[tactic(auto, unfolding(crate::specs::Commands::function_text))]
fn write_function(
    line: &mut Vec<u8>,
    function: TaskFunction,
    bytes: &[u8],
) -> Result<(), AllocError>
    ensures { OnOk result (line.new.items ≡ line.old.items ++ function_text function bytes.now) }
{
    if bit_at(bytes, FUNCTIONS, function.bit()) {
        write_words(line, function.words())?;
    }
    Ok(())
}
