ghost use Rattle.std.specs.Prelude.{◌≡◌, ◌≤◌, ◌+◌, ◌++◌, vec_len, OnOk};
ghost use Rattle.log_pages.specs.Parameters.{parameter_from, parameter_bytes, number, counter};

use crate::layout::*;
use std::alloc::AllocError;

/// A log parameter (SPC-4, "Log parameters").
#[derive(Clone, Copy)]
pub(crate) struct LogParameter {
    pub(crate) code: u16,
    pub(crate) value: ParameterValue,
}

/// The value of a log parameter: a number in so many bytes, the highest first.
#[derive(Clone, Copy)]
pub(crate) enum ParameterValue {
    OneByte(u8),
    FourBytes(u32),
    EightBytes(u64),
}

impl LogParameter {
    /// A number of four bytes.
    pub(crate) fn number(code: u16, value: u32) -> LogParameter
        ensures { result ≡ number code value }
    {
        LogParameter {
            code,
            value: ParameterValue::FourBytes(value),
        }
    }

    /// A number of eight bytes.
    pub(crate) fn counter(code: u16, value: u64) -> LogParameter
        ensures { result ≡ counter code value }
    {
        LogParameter {
            code,
            value: ParameterValue::EightBytes(value),
        }
    }
}

/// Adds a parameter, unless its code is below the parameter pointer.
pub(crate) fn write_parameter_from(
    out: &mut Vec<u8>,
    pointer: u16,
    parameter: &LogParameter,
) -> Result<(), AllocError>
    ensures bytes { OnOk result (out.new.items ≡ out.old.items ++ parameter_from pointer parameter.now) }
    ensures short { OnOk result (vec_len out.new ≤ vec_len out.old + LONGEST_PARAMETER) }
{
    if parameter.code < pointer {
        return Ok(());
    }
    write_parameter(out, parameter)
}

/// Adds a parameter: its code, its control byte, its length and its value.
fn write_parameter(out: &mut Vec<u8>, parameter: &LogParameter) -> Result<(), AllocError>
    ensures bytes { OnOk result (out.new.items ≡ out.old.items ++ parameter_bytes parameter.now) }
    ensures short { OnOk result (vec_len out.new ≤ vec_len out.old + LONGEST_PARAMETER) }
{
    let [c1, c0] = parameter.code.to_be_bytes();
    match parameter.value {
        ParameterValue::OneByte(value) => {
            out.extend_from_slice(&[c1, c0, BINARY_FORMAT_LIST, ONE_BYTE, value])
        }
        ParameterValue::FourBytes(value) => {
            let [v3, v2, v1, v0] = value.to_be_bytes();
            out.extend_from_slice(&[c1, c0, BINARY_FORMAT_LIST, FOUR_BYTES, v3, v2, v1, v0])
        }
        ParameterValue::EightBytes(value) => write_counter(out, parameter.code, value),
    }
}

fn write_counter(out: &mut Vec<u8>, code: u16, value: u64) -> Result<(), AllocError>
    ensures bytes { OnOk result (out.new.items ≡ out.old.items ++ parameter_bytes (counter code value)) }
    ensures short { OnOk result (vec_len out.new ≤ vec_len out.old + LONGEST_PARAMETER) }
{
    let [c1, c0] = code.to_be_bytes();
    out.extend_from_slice(&[c1, c0, BINARY_FORMAT_LIST, EIGHT_BYTES])?;
    out.extend_from_slice(&value.to_be_bytes())
}
