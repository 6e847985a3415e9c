//! Quoted-printable, the transfer encoding of RFC 2045 section 6.7.
#![tactic(auto)]

ghost use Rattle.std.specs.Prelude.{◌≡◌, ◌≤◌, Ok, Err, IfOk, IsOkUnless, string_bytes};
ghost use Rattle.qp.specs.Items.{items};
ghost use Rattle.qp.specs.Layout.{laid_out};
ghost use Rattle.qp.specs.Robust.{robust};
ghost use Rattle.qp.specs.Settings.{line_limit, input_mode, parse_mode};
ghost use Rattle.qp.specs.Strict.{strict, decoded};
ghost use Rattle.qp.specs.declared.QuotedPrintableError.{QuotedPrintableError};

use std::alloc::{AllocError, Global};
use std::fmt;

mod blocks;
mod encoder;
mod lanes;
pub mod laws;
mod robust;
mod spread;
mod strict;

/// How strictly a decoder reads its input.
#[derive(Clone, Debug, PartialEq, Eq, PartialOrd, Ord, Hash, Drop)]
pub enum ParseMode {
    /// The first fault of the input is an error.
    Strict,
    /// Nothing is an error: what can't be read stands as it is, and bytes that may not stand in
    /// quoted-printable text are dropped.
    Robust,
}

/// What an encoder takes its input for.
#[derive(Clone, Debug, PartialEq, Eq, PartialOrd, Ord, Hash, Drop)]
pub enum InputMode {
    /// Text: a CR LF pair is a line break, and stays one.
    Text,
    /// Anything: a CR LF pair is two bytes like others.
    Binary,
}

/// How to encode and decode. The default is a line limit of 76 bytes, text, and robust decoding.
#[derive(Clone, Debug, PartialEq, Eq, Hash, Drop)]
pub struct Options {
    line_length_limit: usize,
    input_mode: InputMode,
    parse_mode: ParseMode,
}

impl Options {
    ghost use Rattle.std.specs.Prelude.{◌≡◌};
    ghost use Rattle.qp.specs.Settings.{line_limit, input_mode, parse_mode};

    /// These options with a line limit in bytes. An encoder breaks lines at it, and a strict
    /// decoder refuses longer ones; neither counts the CR LF.
    pub fn line_length_limit(mut self, limit: usize) -> Options
        ensures line_limit { line_limit result ≡ limit }
        ensures input_mode { input_mode result ≡ input_mode self }
        ensures parse_mode { parse_mode result ≡ parse_mode self }
    {
        self.line_length_limit = limit;
        self
    }

    /// These options with another input mode.
    pub fn input_mode(mut self, mode: InputMode) -> Options
        ensures line_limit { line_limit result ≡ line_limit self }
        ensures input_mode { input_mode result ≡ mode }
        ensures parse_mode { parse_mode result ≡ parse_mode self }
    {
        self.input_mode = mode;
        self
    }

    /// These options with another parse mode.
    pub fn parse_mode(mut self, mode: ParseMode) -> Options
        ensures line_limit { line_limit result ≡ line_limit self }
        ensures input_mode { input_mode result ≡ input_mode self }
        ensures parse_mode { parse_mode result ≡ mode }
    {
        self.parse_mode = mode;
        self
    }
}

impl Default for Options {
    ghost use Rattle.std.specs.Prelude.{◌≡◌};
    ghost use Rattle.qp.specs.Settings.{line_limit, input_mode, parse_mode};
    ghost use Rattle.qp.specs.declared.InputMode.TheVariants.{Text};
    ghost use Rattle.qp.specs.declared.ParseMode.TheVariants.{Robust};

    ghost is_default = { λ o.
        (line_limit o ≡ 76) × (input_mode o ≡ Text) × (parse_mode o ≡ Robust) };

    fn default() -> Options {
        Options {
            line_length_limit: 76,
            input_mode: InputMode::Text,
            parse_mode: ParseMode::Robust,
        }
    }
}

/// A fault of quoted-printable input, which strict decoding refuses.
#[derive(Clone, Debug, PartialEq, Eq, PartialOrd, Ord, Hash, Drop)]
pub enum QuotedPrintableError {
    /// A byte outside tab, CR, LF and 20 to 7E, a CR without LF after it, or an LF without CR
    /// before it.
    InvalidByte,
    /// A line of more bytes than the limit, without its CR LF.
    LineTooLong,
    /// A `=` with one byte after it on its line, or a soft line break with no line after it.
    IncompleteHexOctet,
    /// A `=` with two bytes after it that aren't both hexadecimal digits.
    InvalidHexOctet,
    /// A `=` with two hexadecimal digits after it, one of them a to f.
    LowercaseHexOctet,
}

impl fmt::Display for QuotedPrintableError {
    ghost use Rattle.std.specs.Prelude.{Some};
    ghost use Rattle.qp.specs.Message.{message};

    ghost output = { λ e. Some (message e) };

    fn fmt<W: fmt::Write>(&self, f: &mut fmt::Formatter<W>) -> fmt::Result {
        match self {
            QuotedPrintableError::InvalidByte => {
                write!(
                    f,
                    "A unallowed byte was found in the quoted-printable input"
                )
            }
            QuotedPrintableError::LineTooLong => {
                write!(
                    f,
                    "A line length in the quoted-printed input exceeded 76 bytes"
                )
            }
            QuotedPrintableError::IncompleteHexOctet => {
                write!(
                    f,
                    "A '=' followed by only one character was found in the input"
                )
            }
            QuotedPrintableError::InvalidHexOctet => {
                write!(
                    f,
                    "A '=' followed by non-hex characters was found in the input"
                )
            }
            QuotedPrintableError::LowercaseHexOctet => {
                write!(f, "A '=' was followed by lowercase hex characters")
            }
        }
    }
}

/// Why decoding failed.
#[derive(Debug, PartialEq, Drop)]
pub enum QpError {
    /// There was no memory.
    Memory,
    /// The input has this fault.
    Quoted(QuotedPrintableError),
}

impl fmt::Display for QpError {
    ghost use Rattle.std.specs.Prelude.{Some};
    ghost use Rattle.qp.specs.Message.{decode_message};

    ghost output = { λ e. Some (decode_message e) };

    fn fmt<W: fmt::Write>(&self, f: &mut fmt::Formatter<W>) -> fmt::Result {
        match self {
            QpError::Memory => write!(f, "no memory"),
            QpError::Quoted(fault) => write!(f, "{fault}"),
        }
    }
}

impl From<AllocError> for QpError {
    ghost use Rattle.std.specs.Prelude.{◌≡◌};
    ghost use Rattle.qp.specs.declared.QpError.TheVariants.{Memory};

    ghost from_gives = { λ _ e. e ≡ Memory };

    fn from(_error: AllocError) -> QpError {
        QpError::Memory
    }
}

/// The bytes that quoted-printable `input` stands for (RFC 2045 section 6.7), by the default
/// options with this parse mode. In strict mode the input's first fault is an error.
pub fn decode(alloc: Global, input: &[u8], mode: ParseMode) -> Result<Vec<u8>, QpError>
    ensures value { IfOk result (λ bytes. bytes.items ≡ robust input.now) }
    ensures decoded { IfOk result (λ bytes. decoded mode 76 input.now ≡ Ok bytes.items) }
    ensures quoted { (fault : QuotedPrintableError) → result ≡ Err (QpError.Quoted fault) →
        decoded mode 76 input.now ≡ Err fault }
    ensures memory_alone { mode ≡ ParseMode.Robust → IsOkUnless result QpError.Memory }
{
    decode_with_options(alloc, input, Options::default().parse_mode(mode))
}

/// The bytes that quoted-printable `input` stands for (RFC 2045 section 6.7), by these options. In
/// strict mode the input's first fault is an error: a byte that may not stand there, anywhere;
/// then, line by line, a line longer than the limit or an escape that is cut, has no digits or has
/// lowercase ones; then a soft line break at the end, behind a line that ends in a hard one.
pub fn decode_with_options(
    alloc: Global,
    input: &[u8],
    options: Options,
) -> Result<Vec<u8>, QpError>
    ensures value { IfOk result (λ bytes. bytes.items ≡ robust input.now) }
    ensures decoded { IfOk result (λ bytes.
        decoded (parse_mode options) (line_limit options) input.now ≡ Ok bytes.items) }
    ensures quoted { (fault : QuotedPrintableError) → result ≡ Err (QpError.Quoted fault) →
        decoded (parse_mode options) (line_limit options) input.now ≡ Err fault }
    ensures memory_alone { parse_mode options ≡ ParseMode.Robust →
        IsOkUnless result QpError.Memory }
{
    match options.parse_mode {
        ParseMode::Robust => {
            let bytes = robust::decode(alloc, input)?;
            Ok(bytes)
        }
        ParseMode::Strict => decode_strictly(alloc, input, options.line_length_limit),
    }
}

// The bytes that `input` stands for, where it has no fault.
fn decode_strictly(alloc: Global, input: &[u8], limit: usize) -> Result<Vec<u8>, QpError>
    ensures value { IfOk result (λ bytes. bytes.items ≡ robust input.now) }
    ensures strict { IfOk result (λ bytes. strict limit input.now ≡ Ok bytes.items) }
    ensures quoted { (fault : QuotedPrintableError) → result ≡ Err (QpError.Quoted fault) →
        strict limit input.now ≡ Err fault }
{
    match strict::find_fault(input, limit) {
        Some(fault) => Err(QpError::Quoted(fault)),
        None => {
            let bytes = robust::decode(alloc, input)?;
            Ok(bytes)
        }
    }
}

/// Quoted-printable text of `input` as text (RFC 2045 section 6.7), in lines of at most 76 bytes: a
/// CR LF pair is a line break.
pub fn encode(alloc: Global, input: &[u8]) -> Result<Vec<u8>, AllocError>
    ensures value { IfOk result (λ encoded.
        encoded.items ≡ laid_out 76 (items InputMode.Text input.now)) }
    ensures reads_back { IfOk result (λ encoded. strict 76 encoded.items ≡ Ok input.now) }
{
    let encoded = encoder::encode(alloc, input, 76, &InputMode::Text)?;
    Ok(encoded)
}

/// Quoted-printable text of any `input` (RFC 2045 section 6.7), in lines of at most 76 bytes: a CR
/// LF pair is two bytes like others.
pub fn encode_binary(alloc: Global, input: &[u8]) -> Result<Vec<u8>, AllocError>
    ensures value { IfOk result (λ encoded.
        encoded.items ≡ laid_out 76 (items InputMode.Binary input.now)) }
    ensures reads_back { IfOk result (λ encoded. strict 76 encoded.items ≡ Ok input.now) }
{
    let encoded = encoder::encode(alloc, input, 76, &InputMode::Binary)?;
    Ok(encoded)
}

/// What `encode` gives, as a `String`.
pub fn encode_to_str(alloc: Global, input: &[u8]) -> Result<String, AllocError>
    ensures value { IfOk result (λ encoded.
        string_bytes encoded ≡ laid_out 76 (items InputMode.Text input.now)) }
    ensures reads_back { IfOk result (λ encoded. strict 76 (string_bytes encoded) ≡ Ok input.now) }
{
    let encoded = encoder::encode(alloc, input, 76, &InputMode::Text)?;
    Ok(unsafe { String::from_utf8_unchecked(encoded) })
}

/// What `encode_binary` gives, as a `String`.
pub fn encode_binary_to_str(alloc: Global, input: &[u8]) -> Result<String, AllocError>
    ensures value { IfOk result (λ encoded.
        string_bytes encoded ≡ laid_out 76 (items InputMode.Binary input.now)) }
    ensures reads_back { IfOk result (λ encoded. strict 76 (string_bytes encoded) ≡ Ok input.now) }
{
    let encoded = encoder::encode(alloc, input, 76, &InputMode::Binary)?;
    Ok(unsafe { String::from_utf8_unchecked(encoded) })
}

/// Quoted-printable text of `input` (RFC 2045 section 6.7) by these options, whose line limit is at
/// least 6 bytes. Strict decoding with the same options gives the input back.
pub fn encode_with_options(
    alloc: Global,
    input: &[u8],
    options: Options,
) -> Result<String, AllocError>
    requires { 6 ≤ line_limit options }
    ensures value { IfOk result (λ encoded.
        string_bytes encoded
        ≡ laid_out (line_limit options) (items (input_mode options) input.now)) }
    ensures reads_back { IfOk result (λ encoded.
        strict (line_limit options) (string_bytes encoded) ≡ Ok input.now) }
{
    let encoded = encoder::encode(alloc, input, options.line_length_limit, &options.input_mode)?;
    Ok(unsafe { String::from_utf8_unchecked(encoded) })
}

#[cfg(test)]
mod tests;
