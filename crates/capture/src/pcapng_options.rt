//! The options of a block: a type of two bytes, a length of two bytes, a value of that length and
//! bytes after it up to a multiple of four.
ghost use Rattle.std.specs.Prelude.{◌≡◌, ◌++◌, ℕ, List, IfSome, IfNone};
ghost use Rattle.capture.specs.Seen.{value_seen};
ghost use Rattle.capture.specs.PcapngOptions.{OptionParts, option_bytes, IsOption, SpellsOptions};
ghost use Rattle.capture.specs.PcapngOptions.{SaysUnit, first_value};
ghost use Rattle.capture.specs.declared.pcapng.TimeUnit.{TimeUnit};
ghost use Rattle.capture.specs.Inside.BlockStages.{IsFrontOption, first_or};

use crate::endian::Endian;
use crate::pcapng::{TimeUnit, unit_said};

/// The type of the option after which none comes.
const END_OF_OPTIONS: u16 = 0;
/// The type of the option with an interface's time resolution.
const TIME_RESOLUTION: u16 = 9;

/// An option of a block.
#[derive(Clone, Copy, Debug, PartialEq, Eq)]
pub(crate) struct BlockOption<'a> {
    pub(crate) code: u16,
    pub(crate) value: &'a [u8],
}

/// The option at the front, and the bytes after it. `None` where it overruns the bytes.
fn split_option(endian: Endian, bytes: &[u8]) -> Option<(BlockOption<'_>, &[u8])>
    ensures found { IfSome result (λ split. IsFrontOption endian bytes.now split.0.code
        split.0.value.now split.1.now) }
    ensures none { IfNone result ((parts : OptionParts) (more : List ℕ) → IsOption parts
        → bytes.now ≡ option_bytes endian parts ++ more → ⊥) }
{
    if bytes.len() < 4 {
        return None;
    }
    let (code, rest) = endian.split_u16(bytes);
    let (length, rest) = endian.split_u16(rest);
    let (value, rest) = rest.split_at_checked(usize::from(length))?;
    let padding = (4 - value.len() % 4) % 4;
    let (_, rest) = rest.split_at_checked(padding)?;
    Some((BlockOption { code, value }, rest))
}

/// The first time resolution, with an option more.
fn first_or<'a>(first: Option<&'a [u8]>, option: BlockOption<'a>) -> Option<&'a [u8]>
    ensures { value_seen result ≡ first_or (value_seen first.entry) option.entry.code
        option.entry.value.now }
{
    match first {
        Some(_) => first,
        None if option.code == TIME_RESOLUTION => Some(option.value),
        None => None,
    }
}

/// The value of the first option with a time resolution. `None` where an option overruns the bytes.
fn resolution(endian: Endian, bytes: &[u8]) -> Option<Option<&[u8]>>
    ensures found { IfSome result (λ first. (options : List OptionParts)
        × SpellsOptions endian bytes.now options
        × (value_seen first ≡ first_value 9 options)) }
    ensures none { IfNone result ((options : List OptionParts)
        → SpellsOptions endian bytes.now options → ⊥) }
{
    let mut first = None;
    let mut rest = bytes;
    while !rest.is_empty() {
        let (option, after) = split_option(endian, rest)?;
        if option.code == END_OF_OPTIONS {
            return Some(first);
        }
        first = first_or(first, option);
        rest = after;
    }
    Some(first)
}

/// The unit of times that an interface's options say. `None` where an option overruns the bytes, or
/// the time resolution hasn't one byte.
pub(crate) fn time_unit(endian: Endian, bytes: &[u8]) -> Option<TimeUnit>
    ensures found { IfSome result (SaysUnit endian bytes.now) }
    ensures none { IfNone result ((unit : TimeUnit) → SaysUnit endian bytes.now unit → ⊥) }
{
    match resolution(endian, bytes)? {
        None => Some(TimeUnit::PowerOfTen(6)),
        Some([byte]) => Some(unit_said(*byte)),
        Some(_) => None,
    }
}
