//! A line of a trace, by itself.
ghost use Rattle.std.specs.Prelude.{◌≡◌, ◌<◌, ◌↔◌, ◌⊎◌, ◌∷◌, ℕ, List, IsTrue, IfOk, IfErr, IfSome};
ghost use Rattle.text_lines.specs.Field.{SpellsBytes};
ghost use Rattle.text_lines.specs.Inside.LineFault.{IsLineFault};
ghost use Rattle.text_lines.specs.Lines.{words_of};
ghost use Rattle.texts.specs.Trace.Line.{number_in, check_word, a_number, a_check};
ghost use Rattle.texts.specs.Trace.Line.{flow_line, sid_line, grant_line, burst_line, gap_line};
ghost use Rattle.texts.specs.Trace.Line.{word_of, IsField, IsBadField};
ghost use Rattle.texts.specs.Trace.Line.{TraceShape, shape_of, Carries};
ghost use Rattle.texts.specs.Trace.Line.{channel_number, flow_number};
ghost use Rattle.texts.specs.Inside.TraceLine.{IsLeastFaultByItself};
ghost use Rattle.texts.specs.declared.trace.trace_line.TraceLine.TheVariants as line;

use docsis_wire::{Bytes, SEQUENCE_MODULUS};
use flow_core::{CLUSTERS_MAX, FlowRecord, WINDOW_MAX};
use lane::{Input, SIDS, SidRow};
use receiver::{Decision, Width};
use std::alloc::Global;
use text_lines::{
    LineFault, TraceKind, likely_field, only_four_words, only_three_words, only_two_words,
    only_word, read_number_in, read_only_hex, three_words,
};

/// The greatest service identifier.
const SID_MAX: u32 = SIDS as u32 - 1;
/// The greatest sequence number.
const SEQUENCE_MAX: u32 = SEQUENCE_MODULUS as u32 - 1;

/// What a line of a trace says.
#[derive(Debug, Drop)]
pub enum TraceLine {
    /// The record of a flow.
    Flow(FlowRecord),
    /// A service identifier of a channel.
    Sid(SidRow),
    /// What came in on a channel.
    Input { channel: u8, input: Input },
    /// A decision that segments are lost.
    Gap(Decision),
}

/// What a line says of a burst if the field of its bytes is hexadecimal, which wasn't looked at
/// yet.
#[derive(Debug, Clone, Copy)]
pub struct PeekedBurst<'a> {
    /// Its channel, below how many the receiver has.
    pub channel: u8,
    /// The number of its grant.
    pub grant: u32,
    /// Whether the check of its segment header is right.
    pub hcs_ok: bool,
    /// What spells its bytes.
    pub field: &'a [u8],
}

/// Whether a line that begins with this word sets up a flow or a service identifier.
pub fn is_setup_word(word: &[u8]) -> bool
    ensures { IsTrue result
        ↔ ((word.now ≡ word_of flow_line) ⊎ (word.now ≡ word_of sid_line)) }
{
    word == b"flow".as_slice() || word == b"sid".as_slice()
}

/// What a line of a trace for a receiver of this width says by itself, by its first field and what
/// follows that. Each flow has a ring of this capacity.
#[inline(always)]
pub fn read_trace_line(
    alloc: Global,
    width: Width,
    ring: u16,
    field: &[u8],
    rest: &[u8],
) -> Result<TraceLine, LineFault>
    ensures carried { IfOk result (Carries (shape_of width ring) (field.now ∷ words_of rest.now)) }
    ensures fault { IfErr result (IsLineFault
        (IsLeastFaultByItself (shape_of width ring) (field.now ∷ words_of rest.now))) }
{
    if field == b"burst".as_slice() {
        read_burst(alloc, width, rest)
    } else if field == b"grant".as_slice() {
        read_grant(width, rest)
    } else if field == b"gap".as_slice() {
        read_gap(width, rest)
    } else if field == b"flow".as_slice() {
        read_flow(ring, rest)
    } else if field == b"sid".as_slice() {
        read_sid(width, rest)
    } else {
        Err(LineFault::Kind(TraceKind::UnknownLine))
    }
}

/// The number of a field, from `least` to `most`.
fn number_between(field: &[u8], least: u32, most: u32) -> Result<u32, LineFault>
    ensures number { IfOk result
        (λ number. IsField (number_in least most) field.now (a_number number)) }
    ensures kind { IfErr result (λ fault. fault ≡ LineFault.Kind TraceKind.BadNumber) }
    ensures bad { IfErr result (λ _. IsBadField (number_in least most) field.now) }
{
    read_number_in(field, least, most).ok_or(LineFault::Kind(TraceKind::BadNumber))
}

/// The number of a field, at most so much.
fn number_of(field: &[u8], most: u32) -> Result<u32, LineFault>
    ensures number { IfOk result
        (λ number. IsField (number_in 0 most) field.now (a_number number)) }
    ensures kind { IfErr result (λ fault. fault ≡ LineFault.Kind TraceKind.BadNumber) }
    ensures bad { IfErr result (λ _. IsBadField (number_in 0 most) field.now) }
{
    number_between(field, 0, most)
}

/// The number of a channel, which is below how many there are.
fn channel_of(width: Width, field: &[u8]) -> Result<u8, LineFault>
    ensures number { (ring : ℕ) → IfOk result (λ channel.
        IsField (channel_number (shape_of width ring)) field.now (a_number channel)) }
    ensures kind { IfErr result (λ fault. fault ≡ LineFault.Kind TraceKind.BadNumber) }
    ensures bad { (ring : ℕ) → IfErr result (λ _.
        IsBadField (channel_number (shape_of width ring)) field.now) }
{
    Ok(number_of(field, u32::from(width.channels()) - 1)? as u8)
}

/// The index of a flow, which is below how many there may be.
fn flow_of(width: Width, field: &[u8]) -> Result<usize, LineFault>
    ensures number { (ring : ℕ) → IfOk result (λ flow.
        IsField (flow_number (shape_of width ring)) field.now (a_number flow)) }
    ensures kind { IfErr result (λ fault. fault ≡ LineFault.Kind TraceKind.BadNumber) }
    ensures bad { (ring : ℕ) → IfErr result (λ _.
        IsBadField (flow_number (shape_of width ring)) field.now) }
{
    Ok(number_of(field, u32::from(width.flows()) - 1)? as usize)
}

/// Whether a burst's check is right, by the word for it.
#[inline(always)]
fn read_check(word: &[u8]) -> Result<bool, LineFault>
    ensures check { IfOk result (λ right. IsField check_word word.now (a_check right)) }
    ensures kind { IfErr result (λ fault. fault ≡ LineFault.Kind TraceKind.BadWord) }
    ensures bad { IfErr result (λ _. IsBadField check_word word.now) }
{
    if word == b"ok".as_slice() {
        Ok(true)
    } else if word == b"bad".as_slice() {
        Ok(false)
    } else {
        Err(LineFault::Kind(TraceKind::BadWord))
    }
}

/// `flow <sfid> <first> <window> <clusters>`, by what follows the first word.
fn read_flow(ring: u16, rest: &[u8]) -> Result<TraceLine, LineFault>
    ensures carried { (width : Width)
        → IfOk result (Carries (shape_of width ring) (word_of flow_line ∷ words_of rest.now)) }
    ensures fault { (shape : TraceShape) → IfErr result
        (IsLineFault (IsLeastFaultByItself shape (word_of flow_line ∷ words_of rest.now))) }
{
    let Some((sfid, first, window, clusters)) = only_four_words(rest) else {
        return Err(LineFault::Kind(TraceKind::FieldCount));
    };
    let sfid = number_of(sfid, u32::MAX)?;
    let first = number_of(first, SEQUENCE_MAX)? as u16;
    let window = number_between(window, 1, WINDOW_MAX as u32)? as u16;
    let clusters = number_between(clusters, 1, CLUSTERS_MAX as u32)? as u8;
    Ok(TraceLine::Flow(FlowRecord {
        sfid,
        first,
        window,
        clusters,
        ring,
    }))
}

/// `sid <channel> <sid> <flow>`, by what follows the first word.
fn read_sid(width: Width, rest: &[u8]) -> Result<TraceLine, LineFault>
    ensures carried { (ring : ℕ)
        → IfOk result (Carries (shape_of width ring) (word_of sid_line ∷ words_of rest.now)) }
    ensures fault { (ring : ℕ) → IfErr result (IsLineFault
        (IsLeastFaultByItself (shape_of width ring) (word_of sid_line ∷ words_of rest.now))) }
{
    let Some((channel, sid, flow)) = only_three_words(rest) else {
        return Err(LineFault::Kind(TraceKind::FieldCount));
    };
    let channel = channel_of(width, channel)?;
    let sid = number_of(sid, SID_MAX)? as u16;
    let flow = flow_of(width, flow)?;
    Ok(TraceLine::Sid(SidRow { channel, sid, flow }))
}

/// `grant <channel> <number> <sid> <bytes>`, by what follows the first word.
#[inline(always)]
fn read_grant(width: Width, rest: &[u8]) -> Result<TraceLine, LineFault>
    ensures carried { (ring : ℕ)
        → IfOk result (Carries (shape_of width ring) (word_of grant_line ∷ words_of rest.now)) }
    ensures fault { (ring : ℕ) → IfErr result (IsLineFault
        (IsLeastFaultByItself (shape_of width ring) (word_of grant_line ∷ words_of rest.now))) }
{
    let Some((channel, number, sid, bytes)) = only_four_words(rest) else {
        return Err(LineFault::Kind(TraceKind::FieldCount));
    };
    let channel = channel_of(width, channel)?;
    let number = number_of(number, u32::MAX)?;
    let sid = number_of(sid, SID_MAX)? as u16;
    let bytes = number_of(bytes, u32::MAX)?;
    let input = Input::Grant { number, sid, bytes };
    Ok(TraceLine::Input { channel, input })
}

/// `burst <channel> <number> ok|bad <hex>`, by what follows the first word.
#[inline(always)]
fn read_burst(alloc: Global, width: Width, rest: &[u8]) -> Result<TraceLine, LineFault>
    ensures carried { (ring : ℕ)
        → IfOk result (Carries (shape_of width ring) (word_of burst_line ∷ words_of rest.now)) }
    ensures fault { (ring : ℕ) → IfErr result (IsLineFault
        (IsLeastFaultByItself (shape_of width ring) (word_of burst_line ∷ words_of rest.now))) }
{
    let Some((channel, number, check, behind)) = three_words(rest) else {
        return Err(LineFault::Kind(TraceKind::FieldCount));
    };
    let spelled = read_only_hex(alloc, behind)?;
    let channel = channel_of(width, channel)?;
    let grant = number_of(number, u32::MAX)?;
    let hcs_ok = read_check(check)?;
    let bytes = spelled.ok_or(LineFault::Kind(TraceKind::NotHex))?;
    let input = Input::Burst {
        grant,
        hcs_ok,
        bytes: Bytes::from(bytes),
    };
    Ok(TraceLine::Input { channel, input })
}

/// What `burst <channel> <number> ok|bad <hex>` says, by what follows the first word, if the last
/// one is hexadecimal, at which it doesn't look. None where another word is faulty, or where there
/// are fewer words; where there are more, it is none, or its last field isn't hexadecimal.
pub fn peek_burst(width: Width, rest: &[u8]) -> Option<PeekedBurst<'_>>
    ensures channel { IfSome result (λ burst. burst.channel < width.channels) }
    ensures carried { (ring : ℕ) → IfSome result (λ burst. (bytes : List ℕ)
        → SpellsBytes burst.field.now bytes
        → Carries (shape_of width ring) (word_of burst_line ∷ words_of rest.now)
        (line.Input burst.channel (Input.Burst burst.grant burst.hcs_ok bytes))) }
{
    let (channel, number, check, behind) = three_words(rest)?;
    let Ok(channel) = channel_of(width, channel) else {
        return None;
    };
    let Ok(grant) = number_of(number, u32::MAX) else {
        return None;
    };
    let Ok(hcs_ok) = read_check(check) else {
        return None;
    };
    let field = likely_field(behind)?;
    Some(PeekedBurst {
        channel,
        grant,
        hcs_ok,
        field,
    })
}

/// `gap <flow>` or `gap <flow> <number>`, by what follows the first word.
fn read_gap(width: Width, rest: &[u8]) -> Result<TraceLine, LineFault>
    ensures carried { (ring : ℕ)
        → IfOk result (Carries (shape_of width ring) (word_of gap_line ∷ words_of rest.now)) }
    ensures fault { (ring : ℕ) → IfErr result (IsLineFault
        (IsLeastFaultByItself (shape_of width ring) (word_of gap_line ∷ words_of rest.now))) }
{
    if let Some(flow) = only_word(rest) {
        let flow = flow_of(width, flow)?;
        return Ok(TraceLine::Gap(Decision { flow, upto: None }));
    }
    let Some((index, number)) = only_two_words(rest) else {
        return Err(LineFault::Kind(TraceKind::FieldCount));
    };
    let index = flow_of(width, index)?;
    let number = number_of(number, SEQUENCE_MAX)? as u16;
    Ok(TraceLine::Gap(Decision {
        flow: index,
        upto: Some(number),
    }))
}
