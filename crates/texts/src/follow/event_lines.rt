//! The lines that say what became of inputs and of decisions.
ghost use Rattle.std.specs.Prelude.{◌≡◌};
ghost use Rattle.text_lines.specs.Putting.{Puts};
ghost use Rattle.texts.specs.Happening.{line_head, kind_word, verdict_word, refusal_words};
ghost use Rattle.texts.specs.Happening.{input_text, skip_lines, reason_text, verdict_text};
ghost use Rattle.texts.specs.Happening.{refused_line, admitted_lines, took_lines, decided_line};
ghost use Rattle.texts.specs.Happening.{decision_words, stands_line, event_lines};

use super::happening::{Happening, InputKind, InputName};
use crate::report_lines::put_named;
use lane::Refusal;
use receiver::{DecisionReply, Reply, SegmentVerdict, Told};
use text_lines::{PutText, put_spaced, put_word};

/// Puts the front of a line that is about the line of a trace with this number.
fn put_head<O: PutText>(out: &mut O, line: u64)
    ensures { Puts O.after out.old (line_head line) out.new }
{
    put_word(out, "line");
    put_spaced(out, line);
}

/// The word of a kind of input.
fn word_of_kind(kind: InputKind) -> &'static str
    ensures { result.now ≡ kind_word kind }
{
    match kind {
        InputKind::Grant => "grant",
        InputKind::Burst => "burst",
    }
}

/// The word of a verdict.
fn word_of_verdict(verdict: SegmentVerdict) -> &'static str
    ensures { result.now ≡ verdict_word verdict }
{
    match verdict {
        SegmentVerdict::Kept => "kept",
        SegmentVerdict::Late => "late",
        SegmentVerdict::Repeat => "repeat",
        SegmentVerdict::Beyond => "beyond",
    }
}

/// The words of a refusal.
fn words_of_refusal(refusal: Refusal) -> &'static str
    ensures { result.now ≡ refusal_words refusal }
{
    match refusal {
        Refusal::GrantRange => "grant out of range",
        Refusal::GrantKnown => "grant known",
        Refusal::UnknownSid => "unknown service identifier",
        Refusal::TooManyGrants => "too many grants",
        Refusal::GrantOutOfMemory => "out of memory for a grant",
        Refusal::NoGrant => "no grant",
        Refusal::TooLong => "too long",
        Refusal::BadCheck => "bad check",
        Refusal::TooShort => "too short",
        Refusal::PointerPast => "pointer past the end",
        Refusal::BurstOutOfMemory => "out of memory for a burst",
    }
}

/// The words of what became of a decision.
fn words_of_decision(reply: &DecisionReply) -> &'static str
    ensures { result.now ≡ decision_words reply.now }
{
    match *reply {
        DecisionReply::PassedOver => " gap passed over",
        DecisionReply::Taken { lost } => { if lost { " gap lost" } else { " gap lost none" } }
    }
}

/// Puts what names an input.
fn put_input<O: PutText>(out: &mut O, name: &InputName)
    ensures { Puts O.after out.old (input_text name.now) out.new }
{
    put_word(out, " ");
    put_word(out, word_of_kind(name.kind));
    put_spaced(out, u64::from(name.channel));
    put_spaced(out, u64::from(name.grant));
}

/// Puts the line of a skip, if there was one.
fn put_skip<O: PutText>(out: &mut O, line: u64, flow: usize, number: Option<u16>)
    ensures { Puts O.after out.old (skip_lines line flow number) out.new }
{
    if let Some(number) = number {
        put_head(out, line);
        put_named(out, "flow", flow as u64);
        put_word(out, " skips to");
        put_spaced(out, u64::from(number));
        put_word(out, "\n");
    }
}

/// Puts why an input was refused.
fn put_reason<O: PutText>(out: &mut O, refusal: Refusal)
    ensures { Puts O.after out.old (reason_text refusal) out.new }
{
    put_named(out, "refused", u64::from(refusal.number()));
    put_word(out, " ");
    put_word(out, words_of_refusal(refusal));
}

/// Puts the line of an input that was refused.
fn put_refusal<O: PutText>(out: &mut O, line: u64, name: &InputName, refusal: Refusal)
    ensures { Puts O.after out.old (refused_line line name.now refusal) out.new }
{
    put_head(out, line);
    put_input(out, name);
    put_reason(out, refusal);
    put_word(out, "\n");
}

/// Puts what became of a segment.
fn put_verdict<O: PutText>(out: &mut O, sequence: u16, verdict: SegmentVerdict)
    ensures { Puts O.after out.old (verdict_text sequence verdict) out.new }
{
    put_named(out, "number", u64::from(sequence));
    put_word(out, " ");
    put_word(out, word_of_verdict(verdict));
}

/// Puts the lines of a segment that was admitted.
fn put_admitted<O: PutText>(out: &mut O, line: u64, flow: usize, sequence: u16, told: &Told)
    ensures { Puts O.after out.old (admitted_lines line flow sequence told.now) out.new }
{
    put_skip(out, line, flow, told.skipped_to);
    put_head(out, line);
    put_named(out, "flow", flow as u64);
    put_verdict(out, sequence, told.verdict);
    put_word(out, "\n");
}

/// Puts the lines of an input that was taken.
fn put_took<O: PutText>(out: &mut O, line: u64, name: &InputName, reply: &Reply)
    ensures { Puts O.after out.old (took_lines line name.now reply.now) out.new }
{
    match reply {
        Reply::Granted => {
            put_head(out, line);
            put_input(out, name);
            put_word(out, " granted\n");
        }
        Reply::Refused(refusal) => put_refusal(out, line, name, *refusal),
        Reply::Admitted {
            flow,
            sequence,
            told,
        } => put_admitted(out, line, *flow, *sequence, told),
    }
}

/// Puts the line of a decision.
fn put_decided<O: PutText>(out: &mut O, line: u64, flow: usize, reply: &DecisionReply)
    ensures { Puts O.after out.old (decided_line line flow reply.now) out.new }
{
    put_head(out, line);
    put_named(out, "flow", flow as u64);
    put_word(out, words_of_decision(reply));
    put_word(out, "\n");
}

/// Puts the line of how a flow stands.
fn put_stands<O: PutText>(out: &mut O, line: u64, flow: usize, expected: u16, held: usize)
    ensures { Puts O.after out.old (stands_line line flow expected held) out.new }
{
    put_head(out, line);
    put_named(out, "flow", flow as u64);
    put_named(out, "expects", u64::from(expected));
    put_named(out, "holds", held as u64);
    put_word(out, "\n");
}

/// Puts the lines that say what became of an input or of a decision that a trace has in the line
/// with this number; of what a receiver gave there are none.
pub fn put_event<O: PutText>(out: &mut O, line: u64, one: &Happening)
    ensures { Puts O.after out.old (event_lines line one.now) out.new }
{
    match one {
        Happening::Gave(_) => {}
        Happening::Took { name, reply } => put_took(out, line, name, reply),
        Happening::Decided { flow, reply } => put_decided(out, line, *flow, reply),
        Happening::Stands {
            flow,
            expected,
            held,
        } => put_stands(out, line, *flow, *expected, *held),
    }
}
