// All that a step sends, as rows and not as messages, and emit, which writes it (PROTOCOL, "Output layout").
#![tactic(auto)]

ghost use Rattle.std.specs.Prelude.{◌≡◌, ◌++◌, ◌+◌, length};
ghost use Rattle.seq.specs.Lists.{joined};
ghost use Rattle.buffer.specs.Capped.{capped};
ghost use Rattle.buffer.specs.Over.{over};
ghost use Rattle.conversion.specs.Sources.{Sources, sources};
ghost use Rattle.outgoing.specs.Layout.{Formats, formats_of};
ghost use Rattle.outbox.specs.Meaning.{own_mails, cancel_mails, event_mails, mails_of};
ghost use Rattle.outbox.specs.Emit.{answer, emitted, emitted_bytes, section, added_by};

use outgoing::Uri;
use replies::{EventReply, Naming, Reply};
use sections::Section;
use seq::{Format, PayloadSpans};

// ---- the outbox

// A message and the slot that it goes to.
#[derive(Clone, Copy)]
pub struct Send {
    pub slot: usize,
    pub reply: Reply,
}

// A held call that ends with its callee's session: the caller's slot, and the request number that is canceled; 0 is none.
#[derive(Clone, Copy)]
pub struct Cancel {
    pub slot: usize,
    pub request: u64,
}

// An EVENT of one subscription row; 0 is none. The holders are those who get it: the publisher is left out already.
#[derive(Clone, Copy)]
pub struct EventRow {
    pub subscription: u64,
    pub details: Naming,
    pub holders: [bool; 8],
}

// All that a step sends: its own message, then canceled by row, then events by row and slot, which share publication and payload,
// as it came and as it was converted to the other format.
// Rows and not messages are kept, so that one message costs little and a fan-out to 224 receivers is linear in what is sent.
#[derive(Clone, Copy)]
pub struct Outbox {
    pub own: Option<Send>,
    pub cancels: [Cancel; 32],
    pub publication: u64,
    pub payload: PayloadSpans,
    pub other: Option<PayloadSpans>,
    pub events: [EventRow; 32],
}

const NO_CANCEL: Cancel = Cancel {
    slot: 0,
    request: 0,
};

const NO_EVENT: EventRow = EventRow {
    subscription: 0,
    details: Naming::Plain,
    holders: [false; 8],
};

// An own message or none, and canceled replies.
pub fn ending(own: Option<Send>, cancels: [Cancel; 32]) -> Outbox
    ensures { (fs : Formats) (m : Sources) → mails_of fs m result ≡ own_mails fs m own ++ joined cancel_mails cancels }
{
    Outbox {
        own,
        cancels,
        publication: 0,
        payload: PayloadSpans::Absent,
        other: None,
        events: [NO_EVENT; 32],
    }
}

// An own message or none, and events.
pub fn publishing(
    own: Option<Send>,
    publication: u64,
    payload: PayloadSpans,
    other: Option<PayloadSpans>,
    events: [EventRow; 32],
) -> Outbox
    ensures { (fs : Formats) (m : Sources) → mails_of fs m result ≡ own_mails fs m own ++ joined (event_mails fs m publication payload other) events }
{
    Outbox {
        own,
        cancels: [NO_CANCEL; 32],
        publication,
        payload,
        other,
        events,
    }
}

// What a step's messages are written from: the format and the bytes of the message taken in, the bytes that its payload was converted to, and
// its text; and which slots speak MessagePack.
#[derive(Clone, Copy)]
struct Step<'a> {
    from: Format,
    message: &'a [u8],
    converted: &'a [u8],
    text: &'a [u8],
    packed: [bool; 8],
}

// ---- the sections of an output: each function writes as crate writing's do, and answers the place past what it wrote

// A session's own message, or none: its payload stands in the message, or in the bytes that it was converted to.
fn put_own(s: Section, step: Step, own: Option<Send>, out: &mut [u8], at: usize) -> usize
    ensures place { result ≡ capped (at + length
        (joined (section (formats_of step.entry.packed) s) (own_mails (formats_of step.entry.packed)
        (sources step.entry.from step.entry.message.now step.entry.converted.now step.entry.text.now) own))) }
    ensures bytes { out.new ≡ over out.old at
        (joined (section (formats_of step.entry.packed) s) (own_mails (formats_of step.entry.packed)
        (sources step.entry.from step.entry.message.now step.entry.converted.now step.entry.text.now) own)) }
{
    match own {
        None => at,
        Some(send) => {
            let reply = send.reply;
            let format = sections::format_at(step.packed, send.slot);
            if step.from == format {
                let bytes = step.message;
                return sections::put_reply(s, format, bytes, step.text, send.slot, reply, out, at);
            }
            let bytes = step.converted;
            sections::put_reply(s, format, bytes, step.text, send.slot, reply, out, at)
        }
    }
}

// A canceled reply, or none. It has no payload, so the message is as good as any bytes.
fn put_cancel(s: Section, step: Step, c: Cancel, out: &mut [u8], at: usize) -> usize
    ensures place { result ≡ capped (at + length
        (joined (section (formats_of step.entry.packed) s) (cancel_mails c))) }
    ensures bytes { out.new ≡ over out.old at
        (joined (section (formats_of step.entry.packed) s) (cancel_mails c)) }
{
    if c.request == 0 {
        return at;
    }
    let reply = Reply::CallError(c.request, Uri::Canceled);
    let format = sections::format_at(step.packed, c.slot);
    sections::put_reply(s, format, step.message, step.text, c.slot, reply, out, at)
}

fn put_cancels(s: Section, step: Step, cancels: [Cancel; 32], out: &mut [u8], at: usize) -> usize
    ensures place { result ≡ capped (at + length
        (joined (section (formats_of step.entry.packed) s) (joined cancel_mails cancels))) }
    ensures bytes { out.new ≡ over out.old at
        (joined (section (formats_of step.entry.packed) s) (joined cancel_mails cancels)) }
{
    let mut o = at;
    for cancel in &cancels {
        o = put_cancel(s, step, *cancel, out, o);
    }
    o
}

// A row's event to each of its holders, or none.
fn put_row(
    s: Section,
    step: Step,
    publication: u64,
    payload: PayloadSpans,
    other: Option<PayloadSpans>,
    row: EventRow,
    out: &mut [u8],
    at: usize,
) -> usize
    ensures place { result ≡ capped (at + length
        (joined (section (formats_of step.entry.packed) s) (event_mails (formats_of step.entry.packed)
        (sources step.entry.from step.entry.message.now step.entry.converted.now step.entry.text.now) publication payload other row))) }
    ensures bytes { out.new ≡ over out.old at
        (joined (section (formats_of step.entry.packed) s) (event_mails (formats_of step.entry.packed)
        (sources step.entry.from step.entry.message.now step.entry.converted.now step.entry.text.now) publication payload other row)) }
{
    if row.subscription == 0 {
        return at;
    }
    let e = EventReply {
        subscription: row.subscription,
        publication,
        details: row.details,
        payload,
    };
    sections::put_to_each(
        s,
        step.from,
        step.message,
        step.converted,
        step.text,
        e,
        other,
        step.packed,
        row.holders,
        out,
        at,
    )
}

fn put_events(
    s: Section,
    step: Step,
    publication: u64,
    payload: PayloadSpans,
    other: Option<PayloadSpans>,
    events: [EventRow; 32],
    out: &mut [u8],
    at: usize,
) -> usize
    ensures place { result ≡ capped (at + length
        (joined (section (formats_of step.entry.packed) s) (joined (event_mails (formats_of step.entry.packed)
        (sources step.entry.from step.entry.message.now step.entry.converted.now step.entry.text.now) publication payload other) events))) }
    ensures bytes { out.new ≡ over out.old at
        (joined (section (formats_of step.entry.packed) s) (joined (event_mails (formats_of step.entry.packed)
        (sources step.entry.from step.entry.message.now step.entry.converted.now step.entry.text.now) publication payload other) events)) }
{
    let mut o = at;
    for row in &events {
        o = put_row(s, step, publication, payload, other, *row, out, o);
    }
    o
}

// A whole section.
fn put_all(s: Section, step: Step, outbox: Outbox, out: &mut [u8], at: usize) -> usize
    ensures place { result ≡ capped (at + length
        (joined (section (formats_of step.entry.packed) s) (mails_of (formats_of step.entry.packed)
        (sources step.entry.from step.entry.message.now step.entry.converted.now step.entry.text.now) outbox))) }
    ensures bytes { out.new ≡ over out.old at
        (joined (section (formats_of step.entry.packed) s) (mails_of (formats_of step.entry.packed)
        (sources step.entry.from step.entry.message.now step.entry.converted.now step.entry.text.now) outbox)) }
{
    let a = put_own(s, step, outbox.own, out, at);
    let b = put_cancels(s, step, outbox.cancels, out, a);
    put_events(
        s,
        step,
        outbox.publication,
        outbox.payload,
        outbox.other,
        outbox.events,
        out,
        b,
    )
}

// ---- the size of an output: each function answers the place past what the messages add, each with its entry

fn size_own(step: Step, own: Option<Send>, at: usize) -> usize
    ensures { result ≡ capped (at + added_by (formats_of step.entry.packed) (own_mails (formats_of step.entry.packed)
        (sources step.entry.from step.entry.message.now step.entry.converted.now step.entry.text.now) own)) }
{
    match own {
        None => at,
        Some(send) => {
            let reply = send.reply;
            let format = sections::format_at(step.packed, send.slot);
            if step.from == format {
                return sections::size_reply(format, step.message, step.text, reply, at);
            }
            sections::size_reply(format, step.converted, step.text, reply, at)
        }
    }
}

fn size_cancel(step: Step, c: Cancel, at: usize) -> usize
    ensures { result ≡ capped (at + added_by (formats_of step.entry.packed) (cancel_mails c)) }
{
    if c.request == 0 {
        return at;
    }
    let reply = Reply::CallError(c.request, Uri::Canceled);
    let format = sections::format_at(step.packed, c.slot);
    sections::size_reply(format, step.message, step.text, reply, at)
}

fn size_cancels(step: Step, cancels: [Cancel; 32], at: usize) -> usize
    ensures { result ≡ capped (at + added_by (formats_of step.entry.packed) (joined cancel_mails cancels)) }
{
    let mut o = at;
    for cancel in &cancels {
        o = size_cancel(step, *cancel, o);
    }
    o
}

fn size_row(
    step: Step,
    publication: u64,
    payload: PayloadSpans,
    other: Option<PayloadSpans>,
    row: EventRow,
    at: usize,
) -> usize
    ensures { result ≡ capped (at + added_by (formats_of step.entry.packed) (event_mails (formats_of step.entry.packed)
        (sources step.entry.from step.entry.message.now step.entry.converted.now step.entry.text.now) publication payload other row)) }
{
    if row.subscription == 0 {
        return at;
    }
    let e = EventReply {
        subscription: row.subscription,
        publication,
        details: row.details,
        payload,
    };
    sections::size_to_each(
        step.from,
        step.message,
        step.converted,
        step.text,
        e,
        other,
        step.packed,
        row.holders,
        at,
    )
}

fn size_events(
    step: Step,
    publication: u64,
    payload: PayloadSpans,
    other: Option<PayloadSpans>,
    events: [EventRow; 32],
    at: usize,
) -> usize
    ensures { result ≡ capped (at + added_by (formats_of step.entry.packed) (joined (event_mails (formats_of step.entry.packed)
        (sources step.entry.from step.entry.message.now step.entry.converted.now step.entry.text.now) publication payload other) events)) }
{
    let mut o = at;
    for row in &events {
        o = size_row(step, publication, payload, other, *row, o);
    }
    o
}

// The size of a whole output: its 2-byte count, and each message with its entry.
fn size_all(step: Step, outbox: Outbox) -> usize
    ensures { result ≡ capped (2 + added_by (formats_of step.entry.packed) (mails_of (formats_of step.entry.packed)
        (sources step.entry.from step.entry.message.now step.entry.converted.now step.entry.text.now) outbox)) }
{
    let o: usize = 2;
    let a = size_own(step, outbox.own, o);
    let b = size_cancels(step, outbox.cancels, a);
    size_events(
        step,
        outbox.publication,
        outbox.payload,
        outbox.other,
        outbox.events,
        b,
    )
}

// ---- emit: the size is taken first, then the entries are written, then the bodies, then the count, which is known from the entries' end

// Writes a step's output at the start of out; where it does not fit, nothing is written.
pub fn emit(
    from: Format,
    message: &[u8],
    converted: &[u8],
    text: &[u8],
    packed: [bool; 8],
    outbox: Outbox,
    out: &mut [u8],
) -> Option<usize>
    ensures answer { result ≡ emitted (formats_of packed)
        (mails_of (formats_of packed) (sources from message.now converted.now text.now) outbox) out.old }
    ensures bytes { out.new ≡ emitted_bytes (formats_of packed)
        (mails_of (formats_of packed) (sources from message.now converted.now text.now) outbox) out.old }
{
    let step = Step {
        from,
        message,
        converted,
        text,
        packed,
    };
    if out.len() < size_all(step, outbox) {
        return None;
    }
    let e = Section::Entries;
    let bodies = put_all(e, step, outbox, out, 2);
    let b = Section::Bodies;
    let end = put_all(b, step, outbox, out, bodies);
    writing::put_be16((bodies - 2) / 3, out, 0);
    Some(end)
}

// ---- a step that sends one message or none: the same output, with no outbox made

// What an output of this size gives where there is this much room.
fn answered(size: usize, room: usize) -> Option<usize>
    ensures { result ≡ answer size room }
{
    (size <= room).then_some(size)
}

// emit, of a session's own message or none.
pub fn emit_own(
    from: Format,
    message: &[u8],
    converted: &[u8],
    text: &[u8],
    packed: [bool; 8],
    own: Option<Send>,
    out: &mut [u8],
) -> Option<usize>
    ensures answer { result ≡ emitted (formats_of packed)
        (own_mails (formats_of packed) (sources from message.now converted.now text.now) own) out.old }
    ensures bytes { out.new ≡ emitted_bytes (formats_of packed)
        (own_mails (formats_of packed) (sources from message.now converted.now text.now) own) out.old }
{
    let room = out.len();
    match own {
        None => answered(sections::put_nothing(out), room),
        Some(send) => {
            let reply = send.reply;
            let format = sections::format_at(packed, send.slot);
            if from == format {
                let size = sections::put_alone(format, message, text, send.slot, reply, out);
                return answered(size, room);
            }
            let size = sections::put_alone(format, converted, text, send.slot, reply, out);
            answered(size, room)
        }
    }
}
