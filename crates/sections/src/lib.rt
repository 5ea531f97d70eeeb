// The sections of an output, entries and bodies: what a message puts into them, as far as there is room, and the output of one alone.
// As in crate writing, each function answers the place past what it wrote, or would have written.
#![tactic(auto)]

ghost use Rattle.std.specs.Prelude.{◌≡◌, true, false, ◌∷◌, [], ◌+◌, ◌%◌, length};
ghost use Rattle.seq.specs.Bytes.{source};
ghost use Rattle.buffer.specs.Capped.{capped};
ghost use Rattle.pieces.specs.Pieces.{written};
ghost use Rattle.buffer.specs.Over.{over};
ghost use Rattle.outgoing.specs.Outgoing.{render};
ghost use Rattle.conversion.specs.Converts.{other};
ghost use Rattle.conversion.specs.Sources.{across, sources};
ghost use Rattle.outgoing.specs.Layout.{be16, formats_of};
ghost use Rattle.replies.specs.Meaning.{message_of};
ghost use Rattle.sections.specs.Sections.{put_in, put_to_each, event_in, with_payload, added, event_adds, sizes, one_output, outcome_bytes};

use pieces::Piece;
use replies::{EventReply, Reply};
use seq::{Format, PayloadSpans};

// What is written of each message: its entry, or its bytes.
#[derive(Clone, Copy)]
pub enum Section {
    Entries,
    Bodies,
}

// ---- formats

// The format of a slot, by which slots speak MessagePack.
pub fn format_at(packed: [bool; 8], slot: usize) -> Format
    ensures { result ≡ formats_of packed slot }
{
    if slot >= 8 {
        return Format::Json;
    }
    if packed[slot] {
        Format::MsgPack
    } else {
        Format::Json
    }
}

pub fn same_format(f: Format, g: Format) -> bool
    ensures { result ≡ across f g true false }
{
    f == g
}

pub fn other_format(f: Format) -> Format
    ensures { result ≡ other f }
{
    match f {
        Format::Json => Format::MsgPack,
        Format::MsgPack => Format::Json,
    }
}

// Whether a slot speaks a format.
fn speaks(f: Format, packed: [bool; 8], slot: usize) -> bool
    ensures { result ≡ across f (formats_of packed slot) true false }
{
    f == format_at(packed, slot)
}

// ---- one message

// A message's slot and length.
fn put_entry(slot: usize, len: usize, out: &mut [u8], at: usize) -> usize
    ensures place { result ≡ capped (at + 3) }
    ensures bytes { out.new ≡ over out.old at (slot % 256 ∷ be16 len) }
{
    let o = buffer::put_byte((slot % 256) as u8, out, at);
    writing::put_be16(len, out, o)
}

// What a message in pieces puts into a section. Bytes past the end of out are only counted.
fn put_mail(
    s: Section,
    message: &[u8],
    text: &[u8],
    slot: usize,
    ps: [Piece; 9],
    len: usize,
    out: &mut [u8],
    at: usize,
) -> usize
    requires { len ≡ capped (length (written (source message.now text.now) ps)) }
    ensures place { result ≡ capped (at + length (put_in s slot (written (source message.now text.now) ps))) }
    ensures bytes { out.new ≡ over out.old at (put_in s slot (written (source message.now text.now) ps)) }
{
    match s {
        Section::Entries => put_entry(slot, len, out, at),
        Section::Bodies => {
            if out.len() <= at {
                return buffer::plus(at, len);
            }
            writing::put_pieces(message, text, ps, out, at)
        }
    }
}

// A message to one slot, in its format.
pub fn put_reply(
    s: Section,
    format: Format,
    message: &[u8],
    text: &[u8],
    slot: usize,
    reply: Reply,
    out: &mut [u8],
    at: usize,
) -> usize
    ensures place { result ≡ capped (at + length (put_in s slot (render format (message_of (source message.now text.now) reply)))) }
    ensures bytes { out.new ≡ over out.old at (put_in s slot (render format (message_of (source message.now text.now) reply))) }
{
    let ps = packs::pieces_of(format, reply);
    let len = pieces::pieces_len(message, text, ps);
    put_mail(s, message, text, slot, ps, len, out, at)
}

// The place past a message with its entry.
pub fn size_reply(format: Format, message: &[u8], text: &[u8], reply: Reply, at: usize) -> usize
    ensures { result ≡ capped (at + added (render format (message_of (source message.now text.now) reply))) }
{
    let ps = packs::pieces_of(format, reply);
    let len = pieces::pieces_len(message, text, ps);
    buffer::plus(at, buffer::plus(3, len))
}

// ---- an event, and the slots that it goes to

// An event's length.
fn event_len(format: Format, message: &[u8], text: &[u8], e: EventReply) -> usize
    ensures { result ≡ capped (length (render format (message_of (source message.now text.now) (Reply.Event e)))) }
{
    let ps = packs::pieces_of(format, Reply::Event(e));
    pieces::pieces_len(message, text, ps)
}

// An event with the payload of other spans.
fn with_payload(e: EventReply, payload: PayloadSpans) -> EventReply
    ensures { result ≡ with_payload e payload }
{
    EventReply { payload, ..e }
}

// The place past n bytes for each slot of a set that speaks the format; from place 0 on, with n = 1, how many these are.
fn count_each(format: Format, n: usize, packed: [bool; 8], holders: [bool; 8], at: usize) -> usize
    ensures { result ≡ capped (at + sizes (λ j. across format (formats_of packed j) n 0) 0 holders) }
{
    let mut o = at;
    for (i, held) in holders.iter().enumerate() {
        if *held {
            if speaks(format, packed, i) {
                o = buffer::plus(o, n);
            }
        }
    }
    o
}

// ---- an event to each slot of a set, the lowest first: its pieces are made and settled once for each format that is needed

// To slots of both formats, with the payload as it came and as it was converted.
fn put_across(
    s: Section,
    from: Format,
    message: &[u8],
    converted: &[u8],
    text: &[u8],
    e: EventReply,
    other: PayloadSpans,
    packed: [bool; 8],
    holders: [bool; 8],
    out: &mut [u8],
    at: usize,
) -> usize
    ensures place { result ≡ capped (at + length
        (put_to_each (event_in s (formats_of packed)
        (sources from message.now converted.now text.now) e (Some other)) 0 holders)) }
    ensures bytes { out.new ≡ over out.old at
        (put_to_each (event_in s (formats_of packed)
        (sources from message.now converted.now text.now) e (Some other)) 0 holders) }
{
    let ps = pieces::settled(text, packs::pieces_of(from, Reply::Event(e)));
    let len = pieces::pieces_len(message, text, ps);
    let far = with_payload(e, other);
    let far_ps = pieces::settled(
        text,
        packs::pieces_of(other_format(from), Reply::Event(far)),
    );
    let far_len = pieces::pieces_len(converted, text, far_ps);
    let mut o = at;
    for (i, held) in holders.iter().enumerate() {
        if *held {
            if speaks(from, packed, i) {
                o = put_mail(s, message, text, i, ps, len, out, o);
            } else {
                o = put_mail(s, converted, text, i, far_ps, far_len, out, o);
            }
        }
    }
    o
}

// ---- the same by section: for the slots of a format the entries differ by the slot alone and the bodies are alike, so the length is taken once,
// and one body is written, and copied for the others

fn entries_within(
    format: Format,
    message: &[u8],
    text: &[u8],
    e: EventReply,
    packed: [bool; 8],
    holders: [bool; 8],
    out: &mut [u8],
    at: usize,
) -> usize
    ensures place { result ≡ capped (at + length
        (put_to_each (event_in Section.Entries (formats_of packed) (sources format message.now [] text.now) e None) 0 holders)) }
    ensures bytes { out.new ≡ over out.old at
        (put_to_each (event_in Section.Entries (formats_of packed) (sources format message.now [] text.now) e None) 0 holders) }
{
    let len = event_len(format, message, text, e);
    let mut o = at;
    for (i, held) in holders.iter().enumerate() {
        if *held {
            if speaks(format, packed, i) {
                o = put_entry(i, len, out, o);
            }
        }
    }
    o
}

fn bodies_within(
    format: Format,
    message: &[u8],
    text: &[u8],
    e: EventReply,
    packed: [bool; 8],
    holders: [bool; 8],
    out: &mut [u8],
    at: usize,
) -> usize
    ensures place { result ≡ capped (at + length
        (put_to_each (event_in Section.Bodies (formats_of packed) (sources format message.now [] text.now) e None) 0 holders)) }
    ensures bytes { out.new ≡ over out.old at
        (put_to_each (event_in Section.Bodies (formats_of packed) (sources format message.now [] text.now) e None) 0 holders) }
{
    let ps = packs::pieces_of(format, Reply::Event(e));
    let times = count_each(format, 1, packed, holders, 0);
    writing::put_times(message, text, ps, times, out, at)
}

fn events_within(
    s: Section,
    format: Format,
    message: &[u8],
    text: &[u8],
    e: EventReply,
    packed: [bool; 8],
    holders: [bool; 8],
    out: &mut [u8],
    at: usize,
) -> usize
    ensures place { result ≡ capped (at + length
        (put_to_each (event_in s (formats_of packed) (sources format message.now [] text.now) e None) 0 holders)) }
    ensures bytes { out.new ≡ over out.old at
        (put_to_each (event_in s (formats_of packed) (sources format message.now [] text.now) e None) 0 holders) }
{
    match s {
        Section::Entries => entries_within(format, message, text, e, packed, holders, out, at),
        Section::Bodies => bodies_within(format, message, text, e, packed, holders, out, at),
    }
}

// To slots of both formats; where all of a set speak one, it goes to each as above.
fn events_across(
    s: Section,
    from: Format,
    message: &[u8],
    converted: &[u8],
    text: &[u8],
    e: EventReply,
    other: PayloadSpans,
    packed: [bool; 8],
    holders: [bool; 8],
    out: &mut [u8],
    at: usize,
) -> usize
    ensures place { result ≡ capped (at + length
        (put_to_each (event_in s (formats_of packed)
        (sources from message.now converted.now text.now) e (Some other)) 0 holders)) }
    ensures bytes { out.new ≡ over out.old at
        (put_to_each (event_in s (formats_of packed)
        (sources from message.now converted.now text.now) e (Some other)) 0 holders) }
{
    let format = other_format(from);
    if count_each(format, 1, packed, holders, 0) == 0 {
        return events_within(s, from, message, text, e, packed, holders, out, at);
    }
    if count_each(from, 1, packed, holders, 0) == 0 {
        let far = with_payload(e, other);
        return events_within(s, format, converted, text, far, packed, holders, out, at);
    }
    put_across(
        s, from, message, converted, text, e, other, packed, holders, out, at,
    )
}

// An event whose payload is e's, and in the other format, in the bytes converted, other's.
pub fn put_to_each(
    s: Section,
    from: Format,
    message: &[u8],
    converted: &[u8],
    text: &[u8],
    e: EventReply,
    other: Option<PayloadSpans>,
    packed: [bool; 8],
    holders: [bool; 8],
    out: &mut [u8],
    at: usize,
) -> usize
    ensures place { result ≡ capped (at + length
        (put_to_each (event_in s (formats_of packed)
        (sources from message.now converted.now text.now) e other) 0 holders)) }
    ensures bytes { out.new ≡ over out.old at
        (put_to_each (event_in s (formats_of packed)
        (sources from message.now converted.now text.now) e other) 0 holders) }
{
    match other {
        None => events_within(s, from, message, text, e, packed, holders, out, at),
        Some(p) => events_across(
            s, from, message, converted, text, e, p, packed, holders, out, at,
        ),
    }
}

// ---- the size of the same, each message with its entry: the length is taken once for each format that is spoken, and counted for each slot

// To the slots that speak the format in which its payload stands in the message.
fn size_within(
    format: Format,
    message: &[u8],
    text: &[u8],
    e: EventReply,
    packed: [bool; 8],
    holders: [bool; 8],
    at: usize,
) -> usize
    ensures { result ≡ capped (at +
        sizes (event_adds (formats_of packed) (sources format message.now [] text.now) e None) 0 holders) }
{
    if count_each(format, 1, packed, holders, 0) == 0 {
        return at;
    }
    let size = buffer::plus(3, event_len(format, message, text, e));
    count_each(format, size, packed, holders, at)
}

pub fn size_to_each(
    from: Format,
    message: &[u8],
    converted: &[u8],
    text: &[u8],
    e: EventReply,
    other: Option<PayloadSpans>,
    packed: [bool; 8],
    holders: [bool; 8],
    at: usize,
) -> usize
    ensures { result ≡ capped (at + sizes (event_adds (formats_of packed)
        (sources from message.now converted.now text.now) e other) 0 holders) }
{
    let near = size_within(from, message, text, e, packed, holders, at);
    let Some(p) = other else {
        return near;
    };
    let far = with_payload(e, p);
    size_within(
        other_format(from),
        converted,
        text,
        far,
        packed,
        holders,
        near,
    )
}

// ---- the output of a step that sends one message or none: its size is answered, and it is written where it fits

pub fn put_nothing(out: &mut [u8]) -> usize
    ensures size { result ≡ 2 }
    ensures bytes { out.new ≡ outcome_bytes (be16 0) out.old }
{
    if out.len() < 2 {
        return 2;
    }
    writing::put_be16(0, out, 0)
}

// The pieces are made once, for the size and for the bytes.
pub fn put_alone(
    format: Format,
    message: &[u8],
    text: &[u8],
    slot: usize,
    reply: Reply,
    out: &mut [u8],
) -> usize
    ensures size { result ≡ capped (length (one_output slot (render format (message_of (source message.now text.now) reply)))) }
    ensures bytes { out.new ≡
        outcome_bytes (one_output slot (render format (message_of (source message.now text.now) reply))) out.old }
{
    let ps = packs::pieces_of(format, reply);
    let len = pieces::pieces_len(message, text, ps);
    let size = buffer::plus(5, len);
    if out.len() < size {
        return size;
    }
    let entry = writing::put_be16(1, out, 0);
    let body = put_entry(slot, len, out, entry);
    writing::put_pieces(message, text, ps, out, body)
}
