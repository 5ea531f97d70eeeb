// The messages taken in: bytes to a parsed message, whose text and payload are spans of the bytes, or a violation.
#![tactic(auto)]

ghost use Rattle.std.specs.Prelude.{◌≡◌, List, ℕ, ◌≤◌, ◌&&◌, eqb};
ghost use Rattle.seq.specs.declared.Format.{Format};
ghost use Rattle.seq.specs.Bytes.{Payload, text_of, same};
ghost use Rattle.incoming.specs.Incoming.{Incoming, Abort, Goodbye, Unsubscribe, Unregister};
ghost use Rattle.incoming.specs.Read.{spans_in, id_in, str_bytes, within, text_by, sound_by, sound_text, sound_options, sound_request, option};
ghost use Rattle.incoming.specs.Read.{is_string, inside, policy_named, policy_of, sound_value, acknowledge_in, audience_in};
ghost use Rattle.options.specs.Meaning.{audience_of};
ghost use Rattle.incoming.specs.Read.{with_payload, request_shape, encoded, interpret, read};
ghost use Rattle.incoming.specs.Read.{hello, ending, failure, publish, subscribe, call, register, release, yield};
ghost use Rattle.parser.specs.Meaning.{meaning, meant, held_in, on_tail};

use elements::Elements;
use options::Options;
use seq::{Format, PayloadSpans, Span};
use uri::Policy;

#[derive(Clone, Copy)]
pub struct Error {
    pub invocation: u64,
    pub payload: PayloadSpans,
}

// The options that choose receivers are left where they lie, and read when they are asked for.
#[derive(Clone, Copy)]
pub struct Publish {
    pub request: u64,
    pub acknowledge: bool,
    pub format: Format,
    pub options: Span,
    pub payload: PayloadSpans,
}

// SUBSCRIBE and REGISTER.
#[derive(Clone, Copy)]
pub struct Request {
    pub request: u64,
    pub policy: Option<Policy>,
}

// UNSUBSCRIBE and UNREGISTER: the ID of the subscription or registration.
#[derive(Clone, Copy)]
pub struct Release {
    pub request: u64,
    pub id: u64,
}

#[derive(Clone, Copy)]
pub struct Call {
    pub request: u64,
    pub payload: PayloadSpans,
}

#[derive(Clone, Copy)]
pub struct Yield {
    pub invocation: u64,
    pub payload: PayloadSpans,
}

// A message but for its text; or a violation whatever the state. Whether an ERROR's text is a URI is not looked at yet.
#[derive(Clone, Copy)]
pub enum Parsed {
    Hello,
    Abort,
    Goodbye,
    Error(Error),
    Publish(Publish),
    Subscribe(Request),
    Unsubscribe(Release),
    Call(Call),
    Register(Request),
    Unregister(Release),
    Yield(Yield),
    Violation,
}

// A message, and where its text stands: the realm, topic, procedure or error URI, between its quotes, escapes and all, or behind its head.
#[derive(Clone, Copy)]
pub struct Heard {
    pub message: Parsed,
    pub text: Span,
}

// The kind of a list, as `elements::kind` has it.
const LIST: u32 = 3;
// The kind of a dict.
const DICT: u32 = 4;

// Shapes: the kinds of a message's elements, before a payload, as `elements::split` has them. [1,Realm,Details]
const HELLO_SHAPE: u32 = 124;
// [3,Details,Reason] and [6,Details,Reason]
const ENDING_SHAPE: u32 = 142;
// [8,68,Invocation,Details,Error]
const ERROR_SHAPE: u32 = 11142;
// [Number,Request,Options,Text], of PUBLISH, SUBSCRIBE, CALL and REGISTER
const REQUEST_SHAPE: u32 = 1142;
// [34,Request,Subscription] and [66,Request,Registration]
const RELEASE_SHAPE: u32 = 111;
// [70,Invocation,Options]
const YIELD_SHAPE: u32 = 114;

// The type of a callee's ERROR: INVOCATION's number.
const INVOCATION: u64 = 68;

// ---- what differs by the message's format

// The elements of the outer list, and their kinds.
fn split(format: Format, s: &[u8]) -> Elements
    ensures { result ≡ held_in format s.now (spans_in format s.now) }
{
    match format {
        Format::Json => elements::split(s),
        Format::MsgPack => arrays::split(s),
    }
}

// The ID in an element, 0 if it is none.
fn id(format: Format, s: &[u8], p: Span) -> u64
    ensures { result ≡ id_in format s.now p }
{
    let t = seq::text(s, p);
    match format {
        Format::Json => elements::id(t),
        Format::MsgPack => arrays::id(t),
    }
}

// A string's span without its quotes.
fn unquoted(p: Span) -> Span
    ensures { (s : List ℕ) → text_of s result ≡ within Format.Json s p }
{
    if p.from < p.to {
        return Span {
            from: p.from + 1,
            to: p.to - 1,
        };
    }
    p
}

// A str's span without its head.
fn behind_head(s: &[u8], p: Span) -> Span
    ensures { text_of s.now result ≡ within Format.MsgPack s.now p }
{
    let h = msgpack::head_at(seq::text(s, p), 0);
    let end = h.end;
    Span {
        from: p.from + end,
        to: p.to,
    }
}

// Where what is within a string stands: between its quotes, or behind its head.
fn within(format: Format, s: &[u8], p: Span) -> Span
    ensures { text_of s.now result ≡ within format s.now p }
{
    match format {
        Format::Json => unquoted(p),
        Format::MsgPack => behind_head(s, p),
    }
}

// Is a value a string?
fn is_string(format: Format, v: &[u8]) -> bool
    ensures { result ≡ is_string format v.now }
{
    match format {
        Format::Json => seq::byte(v, 0) == b'"',
        Format::MsgPack => {
            let h = msgpack::head_at(v, 0);
            h.kind == msgpack::STR
        }
    }
}

// What stands behind a str's head.
fn str_bytes(v: &[u8]) -> &[u8]
    ensures { result.now ≡ str_bytes v.now }
{
    let h = msgpack::head_at(v, 0);
    let end = h.end;
    &v[end..]
}

// What stands between a value's quotes, or behind its head.
fn inside(format: Format, v: &[u8]) -> &[u8]
    ensures { result.now ≡ inside format v.now }
{
    match format {
        Format::Json => strings::between(v, 0, v.len()),
        Format::MsgPack => str_bytes(v),
    }
}

// No half of a surrogate pair stands alone in what stands inside a string.
fn is_sound(format: Format, t: &[u8]) -> bool
    ensures { result ≡ sound_by format t.now }
{
    match format {
        Format::Json => !strings::has_lone(t),
        Format::MsgPack => true,
    }
}

// Does what stands inside a string stand for this text?
fn is_text(format: Format, t: &[u8], text: &[u8]) -> bool
    ensures { result ≡ same (text_by format t.now) text.now }
{
    match format {
        Format::Json => strings::is_text(t, text),
        Format::MsgPack => seq::same_bytes(t, text),
    }
}

// No half stands alone in a key of the Options.
fn sound_options(format: Format, s: &[u8], options: Span) -> bool
    ensures { result ≡ sound_options format s.now options }
{
    match format {
        Format::Json => members::sound(seq::text(s, options), 0),
        Format::MsgPack => true,
    }
}

// The value of an option, by its key; empty where it is absent.
fn option<'a>(format: Format, s: &'a [u8], options: Span, key: &[u8]) -> &'a [u8]
    ensures { result.now ≡ option format key.now s.now options }
{
    let dict = seq::text(s, options);
    match format {
        Format::Json => seq::text(dict, members::find(dict, 0, key)),
        Format::MsgPack => seq::text(dict, maps::find(dict, 0, key)),
    }
}

// A JSON message is UTF-8 as a whole. One of MessagePack is bytes, as every slice is; each of its strs is judged where it is read.
fn is_encoded(format: Format, s: &[u8]) -> bool
    ensures { result ≡ encoded format s.now }
{
    match format {
        Format::Json => utf8::well_formed(s),
        Format::MsgPack => true,
    }
}

// ---- elements and options

// No half of a surrogate pair stands alone in a string.
fn sound_text(format: Format, s: &[u8], p: Span) -> bool
    ensures { result ≡ sound_text format s.now p }
{
    is_sound(format, seq::text(s, within(format, s, p)))
}

// Nor in a key of the Options.
fn sound_request(format: Format, s: &[u8], options: Span, text: Span) -> bool
    ensures { result ≡ sound_request format s.now options text }
{
    if !sound_text(format, s, text) {
        return false;
    }
    sound_options(format, s, options)
}

// The policy that a text names, given what stands inside its string.
fn policy_named(format: Format, t: &[u8]) -> Option<Policy>
    ensures { result ≡ policy_named (text_by format t.now) }
{
    if is_text(format, t, b"exact") {
        return Some(Policy::Exact);
    }
    if is_text(format, t, b"prefix") {
        return Some(Policy::Prefix);
    }
    if is_text(format, t, b"wildcard") {
        return Some(Policy::Wildcard);
    }
    None
}

// The policy that a value of `match` names.
fn policy(format: Format, v: &[u8]) -> Option<Policy>
    ensures { result ≡ policy_of format v.now }
{
    if v.len() == 0 {
        return Some(Policy::Exact);
    }
    if !is_string(format, v) {
        return None;
    }
    policy_named(format, inside(format, v))
}

// No half stands alone in a value that is a string.
fn sound_value(format: Format, v: &[u8]) -> bool
    ensures { result ≡ sound_value format v.now }
{
    if !is_string(format, v) {
        return true;
    }
    is_sound(format, inside(format, v))
}

fn acknowledge_in(format: Format, s: &[u8], options: Span) -> bool
    ensures { result ≡ acknowledge_in format s.now options }
{
    options::is_bool(format, option(format, s, options, b"acknowledge"), true)
}

// The options of a PUBLISH that choose receivers.
pub fn options_in(format: Format, s: &[u8], options: Span) -> Options
    ensures { audience_of result ≡ audience_in format s.now options }
{
    let publisher = options::read_flag(format, option(format, s, options, b"exclude_me"));
    let exclude = options::read_ids(format, option(format, s, options, b"exclude"));
    let eligible = options::read_ids(format, option(format, s, options, b"eligible"));
    Options {
        publisher,
        exclude,
        eligible,
    }
}

// The payload after the elements of a shape: a list, then optionally a dict. No shape is above an ERROR's, so two digits more fit.
fn payload_after(kinds: u32, shape: u32, list: Span, dict: Span) -> Option<PayloadSpans>
    requires { shape ≤ 11142 }
    ensures { (s : List ℕ) (f : Payload → Incoming) → on_tail s result f ≡ with_payload kinds shape (text_of s list) (text_of s dict) f }
{
    let with_list = shape * 10 + LIST;
    let with_dict = with_list * 10 + DICT;
    if kinds == shape {
        return Some(PayloadSpans::Absent);
    }
    if kinds == with_list {
        return Some(PayloadSpans::Arguments(list));
    }
    if kinds == with_dict {
        return Some(PayloadSpans::Keywords(list, dict));
    }
    None
}

// ---- the messages, by their elements; None is a violation

// A message without a text.
fn plain(message: Parsed) -> Heard
    ensures { result ≡ record { message = message; text = record { from = 0; to = 0 } } }
{
    Heard {
        message,
        text: Span { from: 0, to: 0 },
    }
}

// [1,Realm,Details]
fn read_hello(format: Format, s: &[u8], kinds: u32, realm: Span) -> Option<Heard>
    ensures { meant format s.now result ≡ hello format s.now kinds realm }
{
    if !sound_text(format, s, realm) {
        return None;
    }
    if kinds != HELLO_SHAPE {
        return None;
    }
    Some(Heard {
        message: Parsed::Hello,
        text: within(format, s, realm),
    })
}

// [3,Details,Reason]
fn read_abort(kinds: u32) -> Option<Heard>
    ensures { (f : Format) (s : List ℕ) → meant f s result ≡ ending Abort kinds }
{
    if kinds != ENDING_SHAPE {
        return None;
    }
    Some(plain(Parsed::Abort))
}

// [6,Details,Reason]
fn read_goodbye(kinds: u32) -> Option<Heard>
    ensures { (f : Format) (s : List ℕ) → meant f s result ≡ ending Goodbye kinds }
{
    if kinds != ENDING_SHAPE {
        return None;
    }
    Some(plain(Parsed::Goodbye))
}

// [8,68,Invocation,Details,Error,P]; that an error URI which breaks the URI rule is a violation stands in the meaning of Parsed::Error.
fn read_error(
    format: Format,
    s: &[u8],
    kinds: u32,
    answered: Span,
    invocation: Span,
    uri: Span,
    list: Span,
    dict: Span,
) -> Option<Heard>
    ensures { meant format s.now result ≡ failure format s.now kinds answered invocation uri list dict }
{
    if !sound_text(format, s, uri) {
        return None;
    }
    if id(format, s, answered) != INVOCATION {
        return None;
    }
    let payload = payload_after(kinds, ERROR_SHAPE, list, dict)?;
    let error = Error {
        invocation: id(format, s, invocation),
        payload,
    };
    Some(Heard {
        message: Parsed::Error(error),
        text: within(format, s, uri),
    })
}

// [16,Request,Options,Topic,P]
fn read_publish(
    format: Format,
    s: &[u8],
    kinds: u32,
    request: Span,
    options: Span,
    topic: Span,
    list: Span,
    dict: Span,
) -> Option<Heard>
    ensures { meant format s.now result ≡ publish format s.now kinds request options topic list dict }
{
    if !sound_request(format, s, options, topic) {
        return None;
    }
    let payload = payload_after(kinds, REQUEST_SHAPE, list, dict)?;
    let publish = Publish {
        request: id(format, s, request),
        acknowledge: acknowledge_in(format, s, options),
        format,
        options,
        payload,
    };
    Some(Heard {
        message: Parsed::Publish(publish),
        text: within(format, s, topic),
    })
}

// No lone half stands in the text, in a key of the Options or in v, the value of `match`, and the elements have the shape of SUBSCRIBE and
// REGISTER.
fn is_request(format: Format, s: &[u8], kinds: u32, options: Span, text: Span, v: &[u8]) -> bool
    ensures { result ≡ (sound_request format s.now options text && (sound_value format v.now && eqb kinds request_shape)) }
{
    if !sound_request(format, s, options, text) {
        return false;
    }
    if !sound_value(format, v) {
        return false;
    }
    kinds == REQUEST_SHAPE
}

// [32,Request,Options,Topic]
fn read_subscribe(
    format: Format,
    s: &[u8],
    kinds: u32,
    request: Span,
    options: Span,
    topic: Span,
) -> Option<Heard>
    ensures { meant format s.now result ≡ subscribe format s.now kinds request options topic }
{
    let v = option(format, s, options, b"match");
    if !is_request(format, s, kinds, options, topic, v) {
        return None;
    }
    let subscribe = Request {
        request: id(format, s, request),
        policy: policy(format, v),
    };
    Some(Heard {
        message: Parsed::Subscribe(subscribe),
        text: within(format, s, topic),
    })
}

// [34,Request,Subscription]
fn read_unsubscribe(
    format: Format,
    s: &[u8],
    kinds: u32,
    request: Span,
    subscription: Span,
) -> Option<Heard>
    ensures { meant format s.now result ≡ release format Unsubscribe s.now kinds request subscription }
{
    if kinds != RELEASE_SHAPE {
        return None;
    }
    let release = Release {
        request: id(format, s, request),
        id: id(format, s, subscription),
    };
    Some(plain(Parsed::Unsubscribe(release)))
}

// [48,Request,Options,Procedure,P]
fn read_call(
    format: Format,
    s: &[u8],
    kinds: u32,
    request: Span,
    options: Span,
    procedure: Span,
    list: Span,
    dict: Span,
) -> Option<Heard>
    ensures { meant format s.now result ≡ call format s.now kinds request options procedure list dict }
{
    if !sound_request(format, s, options, procedure) {
        return None;
    }
    let payload = payload_after(kinds, REQUEST_SHAPE, list, dict)?;
    let call = Call {
        request: id(format, s, request),
        payload,
    };
    Some(Heard {
        message: Parsed::Call(call),
        text: within(format, s, procedure),
    })
}

// [64,Request,Options,Procedure]
fn read_register(
    format: Format,
    s: &[u8],
    kinds: u32,
    request: Span,
    options: Span,
    procedure: Span,
) -> Option<Heard>
    ensures { meant format s.now result ≡ register format s.now kinds request options procedure }
{
    let v = option(format, s, options, b"match");
    if !is_request(format, s, kinds, options, procedure, v) {
        return None;
    }
    let register = Request {
        request: id(format, s, request),
        policy: policy(format, v),
    };
    Some(Heard {
        message: Parsed::Register(register),
        text: within(format, s, procedure),
    })
}

// [66,Request,Registration]
fn read_unregister(
    format: Format,
    s: &[u8],
    kinds: u32,
    request: Span,
    registration: Span,
) -> Option<Heard>
    ensures { meant format s.now result ≡ release format Unregister s.now kinds request registration }
{
    if kinds != RELEASE_SHAPE {
        return None;
    }
    let release = Release {
        request: id(format, s, request),
        id: id(format, s, registration),
    };
    Some(plain(Parsed::Unregister(release)))
}

// [70,Invocation,Options,P]
fn read_yield(
    format: Format,
    s: &[u8],
    kinds: u32,
    invocation: Span,
    options: Span,
    list: Span,
    dict: Span,
) -> Option<Heard>
    ensures { meant format s.now result ≡ yield format s.now kinds invocation options list dict }
{
    if !sound_options(format, s, options) {
        return None;
    }
    let payload = payload_after(kinds, YIELD_SHAPE, list, dict)?;
    let yielded = Yield {
        invocation: id(format, s, invocation),
        payload,
    };
    Some(plain(Parsed::Yield(yielded)))
}

// The elements of the outer list by the message number; a to f are those after it.
fn interpret(format: Format, s: &[u8]) -> Option<Heard>
    ensures { meant format s.now result ≡ interpret format s.now (spans_in format s.now) }
{
    let elements = split(format, s);
    let kinds = elements.kinds;
    let spans = elements.spans;
    let a = spans[1];
    let b = spans[2];
    let c = spans[3];
    let d = spans[4];
    let e = spans[5];
    let f = spans[6];
    let number = id(format, s, spans[0]);
    match number {
        1 => read_hello(format, s, kinds, a),
        3 => read_abort(kinds),
        6 => read_goodbye(kinds),
        8 => read_error(format, s, kinds, a, b, d, e, f),
        16 => read_publish(format, s, kinds, a, b, c, d, e),
        32 => read_subscribe(format, s, kinds, a, b, c),
        34 => read_unsubscribe(format, s, kinds, a, b),
        48 => read_call(format, s, kinds, a, b, c, d, e),
        64 => read_register(format, s, kinds, a, b, c),
        66 => read_unregister(format, s, kinds, a, b),
        70 => read_yield(format, s, kinds, a, b, c, d),
        _ => None,
    }
}

// The message that bytes of a format are.
pub fn parse(format: Format, message: &[u8]) -> Heard
    ensures { meaning format message.now result ≡ read format message.now }
{
    if message.len() == 0 {
        return plain(Parsed::Violation);
    }
    if json_text::MAX_BYTES < message.len() {
        return plain(Parsed::Violation);
    }
    if !is_encoded(format, message) {
        return plain(Parsed::Violation);
    }
    match interpret(format, message) {
        Some(heard) => heard,
        None => plain(Parsed::Violation),
    }
}
