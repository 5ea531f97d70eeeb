// The options of PUBLISH that choose an event's receivers (PROTOCOL, "Taken in"): their values read in either format, and what they say of a
// session. A value is its bytes, none where the option is absent.
#![tactic(auto)]

ghost use Rattle.std.specs.Prelude.{◌≡◌, ◌<◌};
ghost use Rattle.options.specs.Audience.{bool_text, flag_of, most_ids, ids_in, ids_of, lists, keeps_me, excludes, admits, leaves, is_wrong, any_wrong};
ghost use Rattle.elements.specs.Elements.{outer};
ghost use Rattle.arrays.specs.Arrays as Arrays;
ghost use Rattle.options.specs.Meaning.{flag_meant, no_ids, pushed, list_meant, ids_before, ids_meant, audience_of};
ghost use Rattle.seq.specs.Bytes.{same};
ghost use Rattle.seq.specs.declared.Format.{Format};

use lex::Mark;
use seq::{Format, Span};

// An option: absent, given with a value, or wrong, as its value is not of its kind.
#[derive(Clone, Copy)]
pub enum OptionValue<T> {
    Absent,
    Given(T),
    Wrong,
}

// At most 8 IDs, those before the count: in an array, since the libraries use no heap.
#[derive(Clone, Copy)]
pub struct Ids {
    pub count: usize,
    pub ids: [u64; 8],
}

// `publisher` is what `exclude_me` says of it.
#[derive(Clone, Copy)]
pub struct Options {
    pub publisher: OptionValue<bool>,
    pub exclude: OptionValue<Ids>,
    pub eligible: OptionValue<Ids>,
}

const MOST_IDS: usize = 8;
// The same of an array's count.
const MOST_ENTRIES: u64 = 8;
// A list's elements may be nested so deep; those that are IDs are not.
const INNER_DEPTH: usize = 7;

// ---- reading

// Is the value literally true, or literally false?
pub fn is_bool(format: Format, v: &[u8], b: bool) -> bool
    ensures { result ≡ same v.now (bool_text format b) }
{
    match format {
        Format::Json => {
            if b {
                return seq::same_bytes(v, b"true");
            }
            seq::same_bytes(v, b"false")
        }
        Format::MsgPack => {
            if b {
                return seq::same_bytes(v, b"\xc3");
            }
            seq::same_bytes(v, b"\xc2")
        }
    }
}

pub fn read_flag(format: Format, v: &[u8]) -> OptionValue<bool>
    ensures { flag_meant result ≡ flag_of format v.now }
{
    if v.len() == 0 {
        return OptionValue::Absent;
    }
    if is_bool(format, v, true) {
        return OptionValue::Given(true);
    }
    if is_bool(format, v, false) {
        return OptionValue::Given(false);
    }
    OptionValue::Wrong
}

fn no_ids() -> Ids
    ensures { result ≡ no_ids }
{
    Ids {
        count: 0,
        ids: [0; 8],
    }
}

// One ID more.
fn push(l: Ids, id: u64) -> Ids
    requires { l.count < most_ids }
    ensures { result ≡ pushed l id }
{
    let n = l.count;
    let mut next = l;
    next.ids[n] = id;
    next.count = n + 1;
    next
}

// The IDs of the JSON list that a value is, if it is one of IDs.
fn in_list(v: &[u8]) -> Option<Ids>
    ensures { list_meant result ≡ ids_in Format.Json v.now (outer v.now) }
{
    if json_text::MAX_BYTES < v.len() {
        return None;
    }
    let a = lex::space(v, 0);
    if seq::byte(v, a) != b'[' {
        return None;
    }
    let mut m = lex::first_element(v, a + 1);
    let mut r = no_ids();
    loop {
        match m {
            Mark::Item(i) => {
                if MOST_IDS <= r.count {
                    return None;
                }
                let e = json_text::value(v, i, INNER_DEPTH)?;
                let id = elements::id(seq::text(v, Span { from: i, to: e }));
                if id == 0 {
                    return None;
                }
                r = push(r, id);
                m = lex::next_element(v, e);
            }
            Mark::End(e) => {
                if lex::space(v, e) == v.len() {
                    return Some(r);
                }
                return None;
            }
            Mark::Neither => return None,
        }
    }
}

// The same of an array of MessagePack.
fn in_array(v: &[u8]) -> Option<Ids>
    ensures { list_meant result ≡ ids_in Format.MsgPack v.now (Arrays.outer v.now) }
{
    if json_text::MAX_BYTES < v.len() {
        return None;
    }
    let h = msgpack::head_at(v, 0);
    let kind = h.kind;
    let count = h.n;
    if kind != msgpack::ARRAY {
        return None;
    }
    if MOST_ENTRIES < count {
        return None;
    }
    let mut p = h.end;
    let mut r = no_ids();
    for _ in 0..count {
        let e = msgpack::value(v, p, INNER_DEPTH)?;
        let id = arrays::id(seq::text(v, Span { from: p, to: e }));
        if id == 0 {
            return None;
        }
        r = push(r, id);
        p = e;
    }
    if p == v.len() {
        return Some(r);
    }
    None
}

// What a list says whose value was read, or is wrong.
fn given(ids: Option<Ids>) -> OptionValue<Ids>
    ensures { ids_meant result ≡ list_meant ids }
{
    match ids {
        Some(ids) => OptionValue::Given(ids),
        None => OptionValue::Wrong,
    }
}

pub fn read_ids(format: Format, v: &[u8]) -> OptionValue<Ids>
    ensures { ids_meant result ≡ ids_of format v.now }
{
    if v.len() == 0 {
        return OptionValue::Absent;
    }
    match format {
        Format::Json => given(in_list(v)),
        Format::MsgPack => given(in_array(v)),
    }
}

// ---- what they say of a session

// Is the ID in the list?
fn has(l: Ids, id: u64) -> bool
    ensures { result ≡ lists id (ids_before l) }
{
    l.ids.iter().take(l.count).any(|n| *n == id)
}

// Is `exclude_me` literally false?
fn keeps_me(o: OptionValue<bool>) -> bool
    ensures { result ≡ keeps_me (flag_meant o) }
{
    match o {
        OptionValue::Absent => false,
        OptionValue::Given(b) => !b,
        OptionValue::Wrong => false,
    }
}

// Does `exclude` leave a session of this ID out?
fn excludes(o: OptionValue<Ids>, id: u64) -> bool
    ensures { result ≡ excludes (ids_meant o) id }
{
    match o {
        OptionValue::Absent => false,
        OptionValue::Given(l) => has(l, id),
        OptionValue::Wrong => false,
    }
}

// Does `eligible` keep a session of this ID?
fn admits(o: OptionValue<Ids>, id: u64) -> bool
    ensures { result ≡ admits (ids_meant o) id }
{
    match o {
        OptionValue::Absent => true,
        OptionValue::Given(l) => has(l, id),
        OptionValue::Wrong => true,
    }
}

// Do the options leave a session of this ID, which is the publisher's own or not?
pub fn leaves(o: Options, own: bool, id: u64) -> bool
    ensures { result ≡ leaves (audience_of o) own id }
{
    if own {
        if !keeps_me(o.publisher) {
            return false;
        }
    }
    if excludes(o.exclude, id) {
        return false;
    }
    admits(o.eligible, id)
}

// ---- is an option wrong?

fn is_wrong_flag(o: OptionValue<bool>) -> bool
    ensures { result ≡ is_wrong (flag_meant o) }
{
    match o {
        OptionValue::Absent => false,
        OptionValue::Given(_) => false,
        OptionValue::Wrong => true,
    }
}

fn is_wrong_list(o: OptionValue<Ids>) -> bool
    ensures { result ≡ is_wrong (ids_meant o) }
{
    match o {
        OptionValue::Absent => false,
        OptionValue::Given(_) => false,
        OptionValue::Wrong => true,
    }
}

// Is one of them?
pub fn any_wrong(o: Options) -> bool
    ensures { result ≡ any_wrong (audience_of o) }
{
    if is_wrong_flag(o.publisher) {
        return true;
    }
    if is_wrong_list(o.exclude) {
        return true;
    }
    is_wrong_list(o.eligible)
}
