// URI texts: the URI rule by policy and by use, and the components of a text.
#![tactic(auto)]

ghost use Rattle.std.specs.Prelude.{◌≡◌, ◌+◌, ◌≤◌, take, drop};
ghost use Rattle.uri.specs.Uri.{policy_no, same_policy, clean, part_end, filled, components_filled, reserved_first, valid_text};
ghost use Rattle.uri.specs.Uri.{valid_topic, valid_procedure, valid_published, valid_called, valid_error};
ghost use Rattle.uri.specs.Components.{is_end, component_spans, most_components, spans_to, ends_told, ends_before, end_at};

mod classes;

// How a row's text, or a request's, is matched (PROTOCOL, "Matching"). It stands here since the URI rule is by policy and `uri` is the
// lower crate.
#[derive(Clone, Copy, Debug, PartialEq, Eq)]
pub enum Policy {
    Exact,
    Prefix,
    Wildcard,
}

// The longest text.
pub const LONGEST: usize = 128;

// Where the first components of a text end. The first starts at 0, and each other one past the end before it.
#[derive(Clone, Copy)]
pub struct Ends {
    pub count: usize,
    pub places: [usize; 129],
}

// The policy's number in the lent state.
pub fn policy_number(p: Policy) -> u8
    ensures { result ≡ policy_no p }
{
    match p {
        Policy::Exact => 0,
        Policy::Prefix => 1,
        Policy::Wildcard => 2,
    }
}

// Are two policies the same?
pub fn same_policy(p: Policy, q: Policy) -> bool
    ensures { result ≡ same_policy p q }
{
    p == q
}

// Where the component that starts at `at` ends: its dot, or the text's end; past the end `at` itself.
pub fn part_end(text: &[u8], at: usize) -> usize
    ensures { result ≡ part_end text.now at }
{
    at + seq::from(text, at)
        .iter()
        .take_while(|b| **b != b'.')
        .count()
}

// Is the place the end of a component: a dot's, or the text's end?
pub fn is_end(text: &[u8], at: usize) -> bool
    ensures { result ≡ is_end text.now at }
{
    if at < text.len() {
        return text[at] == b'.';
    }
    at == text.len()
}

// The text split: where each of its components ends, in order. No text of LONGEST bytes has more than 129; of a longer one the first 129
// are told.
pub fn split(text: &[u8]) -> Ends
    ensures spans { spans_to 0 (ends_told result) ≡ take most_components (component_spans text.now) }
    ensures most { result.count ≤ most_components }
{
    let mut places = [0usize; 129];
    let mut at: usize = 0;
    for count in 0..129 {
        if text.len() < at {
            return Ends { count, places };
        }
        let e = part_end(text, at);
        places[count] = e;
        at = e + 1;
    }
    Ends { count: 129, places }
}

// The ends from the k-th on. The library's `skip` would step over those before it one by one.
fn ends_from(ends: &[usize], k: usize) -> &[usize]
    ensures { result.now ≡ drop k ends.now }
{
    &ends[k.min(ends.len())..]
}

// The number of the first end, from the k-th on, that does not stand before a place; that of the ends where each does.
pub fn past(ends: &[usize], k: usize, at: usize) -> usize
    ensures { result ≡ k + ends_before at (drop k ends.now) }
{
    k + ends_from(ends, k)
        .iter()
        .take_while(|end| **end < at)
        .count()
}

// The k-th end; where the ends are fewer, which those of a URI text never are, that of the component at a place is looked for.
pub fn end_at(text: &[u8], ends: &[usize], k: usize, at: usize) -> usize
    ensures { result ≡ end_at text.now ends.now k at }
{
    if k < ends.len() {
        return ends[k];
    }
    part_end(text, at)
}

// Is no component empty, but for the last where `last_open`?
fn all_filled(text: &[u8], last_open: bool) -> bool
    ensures { result ≡ filled last_open text.now }
{
    let mut i: usize = 0;
    while i <= text.len() {
        let e = part_end(text, i);
        if e == i {
            if e < text.len() {
                return false;
            }
            return last_open;
        }
        i = e + 1;
    }
    true
}

// Is the first component `wamp`?
fn is_reserved(text: &[u8]) -> bool
    ensures { result ≡ reserved_first text.now }
{
    let e = part_end(text, 0);
    seq::same_bytes(&text[..e], b"wamp")
}

// The rule on empty components.
fn components_filled(text: &[u8], policy: Policy) -> bool
    ensures { result ≡ components_filled policy text.now }
{
    match policy {
        Policy::Exact => all_filled(text, false),
        Policy::Prefix => all_filled(text, true),
        Policy::Wildcard => true,
    }
}

// What every text obeys, by its policy.
fn valid(text: &[u8], policy: Policy) -> bool
    ensures { result ≡ valid_text text.now policy }
{
    if text.len() == 0 {
        return false;
    }
    if text.len() > LONGEST {
        return false;
    }
    if !classes::all_clean(text) {
        return false;
    }
    components_filled(text, policy)
}

// ---- the rule of a text by its use

// The topic of a SUBSCRIBE, and of a subscription's row.
pub fn valid_topic(text: &[u8], policy: Policy) -> bool
    ensures { result ≡ valid_topic text.now policy }
{
    valid(text, policy)
}

// The procedure of a REGISTER, and of a registration's row.
pub fn valid_procedure(text: &[u8], policy: Policy) -> bool
    ensures { result ≡ valid_procedure text.now policy }
{
    if !valid(text, policy) {
        return false;
    }
    !is_reserved(text)
}

// The topic of a PUBLISH.
pub fn valid_published(text: &[u8]) -> bool
    ensures { result ≡ valid_published text.now }
{
    if !valid(text, Policy::Exact) {
        return false;
    }
    !is_reserved(text)
}

// The procedure of a CALL.
pub fn valid_called(text: &[u8]) -> bool
    ensures { result ≡ valid_called text.now }
{
    valid(text, Policy::Exact)
}

// The URI of an ERROR.
pub fn valid_error(text: &[u8]) -> bool
    ensures { result ≡ valid_error text.now }
{
    valid(text, Policy::Exact)
}
