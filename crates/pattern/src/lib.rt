// Matching of texts by policy (PROTOCOL, "Matching"). A URI comes with the ends of its components: it is split once, however many texts it
// is matched with.
#![tactic(auto)]

ghost use Rattle.std.specs.Prelude.{◌≡◌, cond, ◌&&◌, eqb, length};
ghost use Rattle.uri.specs.Components.{EndsOf};
ghost use Rattle.pattern.specs.Match.{starts_with, fits_text, beats_text, wins_text, better_text};
ghost use Rattle.pattern.specs.Along.{shared, is_open};
ghost use Rattle.pattern.specs.Choice.{fits_row};

use seq::Span;
use uri::Policy;

// A row of the subscription or registration table; number 0 is an unused row.
#[derive(Clone, Copy)]
pub struct Row {
    pub number: u64,
    pub policy: Policy,
    // The slots whose sessions hold the row: a subscription's members, a registration's owner. Matching does not look at them.
    pub holders: [bool; 8],
    pub len: usize,
    pub text: [u8; 128],
}

// Does the text begin the URI, byte for byte?
pub fn begins(text: &[u8], uri: &[u8]) -> bool
    ensures { result ≡ starts_with text.now uri.now }
{
    let n = text.len();
    if uri.len() < n {
        return false;
    }
    seq::same_bytes(text, &uri[..n])
}

// How many bytes two texts have in common from their starts on.
fn common(a: &[u8], b: &[u8]) -> usize
    ensures { result ≡ shared a.now b.now }
{
    a.iter().zip(b).take_while(|(x, y)| x == y).count()
}

// Does an empty component stand at the place?
fn is_open(text: &[u8], at: usize) -> bool
    ensures { result ≡ is_open text.now at }
{
    if !uri::is_end(text, at) {
        return false;
    }
    if at == 0 {
        return true;
    }
    text[at - 1] == b'.'
}

// Are both places the ends of their texts?
fn both_end(text: &[u8], e: usize, uri: &[u8], f: usize) -> bool
    ensures { result ≡ eqb e (length text.now) && eqb f (length uri.now) }
{
    if e == text.len() {
        return f == uri.len();
    }
    false
}

// Do the components of a wildcard text fit those of a URI? Both are walked by the bytes that they have in common. Where these stop, an empty
// component of the text, which fits the URI's whatever that is, is passed with it; else both are at their ends, or they do not fit.
fn parts_fit(text: &[u8], uri: &[u8], ends: &[usize]) -> bool
    requires { EndsOf uri.now ends.now }
    ensures { result ≡ fits_text Policy.Wildcard text.now uri.now }
{
    let mut i: usize = 0;
    let mut j: usize = 0;
    let mut k: usize = 0;
    while i <= text.len() {
        if uri.len() < j {
            return false;
        }
        let n = common(&text[i..], &uri[j..]);
        let e = i + n;
        let f = j + n;
        if !is_open(text, e) {
            return both_end(text, e, uri, f);
        }
        k = uri::past(ends, k, f);
        j = uri::end_at(uri, ends, k, f) + 1;
        i = e + 1;
    }
    uri.len() < j
}

// Does the text of a row or request with this policy fit the URI, whose components end as the split tells?
pub fn fits(policy: Policy, text: &[u8], uri: &[u8], ends: &[usize]) -> bool
    requires { EndsOf uri.now ends.now }
    ensures { result ≡ fits_text policy text.now uri.now }
{
    match policy {
        Policy::Exact => seq::same_bytes(text, uri),
        Policy::Prefix => begins(text, uri),
        Policy::Wildcard => parts_fit(text, uri, ends),
    }
}

// Does the wildcard text `a` beat `b`? Where both have the same counts so far, the first component that is a wildcard in one of them alone
// decides: the other has the larger count there.
fn beats(a: &[u8], b: &[u8]) -> bool
    ensures { result ≡ beats_text a.now b.now }
{
    let mut i: usize = 0;
    let mut j: usize = 0;
    while i <= a.len() {
        if b.len() < j {
            return true;
        }
        let e = uri::part_end(a, i);
        let f = uri::part_end(b, j);
        if e == i {
            if f != j {
                return false;
            }
        } else {
            if f == j {
                return true;
            }
        }
        i = e + 1;
        j = f + 1;
    }
    false
}

// The better of two wildcard texts, as the caller's own bytes; `a` where neither beats the other.
pub fn better<'a>(a: &'a [u8], b: &'a [u8]) -> &'a [u8]
    ensures own { result ≡ cond (beats_text b.now a.now) b.entry a.entry }
    ensures bytes { result.now ≡ better_text a.now b.now }
{
    if beats(b, a) {
        return b;
    }
    a
}

// Is `new` the better of two wildcard texts? The winner's bytes tell, since no text beats itself.
fn wildcard_wins<'a>(new: &'a [u8], old: &'a [u8]) -> bool
    ensures { result ≡ beats_text new.now old.now }
{
    let winner = better(old, new);
    !seq::same_bytes(winner, old)
}

// Is `new` the better of two texts of one policy?
pub fn wins<'a>(policy: Policy, new: &'a [u8], old: &'a [u8]) -> bool
    ensures { result ≡ wins_text policy new.now old.now }
{
    match policy {
        Policy::Exact => false,
        Policy::Prefix => old.len() < new.len(),
        Policy::Wildcard => wildcard_wins(new, old),
    }
}

// Is the row in use, and does its text fit?
pub fn row_fits(row: Row, uri: &[u8], ends: &[usize]) -> bool
    requires { EndsOf uri.now ends.now }
    ensures { result ≡ fits_row uri.now row }
{
    if row.number == 0 {
        return false;
    }
    let policy = row.policy;
    let bytes = row.text;
    let n = row.len;
    let text = seq::text(&bytes, Span { from: 0, to: n });
    fits(policy, text, uri, ends)
}
