// The members of a dict that is an element of a message, given a text and the place of its brace there.
#![tactic(auto)]

ghost use Rattle.std.specs.Prelude.{◌≡◌, ◌≤◌, length};
ghost use Rattle.json_text.specs.Json.{max_bytes, value};
ghost use Rattle.members.specs.Members.{member_depth, member_at, Beyond, members_at, value_of, sound_keys};

use lex::Mark;
use seq::Span;

// The outer list is depth 1 of 8, the dict depth 2.
const MEMBER_DEPTH: usize = 6;

// A member: the place just past its key, and where its value stands.
#[derive(Clone, Copy)]
struct Member {
    key_end: usize,
    value: Span,
}

// The member whose key starts at k.
fn member_at(t: &[u8], k: usize) -> Option<Member>
    requires { length t.now ≤ max_bytes }
    ensures means { result ≡ member_at (value member_depth t.now) t.now k }
    ensures beyond { Beyond k (length t.now) result }
{
    let key_end = lex::quoted(t, k)?;
    let from = lex::colon(t, key_end)?;
    let to = json_text::value(t, from, MEMBER_DEPTH)?;
    Some(Member {
        key_end: key_end,
        value: Span { from: from, to: to },
    })
}

// The value of a key, which is compared undone; an empty span if there is none.
pub fn find(t: &[u8], at: usize, key: &[u8]) -> Span
    ensures { result ≡ value_of t.now key.now (members_at t.now at) }
{
    if json_text::MAX_BYTES < t.len() {
        return Span { from: 0, to: 0 };
    }
    if seq::byte(t, at) != b'{' {
        return Span { from: 0, to: 0 };
    }
    let mut m = lex::first_member(t, at + 1);
    while let Mark::Item(k) = m {
        let Some(member) = member_at(t, k) else {
            return Span { from: 0, to: 0 };
        };
        if strings::is_text(strings::between(t, k, member.key_end), key) {
            return member.value;
        }
        m = lex::next_member(t, member.value.to);
    }
    Span { from: 0, to: 0 }
}

// Are the keys free of halves that are in no pair? A text without a backslash is not gone through again.
pub fn sound(t: &[u8], at: usize) -> bool
    ensures { result ≡ sound_keys t.now (members_at t.now at) }
{
    if strings::is_plain(t) {
        return true;
    }
    sound_among(t, at)
}

// The same, key by key.
fn sound_among(t: &[u8], at: usize) -> bool
    ensures { result ≡ sound_keys t.now (members_at t.now at) }
{
    if json_text::MAX_BYTES < t.len() {
        return true;
    }
    if seq::byte(t, at) != b'{' {
        return true;
    }
    let mut m = lex::first_member(t, at + 1);
    while let Mark::Item(k) = m {
        let Some(member) = member_at(t, k) else {
            return true;
        };
        if strings::has_lone(strings::between(t, k, member.key_end)) {
            return false;
        }
        m = lex::next_member(t, member.value.to);
    }
    true
}
